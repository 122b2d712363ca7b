//! Values of which an equal one can be made.
ghost use Rattle.std.specs.Prelude.{◌≡◌, IfOk};

use std::alloc::AllocError;

/// A value of which an equal one can be made, as `Clone` makes it for what contracts see.
pub trait Same: Drop {
    /// An equal value.
    fn same(&self) -> Result<Self, AllocError>
        ensures { IfOk result (λ x. x ≡ self.now) };
}
