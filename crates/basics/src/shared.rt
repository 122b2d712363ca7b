//! A value with several holders, of which each can change its own.
ghost use Rattle.std.specs.Prelude.{◌≡◌, IfOk};
ghost use Rattle.std.specs.Borrow.{sem};
ghost use Rattle.basics.specs.Shared.{FollowsEdit};

use std::alloc::{AllocError, Global};
use std::marker::Model;
use std::sync::Arc;

/// A value whose clones are equal to it.
pub trait Copied: Clone + Drop {
    ghost equal: { (x y : Self) → Self.is_clone x y → y ≡ x };
}

/// A value that may have several holders. Contracts see the value alone: what one holder changes
/// no other holder sees.
#[derive(Drop)]
pub struct Shared<T> {
    part: Arc<T, Global>,
}

impl<T> Model for Shared<T> {
    ghost use Rattle.std.specs.Prelude.{◌≡◌};

    ghost Value = { T };

    ghost view = { λ s. s.part.value };
}

impl<T: Drop> Shared<T> {
    /// A value with one holder.
    pub fn new(alloc: Global, part: T) -> Result<Shared<T>, AllocError>
        ensures { IfOk result (λ s. s ≡ part) }
    {
        Ok(Shared {
            part: Arc::new(alloc, part)?,
        })
    }

    /// The value.
    pub fn get(&self) -> &T
        ensures { result.now ≡ self.now }
    {
        &self.part
    }

    /// The same value for one holder more. Takes no memory.
    pub fn share(&self) -> Result<Shared<T>, AllocError>
        ensures { IfOk result (λ s. s ≡ self.now) }
    {
        Ok(Shared {
            part: Arc::try_clone(&self.part)?,
        })
    }
}

impl<T: Drop> Clone for Shared<T> {
    ghost is_clone = { λ x y. y ≡ x };

    fn clone(&self) -> Result<Shared<T>, AllocError> {
        self.share()
    }
}

impl<T: Copied> Shared<T> {
    /// The value, to be changed for this holder alone: where others hold it too, a copy of it
    /// takes its place first.
    pub fn edit(&mut self) -> Result<&mut T, AllocError>
        ensures* writes_back { sem 𝓛 (FollowsEdit T.row self.entry result) }
        ensures value { IfOk result (λ t. t.now ≡ self.old) }
    {
        Arc::make_mut(&mut self.part)
    }
}
