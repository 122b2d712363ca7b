ghost use Rattle.std.specs.Prelude.{◌≡◌, ◌≤◌, ℕ, List, length, IfOk, IsErrOf};
ghost use Rattle.wf_outside.specs.Laws.Outside.{Filed, Rose, StaysUnlessFailed, LoadsAs};

use crate::{LoadFault, Loaded};
use std::alloc::Global;

/// Where files are found by name, as the disk.
pub trait Shelf {
    /// What the shelf tells of a name.
    ghost file: { Self → List ℕ → Filed };

    /// How often a call has failed.
    ghost faults: { Self → ℕ };

    /// The named file's bytes, of which there are at most `limit`.
    fn load(&mut self, alloc: Global, name: &str, limit: usize) -> Result<Loaded, LoadFault>
        ensures loaded { LoadsAs (file self.old name.now) limit result }
        ensures within { IfOk result (λ bytes. length bytes ≤ limit) }
        ensures kept { (n : List ℕ) → file self.new n ≡ file self.old n }
        ensures faults { faults self.old ≤ faults self.new }
        ensures rose { IsErrOf result LoadFault.Failed → Rose (faults self.old) (faults self.new) }
        ensures stays { StaysUnlessFailed result (faults self.old) (faults self.new) };
}
