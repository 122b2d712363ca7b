//! The disk as a shelf that does not tell what it holds; what the reader of a file tells is kept.
ghost use Rattle.std.specs.Prelude.{◌≡◌, ◌≤◌, length, IfOk, IsErrOf};
ghost use Rattle.wf_outside.specs.Laws.Outside.{untold, Rose, StaysUnlessFailed};
ghost use Rattle.wf_system.specs.Streams.{HandsOn};

use crate::reading::read_all;
use std::alloc::Global;
use std::fs;
use std::rt::Files;
use wf_outside::{LoadFault, Loaded, Shelf};

/// How many bytes of a file are read at once.
const CHUNK: usize = 65_536;

/// The files of the system, by their paths.
#[derive(Drop)]
pub struct DiskShelf<'a, R: Files> {
    rt: &'a R,
    faults: u64,
}

impl<'a, R: Files> DiskShelf<'a, R> {
    /// The files that `rt` reaches, with no fault so far.
    pub fn new(rt: &'a R) -> Self
        ensures none { result.faults ≡ 0 }
    {
        DiskShelf { rt, faults: 0 }
    }
}

impl<'a, R: Files> Shelf for DiskShelf<'a, R> {
    ghost file = { λ _ _. untold };

    ghost faults = { λ s. s.faults };

    fn load(&mut self, alloc: Global, name: &str, limit: usize) -> Result<Loaded, LoadFault>
        // What the reader of a file gave, cut at the limit, is what is answered.
        ensures given { HandsOn R.File.remaining limit result }

        // The clauses of every shelf.
        ensures within { IfOk result (λ bytes. length bytes ≤ limit) }
        ensures faults { self.old.faults ≤ self.new.faults }
        ensures rose { IsErrOf result LoadFault.Failed → Rose self.old.faults self.new.faults }
        ensures stays { StaysUnlessFailed result self.old.faults self.new.faults }
    {
        let Ok(mut file) = fs::open(self.rt, name) else {
            self.faults = self.faults.saturating_add(1);
            return Err(LoadFault::Failed);
        };
        let read = read_all(alloc, &mut file, limit, CHUNK);
        match read {
            Err(LoadFault::Failed) => {
                self.faults = self.faults.saturating_add(1);
                Err(LoadFault::Failed)
            }
            other => other,
        }
    }
}
