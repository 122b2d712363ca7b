//! What a run reaches.
ghost use Rattle.run_record.specs.Outside.{Holds};

use std::alloc::Global;

/// What a run reaches outside of the program.
#[derive(Drop)]
pub struct Outside<'a, F, S, K> {
    /// The files that it loads.
    pub shelf: &'a mut F,
    /// Its input.
    pub source: &'a mut S,
    /// Its output.
    pub sink: &'a mut K,
    /// Its memory.
    pub alloc: Global,
}

impl<'a, F, S, K> Outside<'a, F, S, K> {
    /// All of it together.
    pub fn new(alloc: Global, shelf: &'a mut F, source: &'a mut S, sink: &'a mut K) -> Self
        ensures shelf { Holds result.shelf shelf.entry }
        ensures source { Holds result.source source.entry }
        ensures sink { Holds result.sink sink.entry }
    {
        Outside {
            shelf,
            source,
            sink,
            alloc,
        }
    }
}
