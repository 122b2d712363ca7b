//! All that a run is lent, in memory.

use fixtures::{shelf_of, sink_of, source_of, words_of};
use std::alloc::{AllocError, Global};
use wf_outside::{MemShelf, MemSink, MemSource};

/// The words of a run, its file, what it reads and what it writes.
#[derive(Drop)]
pub(crate) struct World {
    pub(crate) words: Vec<String>,
    pub(crate) shelf: MemShelf,
    pub(crate) source: MemSource,
    pub(crate) sink: MemSink,
}

impl World {
    /// Nothing is written yet.
    pub(crate) fn new(
        alloc: Global,
        words: &[&str],
        policy: &str,
        input: &str,
    ) -> Result<World, AllocError> {
        Ok(World {
            words: words_of(alloc, words)?,
            shelf: shelf_of(alloc, policy)?,
            source: source_of(alloc, input.as_bytes())?,
            sink: sink_of(alloc)?,
        })
    }
}
