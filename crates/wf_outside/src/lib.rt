//! What the server reads from and writes to, each with a count of faults, and the ones in memory.
#![tactic(auto)]

mod counts;
mod loaded;
mod mem_shelf;
mod mem_sink;
mod mem_source;
mod shelf;
mod sink;
mod source;

pub use loaded::{LoadFault, Loaded};
pub use mem_shelf::{MemFile, MemShelf};
pub use mem_sink::MemSink;
pub use mem_source::MemSource;
pub use shelf::Shelf;
pub use sink::{Sink, put_all, put_and_flush};
pub use source::{Failed, Source, take_all};
