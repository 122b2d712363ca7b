//! The real input, output, files and words, for the program to lend to the server.
#![tactic(auto)]

mod disk;
mod ending;
mod reading;
mod streams;
mod words;

pub use disk::DiskShelf;
pub use ending::{end, write_ending};
pub use streams::{StdinSource, StdoutSink};
pub use words::{after_name, all_words};
