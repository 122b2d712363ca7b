//! Reading an input, in whatever pieces it comes: line by line (`LineReader`), or cut into lines,
//! jobs and batches (`Cutter`) and handed over batch by batch (`BatchReader`).
#![tactic(auto)]

mod batch_reader;
mod cutter;
mod jobs;
mod laws;
mod lines;
mod pieces;
mod read;
mod reader;
mod stop;

pub use batch_reader::{BatchReader, Paused, Reading};
pub use cutter::Cutter;
pub use jobs::{Batch, CutText, cut_text, jobs_of};
pub use laws::{inputs_go_on, jobs_are_in_order, jobs_are_named, jobs_stay_named};
pub use lines::jobs_are_of_lines;
pub use pieces::Pieces;
pub use read::Read;
pub use reader::LineReader;
pub use stop::Stop;
