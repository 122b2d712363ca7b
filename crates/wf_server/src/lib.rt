//! The top call, over whatever source, sink and shelf it is given, and the sessions of `serve`.
#![tactic(auto)]

mod batch;
mod file;
mod going_on;
mod runs;
mod serve;
mod session;
mod side;
mod texts;
mod way;
mod writing;

pub use run_record::{InputFault, Report, RunFault};
pub use runs::{run, run_alone};
pub use transcript_commands::{Resumed, resume};
pub use wf_lanes::{Gate, OpenGate};
