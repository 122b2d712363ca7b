//! Serving the jobs of a batch at a desk: by turns on one thread, or each lane's on a thread of its
//! own.
#![tactic(auto)]

mod gate;
mod lanes;
pub mod laws;
mod server;
mod table_turns;
mod turns;
mod worker;

pub use gate::{Gate, OpenGate};
pub use lanes::serve_by_lanes;
pub use turns::serve_by_turns;
