//! What came of a run: how it ended, what it tells, and the record that every command is judged by.
#![tactic(auto)]

mod fault;
mod outside;
mod report;

pub use fault::{InputFault, RunFault};
pub use outside::Outside;
pub use report::{Report, bare_report};
