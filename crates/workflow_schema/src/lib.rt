//! A workflow's steps, their order, and the roles that are permitted for them.
#![tactic(auto)]

mod fault;
mod flow;
pub mod laws;
mod lists;
mod pairs;
mod table;

pub use fault::FlowFault;
pub use flow::Flow;
pub use pairs::StepPairs;
