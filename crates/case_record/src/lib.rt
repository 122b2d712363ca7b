//! The record of one case: its workflow, where each of its steps stands, and where it stands
//! itself.
#![tactic(auto)]

mod case;
mod order;
mod steps;

pub use case::Case;
