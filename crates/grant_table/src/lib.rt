//! The table of cases: each case at its number, and a kept plan for each open one.
#![tactic(auto)]

mod cases;
mod changes;
mod planned;
mod recent;
mod rows;

pub use cases::Cases;
pub use rows::Row;
