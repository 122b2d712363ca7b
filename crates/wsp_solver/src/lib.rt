//! A search that answers a valid plan, or a tree that shows why there is none.
#![tactic(auto)]

mod crew;
mod found;
mod leaf;
mod lean;
mod near;
mod next;
mod search;
mod steps;
mod task;
mod twin;

pub use lean::trim;
pub use near::plan_near;
pub use search::{Outcome, OverBudget, Unsolved, solve, solve_within};
