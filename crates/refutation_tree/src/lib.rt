//! Trees that show why a case cannot be completed.
#![tactic(auto)]

mod tree;

pub use tree::{Branch, Branches, Kid, Tree};
