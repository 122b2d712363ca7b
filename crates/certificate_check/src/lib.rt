//! Checks of plans and of the trees that refute, simple enough to be trusted by reading.
#![tactic(auto)]

mod alike;
pub mod laws;
mod moved;
mod plan;
mod tree;

pub use alike::{are_related_alike, has_no_step, twins};
pub use moved::moved_plan;
pub use plan::{PlanFault, check_plan, is_valid_plan};
pub use tree::{check_tree, mentions};
