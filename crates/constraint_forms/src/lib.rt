//! The forms of a workflow's rules: what it is for a plan to satisfy a rule, and for a partial
//! assignment to falsify one, over whatever relates users.
#![tactic(auto)]

mod assign;
mod count;
mod evaluate;
mod kept;
pub mod laws;
mod plan;
mod rule;
mod rules;
mod step_set;

pub use assign::Assign;
pub use evaluate::{falsified, satisfied};
pub use kept::{RelatedRows, keep_unfalsified};
pub use plan::Plan;
pub use rule::{Holds, Rule};
pub use rules::Rules;
pub use step_set::StepSet;
