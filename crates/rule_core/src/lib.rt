//! Why a workflow has no valid plan: the rules that cannot be met together, none of which can be
//! left out, or steps that want more different users than there are for them.
#![tactic(auto)]

mod crowd;
mod fewer;
mod find;
pub mod laws;
mod leaves;
mod numbers;
mod progress;
mod search;

pub use crowd::{StepList, are_parted, is_strict};
pub use fewer::{RuleList, with_rules};
pub use progress::Progress;
pub use search::{Why, why_at_start, why_of};
