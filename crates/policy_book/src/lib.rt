//! The policy: who holds which role, who is related to whom, and the workflows with their rules.
#![tactic(auto)]

mod authority;
mod candidates;
mod course;
mod duties;
mod kept;
mod policy;
mod related;
mod workflow;

pub use constraint_forms::{Assign, Holds, Plan, RelatedRows, Rule, Rules, StepSet};
pub use course::Course;
pub use policy::Policy;
pub use rbac_state::{Roster, RosterFault};
pub use user_relations::{RelationFault, Relations};
pub use workflow_schema::{Flow, FlowFault};
