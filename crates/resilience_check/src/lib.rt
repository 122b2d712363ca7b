//! How many users a workflow can do without: the policy without some users, families of plans that
//! cover every absence, and the least absence that leaves no valid plan.
#![tactic(auto)]

mod away;
mod covering;
mod finding;
mod left;
mod search;

pub use covering::covers;
pub use left::without;
pub use search::{AbsenceAnswer, Absent, Plans, resilience};
