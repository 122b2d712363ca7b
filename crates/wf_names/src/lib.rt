//! What every crate of the server names things by: numbers of users, roles and the like, the
//! server's limits, names, and tables of names.
#![tactic(auto)]

mod ids;
pub mod laws;
mod limits;
mod name;
mod states;
mod stored;
mod table;
mod user_set;
pub mod words;

pub use ids::{CaseId, FlowId, RelId, RoleId, StepId, UserId};
pub use limits::{
    BATCH_LINE_LIMIT, CASE_LIMIT, CASE_NUMBER_LIMIT, DEFAULT_LANES, DEFAULT_ROUNDS, FLOW_LIMIT,
    LANE_LIMIT, LINE_LIMIT, NAME_LIMIT, OPEN_CASE_LIMIT, PAIR_LIMIT, POLICY_FILE_LIMIT,
    RELATION_LIMIT, REQUESTS_FILE_LIMIT, ROLE_LIMIT, ROUND_LIMIT, RULE_LIMIT, SESSION_LINE_LIMIT,
    STEP_LIMIT, TRANSCRIPT_LINE_LIMIT, USER_LIMIT,
};
pub use name::Name;
pub use states::{Phase, StepState};
pub use table::{NameFault, NameTable};
pub use user_set::UserSet;
