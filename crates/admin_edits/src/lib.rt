//! Why a request is denied before anything is searched for: a claim by its first cause, and an edit
//! of the policy by its first fault; and the policy after an edit.
#![tactic(auto)]

mod amendment;
mod cause;
mod claim_cause;
mod edited;
mod fault;
mod find;
mod hurting;
pub mod laws;

pub use amendment::Amendment;
pub use cause::{amendment_of, edit_cause};
pub use claim_cause::{first_cause, has_cause};
pub use edited::{amended, apply};
pub use fault::{EditCause, EditFault};
pub use hurting::is_over;
