//! The commands over a transcript. `audit`: whether it is that of a legal session over a policy and
//! requests. `resume`: the files of an earlier session are loaded, the whole lines of its
//! transcript are audited, and a session begins with the desk after their entries and the jobs that
//! have none.
#![tactic(auto)]

mod audit;
mod auditing;
mod finding;
mod jobs_file;
mod laws;
mod lines;
mod load;
mod refusal;
mod resumed;
mod start;
mod taking;
mod unserved;

pub use audit::{AuditedSession, run_audit};
pub use finding::fault_text;
pub use laws::{legal_is_exact, legal_is_next};
pub use lines::{first_len, first_long, is_long, whole};
pub use refusal::Refusal;
pub use resumed::{Resumed, resume};
pub use start::{Beginning, Earlier, begin};
pub use unserved::{Unserved, rest};
