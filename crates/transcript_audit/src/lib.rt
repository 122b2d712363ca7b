//! The audit of a transcript: whether it is the text of a legal history that answers the jobs of an
//! input, and else the first line that is wrong and how.
//!
//! An `Auditor` takes the lines one by one (`line`), each with its LF. A line is right where it is
//! the text of an entry that may come next in a session (`specs/Audits.antt`), whatever the
//! session's verdicts were: a plan or a tree in a reply is checked by itself. After the first line
//! that is wrong every other is refused. `end` tells whether an entry is missing.
#![tactic(auto)]

mod again;
mod auditor;
mod cursor;
mod fault;
mod flaw;
mod flows;
pub mod laws;
mod record;
mod session;
mod verdict;

pub use auditor::Auditor;
pub use fault::{AuditFault, AuditKind};
pub use session::know_session;
