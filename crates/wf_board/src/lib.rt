//! The state of a session: the policy with the table of cases, the answers to what is asked, and
//! the laws of histories.
#![tactic(auto)]

mod admit;
mod alike;
mod board;
mod breaking;
mod certified;
mod counting;
mod decider;
mod decision;
mod deed;
mod edition;
mod flows;
mod granted;
mod harmless;
pub mod laws;
mod limits;
mod resolve;
mod revision;
mod snap;
mod strands;
mod taking;
mod verdict;
mod views;

pub use admit::{AdmitFault, NotStep};
pub use board::Board;
pub use breaking::may_break;
pub use certified::decides;
pub use counting::counts;
pub use decider::Decider;
pub use decision::{Refused, decision_aside, is_view};
pub use deed::{Deed, Duty};
pub use edition::{Edition, Plans};
pub use harmless::is_harmless_deed;
pub use limits::TREE_LIMIT;
pub use revision::Revision;
pub use snap::Snap;
pub use verdict::{Answered, Stepped, Verdict, View};
