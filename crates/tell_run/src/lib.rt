//! The program that tells in words what a policy says: its commands, over whatever shelf, source
//! and sink it is given.
#![tactic(auto)]

mod ended;
mod planless;
mod policy;
mod run;
mod why;
mod words;

pub use ended::{Ended, end};
pub use run::run_alone;
pub use run_record::Outside;
