//! What callers and the server say to each other: requests, replies, and the lists that keep them.
#![tactic(auto)]

mod edit;
mod entry;
mod flows;
mod job;
mod lists;
mod reply;
mod request;
mod states;

pub use edit::{Edit, Missing};
pub use entry::Entry;
pub use flows::FlowOf;
pub use job::Job;
pub use lists::{CaseList, Ends, Jobs, Journal, Line, RoleList, WorkList};
pub use reply::{Denial, Face, Reply, WorkItem};
pub use request::{Ask, Bad, Request};
pub use states::States;
