//! The command `trial`: a policy and the jobs of its cases are made of a seed, the jobs are served,
//! and the replies are counted.
#![tactic(auto)]

mod counts;
mod draws;
mod jobs;
pub mod laws;
mod maker;
mod named;
mod people;
mod policy;
mod related;
mod run;
mod session;
mod steps;
mod summary;

pub use maker::{Trial, make};
pub use run::run_trial;
