//! A quick search for a plan. It promises nothing of what it finds: whoever asks it checks the
//! plan.
//!
//! Steps of one user form a block. The search joins free steps to blocks or opens new ones, and
//! keeps for each block the users who may still stand for it; users are chosen late. Every run is
//! bounded by counted work, so that the same question has the same answer on every machine.
#![tactic(auto)]

mod advice;
mod bits;
mod branch;
mod choice;
mod guide;
mod laws;
mod links;
mod matching;
mod problem;
mod reasons;
mod rows;
mod runs;
mod state;
mod work;

pub use runs::{Clue, Finder};
