//! What is asked and answered in a session, in plain words. Nothing here decides anything: each
//! sentence tells what was answered, and its facts are looked up in the policy and the cases as
//! they stand after the entry. A denial changes neither.
#![tactic(auto)]

mod about;
mod answers;
mod asks;
mod crowds;
mod denials;
mod entries;
mod facts;
mod held;
mod names;
mod past;
mod refused;
mod tables;
mod told;
mod trees;
mod why;

pub use about::subject;
pub use answers::{push_answer, push_reply};
pub use asks::push_ask;
pub use entries::{push_entry, push_line};
pub use refused::push_reasons;
pub use tables::push_case;
pub use told::Told;
