//! The policy file: reads a policy from TOML, or tells the first fault of the text, and prints a
//! policy as the file that it is read from.
#![tactic(auto)]

mod document;
mod fault;
mod file;
mod flows;
mod form;
mod format;
pub mod laws;
mod pairs;
mod parts;
mod printed_flows;
mod printed_parts;
mod printed_rosters;
mod relations;
mod rosters;
mod rules;
mod workflows;
mod written;

pub use document::print;
pub use fault::{PolicyFault, PolicyKind, PolicyPart, ReadFault};
pub use file::read;
pub use form::Form;
pub use format::Format;
