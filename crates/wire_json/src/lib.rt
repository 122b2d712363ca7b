//! Requests, entries and what a search finds as lines of JSON.
#![tactic(auto)]

mod absences;
mod change;
mod denial;
mod entry;
mod fill;
mod finding;
mod flat;
pub mod laws;
mod list;
mod object;
mod plain;
mod reply;
mod request;
mod text;
mod tree;
mod tree_text;
mod value;
mod views;
mod word;
mod writer;

pub use absences::{write_absence, write_family};
pub use finding::{push_plan_line, push_tree_line};
pub use reply::push_line;
pub use request::{Asked, RequestReader, read_request};
pub use tree::tree_value;
pub use value::read_value;
pub use writer::LineWriter;
