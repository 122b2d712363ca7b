//! Reading a transcript's lines back: the place that a line names, and the reply that it tells.
#![tactic(auto)]

mod denial;
mod fault;
mod kind;
mod list;
mod names;
mod parts;
mod place;
mod plain;
mod plain_denial;
mod plain_tree;
mod reply;
mod rest;
mod tree;

pub use fault::{NotText, TextFault};
pub use names::know_names;
pub use place::{Place, read_place};
pub use plain::{guess_place, read_plain};
pub use reply::read_reply;
pub use tree::tree_of;
