//! The list of a workflow's rules.
use crate::Rule;
use basics::List;

/// A list of rules; a rule's number is its place.
pub type Rules = List<Rule>;
