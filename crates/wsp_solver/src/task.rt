//! What a search is about.

use policy_book::{Course, StepSet};
use std::alloc::Global;

/// A workflow of a policy that is to be completed, where some steps are finished.
#[derive(Clone, Copy)]
pub(crate) struct Task<'p> {
    pub(crate) alloc: Global,
    pub(crate) course: &'p Course<'p>,
    pub(crate) done: &'p StepSet,
    /// Whether the search may stop without an answer.
    pub(crate) bounded: bool,
}
