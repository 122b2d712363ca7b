//! A case that is shown.

use case_record::Case;
use plain_words::step_name;
use policy_book::Course;
use wf_names::{Name, StepId};

/// A case with its workflow.
#[derive(Clone, Copy)]
pub(crate) struct Shown<'a> {
    pub course: Course<'a>,
    pub case: &'a Case,
}

impl Shown<'_> {
    /// The name of a step, if there is one.
    pub(crate) fn step(&self, s: StepId) -> Option<Name> {
        step_name(&self.course, s)
    }
}
