//! How far a case has come.
ghost use Rattle.policy_book.specs.Course.{problem_in};
ghost use Rattle.policy_book.specs.Laws.Plans.{IsWithin};
ghost use Rattle.rule_core.specs.Finished.{HaveUsers};

use policy_book::{Assign, Course, StepSet};

/// Who has which steps of a workflow, and which of them are finished.
#[derive(Clone, Copy)]
pub struct Progress<'a> {
    /// The workflow.
    pub course: &'a Course<'a>,
    /// Who has which steps.
    pub users: &'a Assign,
    /// The finished steps.
    pub done: &'a StepSet,
    ghost within: { IsWithin (problem_in course.now) users.now },
    ghost assigned: { HaveUsers done.now users.now },
}
