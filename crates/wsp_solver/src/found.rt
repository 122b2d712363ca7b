//! A plan that is found quickly and checked.
ghost use Rattle.std.specs.Prelude.{IfOk, IfSome};
ghost use Rattle.policy_book.specs.Course.{problem_in};
ghost use Rattle.policy_book.specs.Laws.Plans.{IsWithin, IsValidPlan};

use certificate_check::is_valid_plan;
use plan_finder::Finder;
use policy_book::{Assign, Course, Plan, StepSet};
use std::alloc::{AllocError, Global};

/// A valid plan, where one more run of the plan finder finds one. Where it finds none, there may be
/// one all the same.
pub(crate) fn found(
    alloc: Global,
    course: &Course,
    a: &Assign,
    done: &StepSet,
    finder: &mut Finder,
) -> Result<Option<Plan>, AllocError>
    requires within { IsWithin (problem_in course.now) a.now }
    ensures { IfOk result (λ found. IfSome found
        (IsValidPlan (problem_in course.now) a.now done.now)) }
{
    match finder.find(alloc, course.policy, a, done)? {
        Some(plan) => Ok(checked(course, a, done, plan)),
        None => Ok(None),
    }
}

/// A plan that is valid, and no other one.
pub(crate) fn checked(course: &Course, a: &Assign, done: &StepSet, plan: Plan) -> Option<Plan>
    requires within { IsWithin (problem_in course.now) a.now }
    ensures { IfSome result (IsValidPlan (problem_in course.now) a.now done.now) }
{
    if is_valid_plan(course.policy, course.number, a, done, &plan) {
        Some(plan)
    } else {
        None
    }
}
