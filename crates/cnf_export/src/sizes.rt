//! How large a workflow is.
ghost use Rattle.std.specs.Prelude.{◌≡◌, ◌≤◌};
ghost use Rattle.wf_names.specs.declared.limits.TheConstants.{STEP_LIMIT, USER_LIMIT};
ghost use Rattle.policy_book.specs.Course.{problem_in};

use policy_book::Course;

/// How many steps a workflow has.
pub(crate) fn step_count(course: &Course) -> u8
    ensures count { result ≡ (problem_in course.now).steps }
    ensures few { result ≤ STEP_LIMIT }
{
    course.flow().steps().len() as u8
}

/// How many users there are.
pub(crate) fn user_count(course: &Course) -> u16
    ensures count { result ≡ (problem_in course.now).users }
    ensures few { result ≤ USER_LIMIT }
{
    course.policy.roster().users().len()
}
