//! Which step to try next, and the plan where none is left.
ghost use Rattle.std.specs.Prelude.{◌≡◌, ◌<◌, ◌≤◌, ℕ, length, is_some, Some, true, IsTrue};
ghost use Rattle.std.specs.Prelude.{MatchOption};
ghost use Rattle.wf_names.specs.declared.limits.TheConstants.{STEP_LIMIT};
ghost use Rattle.constraint_forms.specs.Assign.{user_at};
ghost use Rattle.policy_book.specs.Course.{problem_in};
ghost use Rattle.policy_book.specs.Laws.Refuting.{is_unassigned};
ghost use Rattle.wsp_solver.specs.Searches.{IsAssignedPlan};

use plan_finder::Finder;
use policy_book::{Assign, Course, Plan};
use wf_names::{STEP_LIMIT, StepId, UserId};

/// A step that is not assigned: the one that the finder advises, where it is such a step.
pub(crate) fn next_step(
    course: &Course,
    a: &Assign,
    finder: &mut Finder,
    depth: u8,
) -> Option<StepId>
    ensures { MatchOption result ((s : ℕ) → s < (problem_in course.now).steps
        → is_some (user_at a.now s) ≡ true)
        (λ s. (s < STEP_LIMIT) × IsTrue (is_unassigned (problem_in course.now) a.now s)) }
{
    match finder.next_step(course.policy, a, depth) {
        Some(s) if is_unassigned(course, a, s) => Some(s),
        _ => first_free(course, a),
    }
}

/// Whether a step is one of the workflow that is not assigned.
pub(crate) fn is_unassigned(course: &Course, a: &Assign, s: StepId) -> bool
    ensures within { IsTrue result → s < STEP_LIMIT }
    ensures free { result ≡ is_unassigned (problem_in course.now) a.now s }
{
    (s.0 as u16) < course.flow().steps().len() && a.at(s).is_none()
}

// A step that is not assigned.
fn first_free(course: &Course, a: &Assign) -> Option<StepId>
    ensures { MatchOption result ((s : ℕ) → s < (problem_in course.now).steps
        → is_some (user_at a.now s) ≡ true)
        (λ s. (s < STEP_LIMIT) × IsTrue (is_unassigned (problem_in course.now) a.now s)) }
{
    'steps: for s in 0..course.flow().steps().len() {
        let step = StepId(s as u8);
        if a.at(step).is_none() {
            return Some(step);
        }
    }
    None
}

/// The plan that an assignment of every step is.
pub(crate) fn plan_of(course: &Course, a: &Assign) -> Plan
    requires full { (s : ℕ) → s < (problem_in course.now).steps → is_some (user_at a.now s) ≡ true }
    ensures { IsAssignedPlan (problem_in course.now).steps a.now result }
{
    let steps = course.flow().steps().len() as usize;
    let mut users = no_users();
    'steps: for s in 0..steps {
        users[s] = holder_of(a, StepId(s as u8));
    }
    Plan::of(&users[..steps])
}

// The user of a step that is assigned.
fn holder_of(a: &Assign, s: StepId) -> UserId
    requires { is_some (user_at a.now s) ≡ true }
    ensures { user_at a.now s ≡ Some result }
{
    match a.at(s) {
        Some(u) => u,
        None => unreachable!(),
    }
}

/// A list with a user for each step that there may be, to be written over.
pub(crate) fn no_users() -> [UserId; STEP_LIMIT]
    ensures { length result ≡ STEP_LIMIT }
{
    [UserId(0); STEP_LIMIT]
}
