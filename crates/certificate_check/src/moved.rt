//! A valid plan with one step given to another user.
ghost use Rattle.std.specs.Prelude.{◌≡◌, ◌<◌, ℕ, Bool, List, Option, Some, length, slice_get};
ghost use Rattle.std.specs.Prelude.{slice_set, true, IfSome};
ghost use Rattle.policy_book.specs.Course.{problem_in};
ghost use Rattle.policy_book.specs.Policies.{problem_of};
ghost use Rattle.policy_book.specs.Laws.Plans.{IsValidPlan};
ghost use Rattle.certificate_check.specs.Plan.{keeps_rule};

use constraint_forms::satisfied;
use policy_book::{Course, Plan, Policy};
use wf_names::{FlowId, STEP_LIMIT, StepId, UserId};

/// A plan with one of its steps given to another user, where that is valid because the plan is: the
/// user is authorised for the step, and the rules that name it are satisfied. For whatever is
/// assigned, the plan stays valid once the step is given to the user. Takes no memory.
pub fn moved_plan(p: &Policy, f: FlowId, plan: &Plan, step: StepId, user: UserId) -> Option<Plan>
    requires flow { f < length p.now.flows }
    requires whole { length plan.now ≡ (problem_of p.now f).steps }
    requires step { step < (problem_of p.now f).steps }
    requires user { user < (problem_of p.now f).users }
    ensures moved { IfSome result (λ moved. moved ≡ slice_set plan.now step user) }
    ensures valid { IfSome result (λ moved. (a : List (Option ℕ)) (done : List Bool)
        → IsValidPlan (problem_of p.now f) a done plan.now
        → IsValidPlan (problem_of p.now f) (slice_set a step (Some user)) done moved) }
{
    if !p.authorised(f, step, user) {
        return None;
    }
    let course = Course {
        policy: p,
        number: f,
    };
    let moved = with_user(plan, step, user);
    if keeps_rules(&course, &moved, step) {
        Some(moved)
    } else {
        None
    }
}

/// A plan with a step given to another user.
fn with_user(plan: &Plan, step: StepId, user: UserId) -> Plan
    requires { step < length plan.now }
    ensures { result ≡ slice_set plan.now step user }
{
    let len = plan.len();
    let mut users = [UserId(0); STEP_LIMIT];
    'steps: for s in 0..len {
        users[s as usize] = plan.at(StepId(s));
    }
    users[step.0 as usize] = user;
    Plan::of(&users[..len as usize])
}

/// Whether a plan satisfies the rules that name a step.
fn keeps_rules(course: &Course, plan: &Plan, step: StepId) -> bool
    requires whole { length plan.now ≡ (problem_in course.now).steps }
    ensures { result ≡ true → (k : ℕ) → k < length (problem_in course.now).rules
        → keeps_rule (problem_in course.now) plan.now step
        (slice_get (problem_in course.now).rules k) ≡ true }
{
    'rules: for k in 0..course.rules().len() {
        if !keeps_rule(course, plan, step, k) {
            return false;
        }
    }
    true
}

/// Whether a plan satisfies the rule with a number, if it names a step.
fn keeps_rule(course: &Course, plan: &Plan, step: StepId, k: usize) -> bool
    requires whole { length plan.now ≡ (problem_in course.now).steps }
    ensures { result ≡ keeps_rule (problem_in course.now) plan.now step
        (slice_get (problem_in course.now).rules k) }
{
    match course.rules().as_slice().get(k) {
        Some(rule) => !rule.names(step) || satisfied(rule, course.policy, plan),
        None => true,
    }
}
