//! Whether a plan is valid, and what is the first thing wrong with it.
ghost use Rattle.std.specs.Prelude.{◌≡◌, ◌<◌, ◌==◌, ◌↔◌, ℕ, length, slice_get, true, IsOk};
ghost use Rattle.constraint_forms.specs.Assign.{planned, user_at};
ghost use Rattle.policy_book.specs.Laws.Plans.{IsValidPlan, IsWithin};
ghost use Rattle.policy_book.specs.Course.{problem_in};
ghost use Rattle.policy_book.specs.Policies.{problem_of};
ghost use Rattle.certificate_check.specs.Plan.{first_failing, is_kept, is_obeyed, may_perform};
ghost use Rattle.certificate_check.specs.Plan.{plan_verdict};

use constraint_forms::satisfied;
use policy_book::{Assign, Course, Plan, Policy, StepSet};
use wf_names::{FlowId, StepId};

/// What is wrong with a plan.
#[derive(Clone, Copy)]
pub enum PlanFault {
    /// It gives an assigned step to another user.
    Moved(StepId),
    /// It gives a step that is not finished to a user who is not authorised for it.
    Role(StepId),
    /// It does not satisfy the rule with this number.
    Rule(u8),
}

/// Whether any list of users at all is a plan that is valid for what is assigned and finished.
pub fn is_valid_plan(p: &Policy, f: FlowId, a: &Assign, done: &StepSet, plan: &Plan) -> bool
    requires flow { f < length p.now.flows }
    requires within { IsWithin (problem_of p.now f) a.now }
    ensures { result ≡ true ↔ IsValidPlan (problem_of p.now f) a.now done.now plan.now }
{
    let course = Course {
        policy: p,
        number: f,
    };
    is_whole(&course, plan) && has_known(p, plan) && check_plan(p, f, a, done, plan).is_ok()
}

/// Whether a plan has a user for each step.
fn is_whole(course: &Course, plan: &Plan) -> bool
    ensures { result ≡ (length plan.now == (problem_in course.now).steps) }
{
    plan.len() as u16 == course.flow().steps().len()
}

/// Whether the policy has every user of a plan.
fn has_known(p: &Policy, plan: &Plan) -> bool
    ensures { result ≡ true ↔ ((s : ℕ) → s < length plan.now
        → planned plan.now s < length p.now.roster.users) }
{
    'steps: for s in 0..plan.len() {
        if plan.at(StepId(s)).0 >= p.roster().users().len() {
            return false;
        }
    }
    true
}

/// Checks that a plan is valid for what is assigned and finished, and else tells its first fault.
pub fn check_plan(
    p: &Policy,
    f: FlowId,
    a: &Assign,
    done: &StepSet,
    plan: &Plan,
) -> Result<(), PlanFault>
    requires flow { f < length p.now.flows }
    requires whole { length plan.now ≡ (problem_of p.now f).steps }
    requires users { (s : ℕ) → s < length plan.now
        → planned plan.now s < (problem_of p.now f).users }
    requires within { IsWithin (problem_of p.now f) a.now }
    ensures valid { IsOk result ↔ IsValidPlan (problem_of p.now f) a.now done.now plan.now }
    ensures fault { result ≡ plan_verdict (problem_of p.now f) a.now done.now plan.now }
{
    let course = Course {
        policy: p,
        number: f,
    };
    verdict(&course, a, done, plan)
}

fn verdict(course: &Course, a: &Assign, done: &StepSet, plan: &Plan) -> Result<(), PlanFault>
    requires whole { length plan.now ≡ (problem_in course.now).steps }
    requires users { (s : ℕ) → s < length plan.now
        → planned plan.now s < (problem_in course.now).users }
    ensures { result ≡ plan_verdict (problem_in course.now) a.now done.now plan.now }
{
    if let Some(s) = first_moved(a, plan) {
        return Err(PlanFault::Moved(s));
    }
    if let Some(s) = first_unauthorised(course, done, plan) {
        return Err(PlanFault::Role(s));
    }
    if let Some(k) = first_disobeyed(course, plan) {
        return Err(PlanFault::Rule(k));
    }
    Ok(())
}

/// The least step that is assigned and that the plan gives to another user.
fn first_moved(a: &Assign, plan: &Plan) -> Option<StepId>
    ensures { result ≡ first_failing (λ s. is_kept (user_at a.now s) (planned plan.now s)) 0
        (length plan.now) }
{
    'steps: for s in 0..plan.len() {
        if !is_kept(a, plan, StepId(s)) {
            return Some(StepId(s));
        }
    }
    None
}

fn is_kept(a: &Assign, plan: &Plan, s: StepId) -> bool
    requires { s < length plan.now }
    ensures { result ≡ is_kept (user_at a.now s) (planned plan.now s) }
{
    match a.at(s) {
        Some(u) => u == plan.at(s),
        None => true,
    }
}

/// The least step that is not finished and whose user is not authorised for it.
fn first_unauthorised(course: &Course, done: &StepSet, plan: &Plan) -> Option<StepId>
    requires whole { length plan.now ≡ (problem_in course.now).steps }
    requires users { (s : ℕ) → s < length plan.now
        → planned plan.now s < (problem_in course.now).users }
    ensures { result ≡ first_failing (may_perform (problem_in course.now) done.now plan.now) 0
        (length plan.now) }
{
    'steps: for s in 0..plan.len() {
        if !may_perform(course, done, plan, StepId(s)) {
            return Some(StepId(s));
        }
    }
    None
}

fn may_perform(course: &Course, done: &StepSet, plan: &Plan, s: StepId) -> bool
    requires whole { length plan.now ≡ (problem_in course.now).steps }
    requires users { (t : ℕ) → t < length plan.now
        → planned plan.now t < (problem_in course.now).users }
    requires step { s < length plan.now }
    ensures { result ≡ may_perform (problem_in course.now) done.now plan.now s }
{
    done.has(s) || course.authorised(s, plan.at(s))
}

/// The least rule that the plan does not satisfy.
fn first_disobeyed(course: &Course, plan: &Plan) -> Option<u8>
    requires whole { length plan.now ≡ (problem_in course.now).steps }
    ensures { result ≡ first_failing (λ k. is_obeyed (problem_in course.now) plan.now
        (slice_get (problem_in course.now).rules k)) 0 (length (problem_in course.now).rules) }
{
    'rules: for k in 0..course.rules().len() {
        if !is_obeyed(course, plan, k) {
            return Some(k as u8);
        }
    }
    None
}

fn is_obeyed(course: &Course, plan: &Plan, k: usize) -> bool
    requires whole { length plan.now ≡ (problem_in course.now).steps }
    ensures { result ≡ is_obeyed (problem_in course.now) plan.now
        (slice_get (problem_in course.now).rules k) }
{
    match course.rules().as_slice().get(k) {
        Some(rule) => satisfied(rule, course.policy, plan),
        None => true,
    }
}
