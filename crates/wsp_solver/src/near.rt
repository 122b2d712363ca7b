//! Valid plans near another plan.
ghost use Rattle.std.specs.Prelude.{◌<◌, length, IfSome};
ghost use Rattle.wf_names.specs.declared.limits.TheConstants.{STEP_LIMIT};
ghost use Rattle.policy_book.specs.Laws.Plans.{IsWithin, IsValidPlan};
ghost use Rattle.policy_book.specs.Policies.{problem_of};

use crate::next::{is_unassigned, no_users};
use certificate_check::is_valid_plan;
use constraint_forms::{Rule, falsified};
use policy_book::{Assign, Course, Plan, Policy, StepSet};
use wf_names::{FlowId, STEP_LIMIT, StepId, UserId};

/// A valid plan near another plan: what is assigned stands in it, and while it is not valid, one
/// step that is not assigned is given to another user, as many times as a workflow may have steps
/// at most. Where there is none, there may be a valid plan all the same. Takes no memory.
pub fn plan_near(p: &Policy, f: FlowId, a: &Assign, done: &StepSet, plan: &Plan) -> Option<Plan>
    requires flow { f < length p.now.flows }
    requires within { IsWithin (problem_of p.now f) a.now }
    ensures { IfSome result (IsValidPlan (problem_of p.now f) a.now done.now) }
{
    let course = Course {
        policy: p,
        number: f,
    };
    let mut near = with_assigned(plan, a);
    for _ in 0..STEP_LIMIT {
        if is_valid_plan(p, f, a, done, &near) {
            return Some(near);
        }
        near = mended(&course, a, &near)?;
    }
    None
}

// The plan with another user for one step that is not assigned: for the first whose user may not
// perform it, or else for the first of a broken rule that can have another.
fn mended(course: &Course, a: &Assign, plan: &Plan) -> Option<Plan> {
    match first_unauthorised(course, a, plan) {
        Some(step) => with_another(course, plan, step),
        None => with_rule_kept(course, a, plan, &first_broken(course, plan)?),
    }
}

// The first step that is not assigned and that a plan gives to a user who may not perform it.
fn first_unauthorised(course: &Course, a: &Assign, plan: &Plan) -> Option<StepId>
    ensures { IfSome result (λ s. s < STEP_LIMIT) }
{
    for s in 0..course.flow().steps().len() {
        let step = StepId(s as u8);
        if is_unassigned(course, a, step) && !may_perform(course, plan, step) {
            return Some(step);
        }
    }
    None
}

// Whether a plan gives a step to a user who may perform it.
fn may_perform(course: &Course, plan: &Plan, step: StepId) -> bool {
    if step.0 >= plan.len() || (step.0 as u16) >= course.flow().steps().len() {
        return false;
    }
    let user = plan.at(step);
    user.0 < course.policy.roster().users().len() && course.authorised(step, user)
}

// The first rule that a plan breaks.
fn first_broken(course: &Course, plan: &Plan) -> Option<Rule> {
    let given = assignment_of(plan);
    for rule in course.rules().as_slice() {
        if falsified(rule, course.policy, &given) {
            return Some(*rule);
        }
    }
    None
}

// What a plan gives to whom.
fn assignment_of(plan: &Plan) -> Assign {
    let mut given = Assign::empty();
    for s in 0..plan.len() {
        given = given.with(StepId(s), plan.at(StepId(s)));
    }
    given
}

// The plan with another user for one step of a rule.
fn with_rule_kept(course: &Course, a: &Assign, plan: &Plan, rule: &Rule) -> Option<Plan> {
    for s in 0..course.flow().steps().len() {
        let step = StepId(s as u8);
        if rule.names(step) && is_unassigned(course, a, step) {
            if let Some(other) = with_another(course, plan, step) {
                return Some(other);
            }
        }
    }
    None
}

// The plan with another user for a step, who breaks no rule: while the other steps stay as they
// are, any candidate does as well as another.
fn with_another(course: &Course, plan: &Plan, step: StepId) -> Option<Plan>
    requires room { step < STEP_LIMIT }
{
    let others = assignment_of(plan).without(step);
    if !is_unassigned(course, &others, step) {
        return None;
    }
    let user = course
        .policy
        .candidates(course.number, step, &others)
        .next(0)?;
    Some(with_assigned(plan, &Assign::empty().with(step, user)))
}

// A plan with what is assigned in it.
fn with_assigned(plan: &Plan, a: &Assign) -> Plan {
    let len = plan.len();
    let mut users = no_users();
    'steps: for s in 0..len {
        users[s as usize] = assigned_or_planned(plan, a, StepId(s));
    }
    Plan::of(&users[..len as usize])
}

fn assigned_or_planned(plan: &Plan, a: &Assign, s: StepId) -> UserId
    requires { s < length plan.now }
{
    match a.at(s) {
        Some(user) => user,
        None => plan.at(s),
    }
}
