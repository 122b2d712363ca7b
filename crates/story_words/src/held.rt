//! Who would have which steps of a case.
ghost use Rattle.std.specs.Prelude.{◌≡◌, ℕ, ◌<◌, Some, true, length, is_some, IsTrue};
ghost use Rattle.constraint_forms.specs.Assign.{is_member, user_at};
ghost use Rattle.policy_book.specs.Course.{problem_in};
ghost use Rattle.policy_book.specs.Laws.Plans.{IsWithin};
ghost use Rattle.rule_core.specs.Finished.{HaveUsers};

use crate::about::step_asked;
use crate::told::Told;
use constraint_forms::{Assign, StepSet};
use grant_table::Cases;
use policy_book::{Course, Policy};
use wf_names::{CaseId, FlowId, Name, NameTable, STEP_LIMIT, StepId, UserId};
use wf_talk::{Ask, Request};

/// Who has or would have which steps of a case of one of a policy's workflows, and which of them
/// are finished.
#[derive(Clone, Copy)]
pub(crate) struct Held<'p> {
    pub course: Course<'p>,
    pub users: Assign,
    pub done: StepSet,
}

impl<'p> Held<'p> {
    /// The names of the workflow's steps.
    pub(crate) fn steps(&self) -> &'p NameTable {
        self.course.flow().steps()
    }
}

/// Whether a policy has a workflow.
pub(crate) fn is_flow(p: &Policy, f: FlowId) -> bool
    ensures { result ≡ true → f < length p.now.flows }
{
    (f.0 as u16) < p.flows().len()
}

/// Who has the steps of a case, if there is one of a workflow of the policy.
pub(crate) fn held_in<'p>(p: &'p Policy, cases: &Cases, c: CaseId) -> Option<Held<'p>> {
    let case = cases.case(c)?;
    held_as(p, case.flow(), case.assigned(), case.finished())
}

/// These users and finished steps, if the policy has the workflow.
pub(crate) fn held_as<'p>(
    policy: &'p Policy,
    flow: FlowId,
    users: Assign,
    done: StepSet,
) -> Option<Held<'p>> {
    if !is_flow(policy, flow) {
        return None;
    }
    Some(Held {
        course: Course {
            policy,
            number: flow,
        },
        users,
        done,
    })
}

/// Who has the steps of the case whose step is asked about.
pub(crate) fn held_asked<'p>(told: &Told<'p>) -> Option<Held<'p>> {
    let (case, _) = step_asked(&told.entry.ask)?;
    held_in(told.policy, told.cases, case)
}

/// The step that is asked about, if the workflow has one of that name.
pub(crate) fn step_in(held: &Held<'_>, ask: &Ask) -> Option<StepId> {
    let (_, name) = step_asked(ask)?;
    match held.steps().find(&name) {
        Some(s) if (s as usize) < STEP_LIMIT => Some(StepId(s as u8)),
        _ => None,
    }
}

/// Who has the steps of a case, and with them what is claimed, as if who claims it had it.
pub(crate) fn held_with<'p>(told: &Told<'p>) -> Option<Held<'p>> {
    match held_asked(told) {
        Some(held) => held_claimed(&held, &told.entry.ask),
        None => None,
    }
}

fn held_claimed<'p>(held: &Held<'p>, ask: &Ask) -> Option<Held<'p>> {
    let Ask::Request(Request::Claim { user, .. }) = ask else {
        return None;
    };
    let step = step_in(held, ask)?;
    let user = held.course.policy.roster().users().find(user)?;
    Some(given(held, step, UserId(user)))
}

/// The same, with a step given to a user; no step from the limit on is.
pub(crate) fn given<'p>(held: &Held<'p>, s: StepId, u: UserId) -> Held<'p> {
    let mut users = held.users;
    if (s.0 as usize) < STEP_LIMIT {
        users = users.with(s, u);
    }
    Held {
        course: Course {
            policy: held.course.policy,
            number: held.course.number,
        },
        users,
        done: held.done,
    }
}

/// Whether steps of the workflow alone are given, to users of the policy, and each finished one is.
pub(crate) fn fits(held: &Held<'_>) -> bool
    ensures within { result ≡ true → IsWithin (problem_in held.now.course) held.now.users }
    ensures given { result ≡ true → HaveUsers held.now.done held.now.users }
{
    is_within(&held.course, &held.users) && are_given(&held.done, &held.users)
}

fn is_within(course: &Course, a: &Assign) -> bool
    ensures { result ≡ true → IsWithin (problem_in course.now) a.now }
{
    'steps: for s in 0..STEP_LIMIT {
        if !is_known(course, StepId(s as u8), a.at(StepId(s as u8))) {
            return false;
        }
    }
    true
}

fn is_known(course: &Course, s: StepId, user: Option<UserId>) -> bool
    ensures { result ≡ true → (u : ℕ) → user ≡ Some u
        → (s < (problem_in course.now).steps) × (u < (problem_in course.now).users) }
{
    match user {
        Some(u) => {
            (s.0 as u16) < course.flow().steps().len() && u.0 < course.policy.roster().users().len()
        }
        None => true,
    }
}

fn are_given(done: &StepSet, a: &Assign) -> bool
    ensures { result ≡ true → HaveUsers done.now a.now }
{
    let limit = done.limit();
    'steps: for s in 0..limit {
        if !is_given(done, a, StepId(s as u8)) {
            return false;
        }
    }
    true
}

fn is_given(done: &StepSet, a: &Assign, s: StepId) -> bool
    ensures { result ≡ true → IsTrue (is_member done.now s)
        → IsTrue (is_some (user_at a.now s)) }
{
    match a.at(s) {
        Some(_) => true,
        None => !done.has(s),
    }
}
