//! What a line asks, or the first cause against it.
ghost use Rattle.std.specs.Prelude.{◌≡◌, ◌<◌, ◌&&◌, ℕ, List, length, None, Ok, Some, true, IfErr};
ghost use Rattle.std.specs.Prelude.{IfOk, OnErr};
ghost use Rattle.std.specs.List.{list_any};
ghost use Rattle.wf_names.specs.States.{is_held};
ghost use Rattle.basics.specs.declared.fault.Fault.TheVariants.{NoMemory};
ghost use Rattle.basics.specs.Laws.Reading.{cause_of, Gives};
ghost use Rattle.case_record.specs.Cases.{state_at};
ghost use Rattle.admin_edits.specs.ClaimCauses as causes;
ghost use Rattle.wf_board.specs.declared.deed.Deed.TheVariants as deeds;
ghost use Rattle.wf_board.specs.Boards.{book_of};
ghost use Rattle.constraint_forms.specs.Assign.{planned, user_at};
ghost use Rattle.constraint_forms.specs.Rules.{is_falsified, names};
ghost use Rattle.policy_book.specs.Policies.{flow_at, problem_of};
ghost use Rattle.admin_edits.specs.ClaimCauses.{assigned_with};
ghost use Rattle.grant_table.specs.Cases.{plan_at};
ghost use Rattle.wf_board.specs.Laws.Kept.{ArePlanned, IsOfPolicy};
ghost use Rattle.wf_board.specs.Laws.Found.{AreFound, IsFound};
ghost use Rattle.wf_board.specs.Decisions.{cause_aside, cause_full, decision_aside, decision_of};
ghost use Rattle.wf_board.specs.Decisions.{is_held_by, is_view, needs_plan, needs_verdict};
ghost use Rattle.wf_board.specs.Decisions.{unless_holding};
ghost use Rattle.wf_board.specs.Decisions.{takes_memory};
ghost use Rattle.wf_board.specs.Taking.{undenied};
ghost use Rattle.wf_board.specs.Laws.States.{is_full};

use crate::resolve::resolve;
use crate::{Deed, Duty};
use admin_edits::{first_cause, has_cause};
use basics::Fault;
use case_record::Case;
use constraint_forms::{Assign, Rule, falsified};
use grant_table::Cases;
use policy_book::Policy;
use std::alloc::{AllocError, Global};
use wf_names::{CASE_LIMIT, FlowId, OPEN_CASE_LIMIT, StepId, StepState, UserId};
use wf_talk::{Ask, Denial, Request};

/// Why a deed is not done: the first cause against it, or that there was no memory to name it.
pub type Refused = Fault<Denial>;

/// The deed that a line asks for, or the first cause against it but `full` of an opening and what
/// needs a verdict. Only the roles of a denied claim take memory.
pub fn decision_aside(alloc: Global, p: &Policy, cases: &Cases, ask: &Ask) -> Result<Deed, Refused>
    requires { ArePlanned p.now cases.now.rows }
    ensures decision { Gives cause_of (λ deed. deed) result
        (decision_aside (book_of p.now cases.now) ask.now) }
    ensures found { IfOk result (IsFound p.now cases.now.rows) }
    ensures memory { IfErr result (λ e. e ≡ NoMemory
        → takes_memory (decision_aside (book_of p.now cases.now) ask.now) ≡ true) }
{
    let deed = match resolve(p, cases, ask) {
        Ok(deed) => deed,
        Err(denial) => return Err(Fault::Cause(denial)),
    };
    match cause_aside(alloc, p, cases, &deed) {
        Ok(None) => Ok(deed),
        Ok(Some(denial)) => Err(Fault::Cause(denial)),
        Err(_) => Err(Fault::NoMemory),
    }
}

/// The deed that a line asks for, or the first cause against it but what needs a verdict.
pub(crate) fn decision_of(
    alloc: Global,
    p: &Policy,
    cases: &Cases,
    ask: &Ask,
) -> Result<Deed, Refused>
    requires { ArePlanned p.now cases.now.rows }
    ensures decision { Gives cause_of (λ deed. deed) result
        (decision_of (book_of p.now cases.now) ask.now) }
    ensures aside { IfOk result (λ deed. decision_aside (book_of p.now cases.now)
        ask.now ≡ Ok deed) }
    ensures found { IfOk result (IsFound p.now cases.now.rows) }
    ensures memory { IfErr result (λ e. e ≡ NoMemory
        → takes_memory (decision_of (book_of p.now cases.now) ask.now) ≡ true) }
{
    let deed = decision_aside(alloc, p, cases, ask)?;
    match cause_full(p, cases, &deed) {
        None => Ok(deed),
        Some(denial) => Err(Fault::Cause(denial)),
    }
}

/// Whether nothing but whether cases can be completed is left to decide. Takes no memory.
pub(crate) fn needs_verdict(p: &Policy, cases: &Cases, ask: &Ask) -> bool
    requires { ArePlanned p.now cases.now.rows }
    ensures { result ≡ needs_verdict (decision_of (book_of p.now cases.now) ask.now) }
{
    let Ok(deed) = resolve(p, cases, ask) else {
        return false;
    };
    is_undecided(p, cases, &deed)
}

/// Whether a deed rests on whether cases can be completed, and no cause is against it.
pub(crate) fn is_undecided(p: &Policy, cases: &Cases, deed: &Deed) -> bool
    requires { IsFound p.now cases.now.rows deed.now }
    ensures { result ≡ needs_verdict (undenied (book_of p.now cases.now) deed.now) }
{
    match deed {
        Deed::Open { flow } => !p.retired(*flow) && !is_full(p, cases),
        Deed::Claim(duty) => !has_cause(p, &duty.case, duty.step, duty.user),
        Deed::Change { .. } | Deed::Work { .. } | Deed::WhatIf { .. } => true,
        _ => false,
    }
}

/// That no more cases can be opened, of an opening.
fn cause_full(p: &Policy, cases: &Cases, deed: &Deed) -> Option<Denial>
    ensures { result ≡ cause_full (book_of p.now cases.now) deed.now }
{
    match deed {
        Deed::Open { .. } if is_full(p, cases) => Some(Denial::Full),
        _ => None,
    }
}

/// Why a deed is denied, `full` of an opening aside.
fn cause_aside(
    alloc: Global,
    p: &Policy,
    cases: &Cases,
    deed: &Deed,
) -> Result<Option<Denial>, AllocError>
    requires kept { ArePlanned p.now cases.now.rows }
    requires found { IsFound p.now cases.now.rows deed.now }
    ensures cause { IfOk result (λ cause. cause ≡ cause_aside (book_of p.now cases.now) deed.now) }
    ensures memory { OnErr result
        (causes.takes_memory (cause_aside (book_of p.now cases.now) deed.now) ≡ true) }
{
    match deed {
        Deed::Open { flow } if p.retired(*flow) => Ok(Some(Denial::Retired)),
        Deed::Claim(duty) if is_clear(p, cases, duty) => Ok(None),
        Deed::Claim(duty) => first_cause(alloc, p, &duty.case, duty.step, duty.user),
        Deed::Finish(duty) | Deed::GiveBack(duty) => { Ok(unless_holding(duty)) }
        Deed::Release { case, step, .. } => Ok(unless_held(case, *step)),
        _ => Ok(None),
    }
}

/// Whether there is no cause against a claim of a case that can be completed as it stands, so that
/// no rule is falsified but by the step that is claimed. Where the kept plan gives the step to the
/// user, no rule has to be looked at.
fn is_clear(p: &Policy, cases: &Cases, duty: &Duty) -> bool
    requires kept { ArePlanned p.now cases.now.rows }
    requires found { AreFound p.now cases.now.rows duty.now }
    ensures { result ≡ true → cause_aside (book_of p.now cases.now) (deeds.Claim duty.now) ≡ None }
{
    let f = duty.case.flow();
    if !duty.case.ready(p.flow(f), duty.step) {
        return false;
    }
    let _sound = p.admin();
    if is_planned(cases, duty) {
        return true;
    }
    if !p.authorised(f, duty.step, duty.user) {
        return false;
    }
    !breaks_rule(p, &duty.case, duty.step, duty.user)
}

/// Whether the plan that is kept for a case gives a step to a user.
fn is_planned(cases: &Cases, duty: &Duty) -> bool
    ensures { result ≡ true → (plan : List ℕ) × ((plan_at cases.now duty.now.number ≡ Some plan)
        × (planned plan duty.now.step ≡ duty.now.user)) }
{
    match cases.kept_plan(duty.number) {
        Some(plan) => duty.step.0 < plan.len() && plan.at(duty.step) == duty.user,
        None => false,
    }
}

/// Whether a rule that names a step is falsified once a user has the step.
fn breaks_rule(p: &Policy, case: &Case, s: StepId, u: UserId) -> bool
    requires known { IsOfPolicy p.now case.now }
    requires step { s < length case.now.states }
    ensures { result ≡ list_any (λ r. names r s
        && is_falsified (problem_of p.now case.now.flow).related r
        (user_at (assigned_with case.now s u))) (flow_at p.now case.now.flow).rules }
{
    let f = case.flow();
    let given = assigned_with(case, s, u);
    breaks_one(p, f, p.rules(f).as_slice(), s, &given)
}

/// Whether one of these rules names a step and is falsified.
fn breaks_one(p: &Policy, f: FlowId, rules: &[Rule], s: StepId, given: &Assign) -> bool
    ensures { result ≡ list_any (λ r. names r s && is_falsified (problem_of p.now f).related
        r (user_at given.now)) rules.now }
{
    'rules: for rule in rules {
        if breaks(p, f, rule, s, given) {
            return true;
        }
    }
    false
}

/// Whether a rule names a step and is falsified.
fn breaks(p: &Policy, f: FlowId, rule: &Rule, s: StepId, given: &Assign) -> bool
    ensures { result ≡ (names rule.now s && is_falsified (problem_of p.now f).related
        rule.now (user_at given.now)) }
{
    let _ = f;
    rule.names(s) && falsified(rule, p, given)
}

/// What is assigned in a case, and a step given to a user with it.
pub(crate) fn assigned_with(case: &Case, s: StepId, u: UserId) -> Assign
    requires { s < length case.now.states }
    ensures { result ≡ assigned_with case.now s u }
{
    let _within = case.steps();
    case.assigned().with(s, u)
}

/// That a user does not hold a step.
fn unless_holding(duty: &Duty) -> Option<Denial>
    ensures { result ≡ unless_holding duty.now }
{
    if holds(duty.case.state(duty.step), duty.user) {
        None
    } else {
        Some(not_held(&duty.case, duty.step))
    }
}

/// That nobody holds a step.
fn unless_held(case: &Case, s: StepId) -> Option<Denial>
    ensures { result ≡ causes.unless (is_held (state_at case.now s))
        (Denial.NotHeld (state_at case.now s)) }
{
    if case.state(s).is_held() {
        None
    } else {
        Some(not_held(case, s))
    }
}

/// How a step stands that is not held.
fn not_held(case: &Case, s: StepId) -> Denial
    ensures { result ≡ Denial.NotHeld (state_at case.now s) }
{
    Denial::NotHeld(case.state(s))
}

/// Whether a user holds a step that stands so.
fn holds(state: StepState, u: UserId) -> bool
    ensures { result ≡ is_held_by u state }
{
    match state {
        StepState::Held(v) => v == u,
        StepState::Free | StepState::Finished(_) => false,
    }
}

/// Whether no more cases can be opened.
#[tactic(auto, using(crate::proofs::Rows::open_numbered))]
pub(crate) fn is_full(p: &Policy, cases: &Cases) -> bool
    ensures { result ≡ is_full (book_of p.now cases.now) }
{
    let _ = p;
    cases.live() >= OPEN_CASE_LIMIT || cases.ever() >= CASE_LIMIT
}

/// Whether this is a work list, or what an edit would strand: a view, which is never answered
/// again.
pub fn is_view(ask: &Ask) -> bool
    ensures { result ≡ is_view ask.now }
{
    matches!(
        ask,
        Ask::Request(Request::Worklist { .. } | Request::WhatIf { .. })
    )
}

/// Whether a deed rests on whether cases can be completed.
pub(crate) fn needs_plan(deed: &Deed) -> bool
    ensures { result ≡ needs_plan deed.now }
{
    matches!(
        deed,
        Deed::Open { .. }
            | Deed::Claim(_)
            | Deed::Change { .. }
            | Deed::Work { .. }
            | Deed::WhatIf { .. }
    )
}
