//! Denials as they are written: each is guessed in one pass over its text.
ghost use Rattle.std.specs.Prelude.{ℕ, ◌<◌, Option, IfOk, length};
ghost use Rattle.refutation_tree.specs.Laws.Views.{shape_of};
ghost use Rattle.wf_names.specs.declared.limits.TheConstants.{STEP_LIMIT};
ghost use Rattle.policy_book.specs.Laws.Shapes.{PolicyShape};
ghost use Rattle.entry_reader.specs.Laws.Within.{IsCase, IsConcerned, IsState, IsStepOf};
ghost use Rattle.entry_reader.specs.Plain.{IsLow, IsPlainDenial};

use crate::kind::{DenialKind, denial_word, missing_word};
use crate::plain_tree::{guess_tree, take_rule, take_step, take_user};
use crate::rest::Rest;
use crate::{NotText, TextFault};
use basics::{Fault, Shared};
use policy_book::{Course, Policy};
use refutation_tree::Tree;
use wf_names::{CASE_NUMBER_LIMIT, CaseId, FlowId, STEP_LIMIT, StepId, StepState};
use wf_talk::{Denial, FlowOf, Missing};

/// The denial that comes next, where this workflow is concerned.
pub(crate) fn guess_denial<F: FlowOf>(
    p: &Policy,
    cases: &F,
    flow: Option<FlowId>,
    rest: &mut Rest<'_>,
) -> Result<Denial, TextFault>
    ensures { IfOk result (IsPlainDenial p.now (F.FlowOf.flows cases.now) flow) }
{
    if rest.has(b"{") {
        let kind = take_kind(rest)?;
        guess_by(p, cases, flow, kind, rest)
    } else {
        guess_word(rest)
    }
}

// The denial that is a word alone.
#[tactic(auto, using(crate::proofs::PlainDenials::word_denial))]
fn guess_word(rest: &mut Rest<'_>) -> Result<Denial, TextFault>
    ensures { (p : PolicyShape) (flows : ℕ → Option ℕ) (concerned : Option ℕ) →
        IfOk result (IsPlainDenial p flows concerned) }
{
    let word = rest.take_name().ok_or(Fault::Cause(NotText))?;
    denial_word(word.as_str()).ok_or(Fault::Cause(NotText))
}

// Takes the key of a denial that tells more.
fn take_kind(rest: &mut Rest<'_>) -> Result<DenialKind, TextFault> {
    let key = rest.take_name().ok_or(Fault::Cause(NotText))?;
    rest.skip(b":");
    DenialKind::read(key.as_str()).ok_or(Fault::Cause(NotText))
}

// The denial of a kind.
#[tactic(auto, using(crate::proofs::Uses::refuting_denials))]
fn guess_by<F: FlowOf>(
    p: &Policy,
    cases: &F,
    flow: Option<FlowId>,
    kind: DenialKind,
    rest: &mut Rest<'_>,
) -> Result<Denial, TextFault>
    ensures { IfOk result (IsPlainDenial p.now (F.FlowOf.flows cases.now) flow) }
{
    match kind {
        DenialKind::Unsatisfiable => {
            let flow = flow_within(p, flow)?;
            let tree = guess_over(p, flow, rest)?;
            Ok(Denial::Unsatisfiable { flow, tree })
        }
        DenialKind::Stranded => {
            let flow = flow_within(p, flow)?;
            let tree = guess_over(p, flow, rest)?;
            Ok(Denial::Stranded { flow, tree })
        }
        DenialKind::Strands => guess_strands(p, cases, rest),
        _ => guess_short(p, flow, kind, rest),
    }
}

// The case that an edit strands, with the tree.
#[tactic(auto, using(crate::proofs::PlainDenials::strands))]
fn guess_strands<F: FlowOf>(p: &Policy, cases: &F, rest: &mut Rest<'_>) -> Result<Denial, TextFault>
    ensures { (concerned : Option ℕ) →
        IfOk result (IsPlainDenial p.now (F.FlowOf.flows cases.now) concerned) }
{
    rest.skip(b"{\"case\":");
    let case = take_case(rest)?;
    rest.skip(b",\"tree\":");
    let flow = flow_within(p, cases.flow_of(case))?;
    let tree = guess_over(p, flow, rest)?;
    Ok(Denial::Strands { case, flow, tree })
}

// The denial of a kind that takes no memory.
#[tactic(auto, using(crate::proofs::Uses::other_denials))]
fn guess_short(
    p: &Policy,
    flow: Option<FlowId>,
    kind: DenialKind,
    rest: &mut Rest<'_>,
) -> Result<Denial, TextFault>
    ensures { (flows : ℕ → Option ℕ) → IfOk result (IsPlainDenial p.now flows flow) }
{
    match kind {
        DenialKind::Taken => Ok(Denial::Taken(take_user(p, rest)?)),
        DenialKind::Order => {
            let flow = flow_within(p, flow)?;
            let step = take_step_of(p, flow, rest)?;
            Ok(Denial::Order { flow, step })
        }
        DenialKind::Rule => Ok(Denial::Rule(take_rule(rest)?)),
        DenialKind::NotHeld => Ok(Denial::NotHeld(take_state(p, rest)?)),
        DenialKind::Unknown => Ok(Denial::Unknown(take_missing(rest)?)),
        _ => Err(Fault::Cause(NotText)),
    }
}

// The workflow that is concerned, where it is one of the policy.
fn flow_within(p: &Policy, flow: Option<FlowId>) -> Result<FlowId, TextFault>
    ensures concerned { IfOk result (IsConcerned p.now flow) }
    ensures known { IfOk result (λ f. f < length p.now.flows) }
{
    match flow {
        Some(f) if (f.0 as u16) < p.flows().len() => Ok(f),
        _ => Err(Fault::Cause(NotText)),
    }
}

// The tree over a workflow that comes next.
fn guess_over(p: &Policy, f: FlowId, rest: &mut Rest<'_>) -> Result<Shared<Tree>, TextFault>
    requires { f < length p.now.flows }
    ensures { IfOk result (λ t. IsLow p.now f STEP_LIMIT (shape_of t)) }
{
    let course = Course {
        policy: p,
        number: f,
    };
    let tree = guess_tree(&course, STEP_LIMIT, rest)?;
    Ok(Shared::new(rest.alloc, tree)?)
}

// Takes the name of a step of a workflow.
fn take_step_of(p: &Policy, f: FlowId, rest: &mut Rest<'_>) -> Result<StepId, TextFault>
    requires { f < length p.now.flows }
    ensures { IfOk result (IsStepOf p.now f) }
{
    let course = Course {
        policy: p,
        number: f,
    };
    take_step(&course, rest)
}

// Takes the number of a case.
fn take_case(rest: &mut Rest<'_>) -> Result<CaseId, TextFault>
    ensures { IfOk result IsCase }
{
    match rest.take_number() {
        Some(n) if n <= CASE_NUMBER_LIMIT as u32 => Ok(CaseId(n as u16)),
        _ => Err(Fault::Cause(NotText)),
    }
}

// Takes where a step stands.
fn take_state(p: &Policy, rest: &mut Rest<'_>) -> Result<StepState, TextFault>
    ensures { IfOk result (IsState p.now) }
{
    if rest.has(b"\"free\"") {
        Ok(StepState::Free)
    } else if rest.has(b"{\"held\":") {
        Ok(StepState::Held(take_user(p, rest)?))
    } else {
        rest.skip(b"{\"finished\":");
        Ok(StepState::Finished(take_user(p, rest)?))
    }
}

// Takes the word for what is not there.
fn take_missing(rest: &mut Rest<'_>) -> Result<Missing, TextFault> {
    let word = rest.take_name().ok_or(Fault::Cause(NotText))?;
    missing_word(word.as_str()).ok_or(Fault::Cause(NotText))
}
