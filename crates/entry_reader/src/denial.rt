//! The denial that a value is.
ghost use Rattle.std.specs.Prelude.{◌≡◌, ◌<◌, IfSome, length, option_map, option_and_then};
ghost use Rattle.serde_json.specs.View.{view};
ghost use Rattle.serde_json.specs.Find.{as_str};
ghost use Rattle.entry_reader.specs.Reads.{Reads};
ghost use Rattle.entry_reader.specs.Values as read;
ghost use Rattle.entry_reader.specs.Told as told;

use crate::kind::{DenialKind, denial_word, missing_word};
use crate::list::roles_of;
use crate::parts::{case_of, only, rule_of, state_of, step_of, user_of};
use crate::tree::read_tree;
use crate::{NotText, TextFault};
use basics::{Fault, Shared};
use policy_book::Policy;
use refutation_tree::Tree;
use serde_json::Value;
use std::alloc::Global;
use wf_names::{FlowId, StepId};
use wf_talk::{Denial, FlowOf, Missing};

/// The denial that a value is, where this workflow is concerned.
#[tactic(auto, unfolding(crate::specs::Told::denial_read))]
pub(crate) fn denial_of<F: FlowOf>(
    alloc: Global,
    p: &Policy,
    cases: &F,
    flow: Option<FlowId>,
    value: &Value,
) -> Result<Denial, TextFault>
    ensures { Reads (λ d. d) result (told.denial_read p.now (F.FlowOf.flows cases.now) flow
        (view value.now)) }
{
    if let Some(denial) = word_denial(value) {
        return Ok(denial);
    }
    let (key, value) = only(value).ok_or(Fault::Cause(NotText))?;
    match DenialKind::read(key) {
        Some(kind) => denial_by(alloc, p, cases, flow, kind, value),
        None => Err(Fault::Cause(NotText)),
    }
}

// The denial that is a word alone.
fn word_denial(value: &Value) -> Option<Denial>
    ensures { result ≡ option_and_then (read.row_read told.denial_words) (as_str (view value.now)) }
{
    denial_word(value.as_str()?)
}

// The denial of a kind whose value this is.
fn denial_by<F: FlowOf>(
    alloc: Global,
    p: &Policy,
    cases: &F,
    flow: Option<FlowId>,
    kind: DenialKind,
    value: &Value,
) -> Result<Denial, TextFault>
    ensures { Reads (λ d. d) result (told.denial_by p.now (F.FlowOf.flows cases.now) flow kind
        (view value.now)) }
{
    match kind {
        DenialKind::Role => Ok(Denial::Role(roles_of(alloc, p, value)?)),
        DenialKind::Unsatisfiable => {
            let (flow, tree) = tree_by(alloc, p, flow, value)?;
            Ok(Denial::Unsatisfiable { flow, tree })
        }
        DenialKind::Stranded => {
            let (flow, tree) = tree_by(alloc, p, flow, value)?;
            Ok(Denial::Stranded { flow, tree })
        }
        DenialKind::Strands => strands_of(alloc, p, cases, value),
        _ => short_denial(p, flow, kind, value).ok_or(Fault::Cause(NotText)),
    }
}

// The denial of a kind that takes no memory.
fn short_denial(p: &Policy, flow: Option<FlowId>, kind: DenialKind, value: &Value) -> Option<Denial>
    ensures { result ≡ told.short_denial p.now flow kind (view value.now) }
{
    match kind {
        DenialKind::Taken => Some(Denial::Taken(user_of(p, value)?)),
        DenialKind::Order => {
            let (flow, step) = step_by(p, flow, value)?;
            Some(Denial::Order { flow, step })
        }
        DenialKind::Rule => Some(Denial::Rule(rule_of(value)?)),
        DenialKind::NotHeld => Some(Denial::NotHeld(state_of(p, value)?)),
        DenialKind::Unknown => Some(Denial::Unknown(missing_of(value)?)),
        _ => None,
    }
}

// The case that an edit strands, with the tree.
fn strands_of<F: FlowOf>(
    alloc: Global,
    p: &Policy,
    cases: &F,
    value: &Value,
) -> Result<Denial, TextFault>
    ensures { Reads (λ d. d) result (told.strands_read p.now (F.FlowOf.flows cases.now)
        (view value.now)) }
{
    let case = case_of(value).ok_or(Fault::Cause(NotText))?;
    let tree = value.get("tree").ok_or(Fault::Cause(NotText))?;
    let (flow, tree) = tree_by(alloc, p, cases.flow_of(case), tree)?;
    Ok(Denial::Strands { case, flow, tree })
}

// A workflow of the policy, with the tree over it.
fn tree_by(
    alloc: Global,
    p: &Policy,
    flow: Option<FlowId>,
    value: &Value,
) -> Result<(FlowId, Shared<Tree>), TextFault>
    ensures { Reads (λ t. t) result (told.tree_by p.now flow (view value.now)) }
{
    let flow = flow_within(p, flow).ok_or(Fault::Cause(NotText))?;
    let tree = read_tree(alloc, p, flow, value)?;
    Ok((flow, Shared::new(alloc, tree)?))
}

/// A workflow of the policy, with a step of it.
pub(crate) fn step_by(p: &Policy, flow: Option<FlowId>, value: &Value) -> Option<(FlowId, StepId)>
    ensures { result ≡ told.step_by p.now flow (view value.now) }
{
    let flow = flow_within(p, flow)?;
    let step = step_of(p, flow, value)?;
    Some((flow, step))
}

// A workflow, where it is one of the policy.
fn flow_within(p: &Policy, flow: Option<FlowId>) -> Option<FlowId>
    ensures { result ≡ told.flow_within p.now flow }
{
    match flow {
        Some(f) if (f.0 as u16) < p.flows().len() => Some(f),
        _ => None,
    }
}

fn missing_of(value: &Value) -> Option<Missing>
    ensures { result ≡ told.missing_read (view value.now) }
{
    missing_word(value.as_str()?)
}
