//! Writing why a request was denied.
ghost use Rattle.std.specs.Prelude.{◌≡◌, ◌++◌, ◌∷◌, [], codes, OnOk};
ghost use Rattle.serde_json.specs.Data.{number, unsigned};
ghost use Rattle.serde_json.specs.Written.{compact_text};
ghost use Rattle.refutation_tree.specs.Laws.Views.{shape_of};
ghost use Rattle.wire_json.specs.Entries.{single, named, step_data, state_data};
ghost use Rattle.wire_json.specs.Trees.{tree_data};
ghost use Rattle.wire_json.specs.Replies.{denial_data, missing_data, strands_data};
ghost use Rattle.wire_json.specs.Pieces.{denial_word};

use crate::list::{Item, push_list_in};
use crate::text::{push, push_case, push_name, push_name_in, push_number};
use crate::tree_text::push_tree;
use policy_book::Policy;
use refutation_tree::Tree;
use std::alloc::AllocError;
use wf_names::{CaseId, FlowId, RoleId, StepId, StepState};
use wf_talk::{Denial, Missing};

/// Adds why a request was denied.
#[tactic(auto, unfolding(json::specs::Print::escape_byte))]
pub(crate) fn push_denial(out: &mut Vec<u8>, p: &Policy, denial: &Denial) -> Result<(), AllocError>
    ensures { OnOk result (out.new.items ≡ out.old.items ++ compact_text
        (denial_data p.now denial.now)) }
{
    match denial {
        Denial::Unsatisfiable { flow, tree } => {
            push_tree_in(out, b"{\"unsatisfiable\":", p, *flow, tree.get())
        }
        Denial::Taken(u) => push_name_in(out, b"{\"taken\":", p.roster().users(), u.0, b"}"),
        Denial::Order { flow, step } => push_step_in(out, b"{\"order\":", p, *flow, *step, b"}"),
        Denial::Role(roles) => push_list_in(out, b"{\"role\":", p, roles.as_slice()),
        Denial::Rule(rule) => push_rule(out, *rule),
        Denial::Stranded { flow, tree } => {
            push_tree_in(out, b"{\"stranded\":", p, *flow, tree.get())
        }
        Denial::NotHeld(state) => push_not_held(out, p, *state),
        Denial::Unknown(missing) => push_unknown(out, *missing),
        Denial::Strands { case, flow, tree } => push_strands(out, p, *case, *flow, tree.get()),
        _ => push(out, denial_text(denial)),
    }
}

// What is written for a denial that is a word alone; nothing for another.
fn denial_text(denial: &Denial) -> &'static [u8]
    ensures { result.now ≡ denial_word denial.now }
{
    match denial {
        Denial::NoFlow => b"\"no_flow\"",
        Denial::Retired => b"\"retired\"",
        Denial::Full => b"\"full\"",
        Denial::NoCase => b"\"no_case\"",
        Denial::Closed => b"\"closed\"",
        Denial::NoStep => b"\"no_step\"",
        Denial::NoUser => b"\"no_user\"",
        Denial::NotAdmin => b"\"not_admin\"",
        Denial::Fixed => b"\"fixed\"",
        Denial::Already => b"\"already\"",
        Denial::Absent => b"\"absent\"",
        Denial::LastAdmin => b"\"last_admin\"",
        _ => b"",
    }
}

pub(crate) fn push_rule(out: &mut Vec<u8>, rule: u8) -> Result<(), AllocError>
    ensures { OnOk result (out.new.items ≡ out.old.items ++ compact_text
        (single (codes "rule") (number (unsigned rule)))) }
{
    push_number(out, b"{\"rule\":", rule as u32)?;
    push(out, b"}")?;
    Ok(())
}

fn push_not_held(out: &mut Vec<u8>, p: &Policy, state: StepState) -> Result<(), AllocError>
    ensures { OnOk result (out.new.items ≡ out.old.items ++ compact_text
        (single (codes "not_held") (state_data p.now state))) }
{
    push(out, b"{\"not_held\":")?;
    push_state(out, p, state)?;
    push(out, b"}")?;
    Ok(())
}

#[tactic(auto, unfolding(json::specs::Print::escape_byte))]
fn push_unknown(out: &mut Vec<u8>, missing: Missing) -> Result<(), AllocError>
    ensures { OnOk result (out.new.items ≡ out.old.items ++ compact_text
        (single (codes "unknown") (missing_data missing))) }
{
    push(out, b"{\"unknown\":")?;
    push(out, missing_text(missing))?;
    push(out, b"}")
}

// What is written for what has no name.
#[tactic(auto, unfolding(json::specs::Print::escape_byte))]
fn missing_text(missing: Missing) -> &'static [u8]
    ensures { result.now ≡ compact_text (missing_data missing) }
{
    match missing {
        Missing::Flow => b"\"flow\"",
        Missing::Step => b"\"step\"",
        Missing::Relation => b"\"relation\"",
        Missing::User => b"\"user\"",
        Missing::Role => b"\"role\"",
    }
}

fn push_strands(
    out: &mut Vec<u8>,
    p: &Policy,
    case: CaseId,
    f: FlowId,
    tree: &Tree,
) -> Result<(), AllocError>
    ensures { OnOk result (out.new.items ≡ out.old.items ++ compact_text
        (single (codes "strands") (strands_data case (tree_data p.now f (shape_of tree.now))))) }
{
    push_case(out, b"{\"strands\":{\"case\":", case)?;
    push(out, b",\"tree\":")?;
    push_tree(out, p, f, tree)?;
    push(out, b"}}")?;
    Ok(())
}

#[tactic(auto, unfolding(json::specs::Print::escape_byte))]
fn push_state(out: &mut Vec<u8>, p: &Policy, state: StepState) -> Result<(), AllocError>
    ensures { OnOk result (out.new.items ≡ out.old.items ++ compact_text (state_data p.now state)) }
{
    let users = p.roster().users();
    match state {
        StepState::Free => push(out, b"\"free\""),
        StepState::Held(u) => push_name_in(out, b"{\"held\":", users, u.0, b"}"),
        StepState::Finished(u) => push_name_in(out, b"{\"finished\":", users, u.0, b"}"),
    }
}

// Adds the name of a step between bytes.
pub(crate) fn push_step_in(
    out: &mut Vec<u8>,
    before: &[u8],
    p: &Policy,
    f: FlowId,
    s: StepId,
    after: &[u8],
) -> Result<(), AllocError>
    ensures { OnOk result (out.new.items ≡ out.old.items ++
        (before.now ++ (compact_text (step_data p.now f s) ++ after.now))) }
{
    push(out, before)?;
    push_step(out, p, f, s)?;
    push(out, after)
}

/// Adds the name of a step of a workflow, as text; the empty text where there is none.
pub(crate) fn push_step(
    out: &mut Vec<u8>,
    p: &Policy,
    f: FlowId,
    s: StepId,
) -> Result<(), AllocError>
    ensures { OnOk result (out.new.items ≡ out.old.items ++ compact_text (step_data p.now f s)) }
{
    if (f.0 as u16) < p.flows().len() {
        push_name(out, p.flow(f).steps(), s.0 as u16)
    } else {
        push(out, b"\"\"")
    }
}

impl Item for RoleId {
    ghost item_data = { λ p role. named p.roster.roles role };

    fn push_item(&self, out: &mut Vec<u8>, p: &Policy) -> Result<(), AllocError> {
        push_name(out, p.roster().roles(), self.0 as u16)
    }
}

/// Adds bytes, a tree and a closing brace.
pub(crate) fn push_tree_in(
    out: &mut Vec<u8>,
    before: &[u8],
    p: &Policy,
    f: FlowId,
    tree: &Tree,
) -> Result<(), AllocError>
    ensures { OnOk result (out.new.items ≡ out.old.items ++
        (before.now ++ (compact_text (tree_data p.now f (shape_of tree.now)) ++ 125 ∷ []))) }
{
    push(out, before)?;
    push_tree(out, p, f, tree)?;
    push(out, b"}")
}
