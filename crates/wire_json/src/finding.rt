//! Writing what a search found for a workflow.
ghost use Rattle.std.specs.Prelude.{◌≡◌, ◌++◌, ◌∷◌, [], OnOk};
ghost use Rattle.serde_json.specs.Written.{compact_text};
ghost use Rattle.refutation_tree.specs.Laws.Views.{shape_of};
ghost use Rattle.wire_json.specs.Findings.{plan_found, plan_line, tree_found, tree_line};

use crate::denial::push_tree_in;
use crate::reply::{push_flow, push_users};
use crate::text::push;
use policy_book::{Plan, Policy};
use refutation_tree::Tree;
use std::alloc::AllocError;
use wf_names::FlowId;

/// Adds the line that is written for a plan of a workflow, with its line end.
#[tactic(auto, unfolding(crate::specs::Findings::plan_line))]
pub fn push_plan_line(
    out: &mut Vec<u8>,
    p: &Policy,
    f: FlowId,
    plan: &Plan,
) -> Result<(), AllocError>
    ensures { OnOk result (out.new.items ≡ out.old.items ++ plan_line p.now f plan.now) }
{
    push_plan_found(out, p, f, plan)?;
    push(out, b"\n")?;
    Ok(())
}

/// Adds the line that is written for a tree over a workflow's steps, with its line end.
#[tactic(auto, unfolding(crate::specs::Findings::tree_line))]
pub fn push_tree_line(
    out: &mut Vec<u8>,
    p: &Policy,
    f: FlowId,
    tree: &Tree,
) -> Result<(), AllocError>
    ensures { OnOk result (out.new.items ≡ out.old.items ++ tree_line p.now f (shape_of tree.now)) }
{
    push_tree_found(out, p, f, tree)?;
    push(out, b"\n")?;
    Ok(())
}

// Adds a workflow's name, and a plan for it.
fn push_plan_found(out: &mut Vec<u8>, p: &Policy, f: FlowId, plan: &Plan) -> Result<(), AllocError>
    ensures { OnOk result (out.new.items ≡ out.old.items ++ compact_text
        (plan_found p.now f plan.now)) }
{
    push(out, b"{\"flow\":")?;
    push_flow(out, p, f)?;
    push(out, b",\"plan\":")?;
    push_users(out, p, plan)?;
    push(out, b"}")?;
    Ok(())
}

// Adds a workflow's name, and a tree over its steps.
fn push_tree_found(out: &mut Vec<u8>, p: &Policy, f: FlowId, tree: &Tree) -> Result<(), AllocError>
    ensures { OnOk result (out.new.items ≡ out.old.items ++ compact_text
        (tree_found p.now f (shape_of tree.now))) }
{
    push(out, b"{\"flow\":")?;
    push_flow(out, p, f)?;
    push_tree_in(out, b",\"tree\":", p, f, tree)?;
    Ok(())
}
