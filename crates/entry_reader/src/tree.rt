//! The tree that a value is.
ghost use Rattle.std.specs.Prelude.{◌≡◌, ◌≢◌, IfOk, IsErrOf, Option, option_map};
ghost use Rattle.serde_json.specs.View.{view, items_view};
ghost use Rattle.refutation_tree.specs.Tree.{Shape, Kids};
ghost use Rattle.refutation_tree.specs.Laws.Views.{shape_of, branch_onto};
ghost use Rattle.wire_json.specs.Trees.{tree_data};
ghost use Rattle.entry_reader.specs.Fault.{not_text};
ghost use Rattle.entry_reader.specs.Laws.Within.{IsTree};
ghost use Rattle.entry_reader.specs.Reads.{Reads, ReadsOnto};
ghost use Rattle.entry_reader.specs.Values as read;

use crate::names::know_names;
use crate::parts::{only, pair_of, rule_of, step_of, user_of};
use crate::{NotText, TextFault};
use basics::Fault;
use policy_book::Policy;
use refutation_tree::{Branch, Branches, Kid, Tree};
use serde_json::Value;
use std::alloc::Global;
use wf_names::{FlowId, UserId};

/// The tree over users of the policy and steps of a workflow whose value this is.
#[tactic(auto, using(crate::proofs::LinesBack::tree_told, crate::proofs::LinesBack::no_tree))]
pub fn tree_of(alloc: Global, p: &Policy, f: FlowId, value: &Value) -> Result<Tree, TextFault>
    ensures tree { IfOk result (λ t. IsTree p.now f (shape_of t)
        × (tree_data p.now f (shape_of t) ≡ view value.now)) }
    ensures none { IsErrOf result not_text → (t : Shape) → IsTree p.now f t
        → tree_data p.now f t ≢ view value.now }
{
    know_names(p);
    read_tree(alloc, p, f, value)
}

/// What a value reads as: a leaf, or a node with its branches.
#[cycle(read_tree)]
#[tactic(auto, using(crate::proofs::Uses::trees))]
pub(crate) fn read_tree(
    alloc: Global,
    p: &Policy,
    f: FlowId,
    value: &Value,
) -> Result<Tree, TextFault>
    ensures { Reads shape_of result (read.tree_in p.now f (view value.now)) }
{
    match node_parts(value) {
        Some((step, users)) => read_node(alloc, p, f, step, users),
        None => read_leaf(p, f, value),
    }
}

#[cycle(read_tree)]
fn read_node(
    alloc: Global,
    p: &Policy,
    f: FlowId,
    step: &Value,
    users: &Value,
) -> Result<Tree, TextFault>
    ensures { Reads shape_of result (read.node_read p.now f (view step.now) (view users.now)) }
{
    let step = step_of(p, f, step).ok_or(Fault::Cause(NotText))?;
    let items = users.as_array().ok_or(Fault::Cause(NotText))?;
    Ok(Tree::Step(step, read_branches(alloc, p, f, items)?))
}

#[cycle(read_tree)]
fn read_branches(
    alloc: Global,
    p: &Policy,
    f: FlowId,
    items: &[Value],
) -> Result<Branches, TextFault>
    ensures { Reads (λ b. b) result (read.kids_in p.now f (items_view items.now)) }
{
    let mut branches = Branches::new(alloc);
    'items: for item in items {
        branches.push(read_branch(alloc, p, f, item)?)?;
    }
    Ok(branches)
}

// The user of a branch, and the twin that it names, or its tree.
#[cycle(read_tree)]
#[tactic(auto, using(crate::proofs::Uses::branches))]
fn read_branch(alloc: Global, p: &Policy, f: FlowId, value: &Value) -> Result<Branch, TextFault>
    ensures { (rest : Option Kids) → ReadsOnto result rest
        (read.kid_in p.now f (view value.now) rest) }
{
    let Some((user, kid)) = pair_of(value) else {
        return Err(Fault::Cause(NotText));
    };
    let Some(user) = user_of(p, user) else {
        return Err(Fault::Cause(NotText));
    };
    match twin_of(p, kid) {
        Some(twin) => Ok(Branch {
            user,
            kid: Kid::Twin(twin),
        }),
        None => {
            let tree = read_tree(alloc, p, f, kid)?;
            Ok(Branch {
                user,
                kid: Kid::Tree(tree),
            })
        }
    }
}

// The step and the users of a node.
fn node_parts(value: &Value) -> Option<(&Value, &Value)>
    ensures { option_map (λ n. (view n.0.now, view n.1.now)) result
        ≡ read.node_parts (view value.now) }
{
    let members = value.as_object()?;
    if members.len() != 2 {
        return None;
    }
    let (first, step) = members.first_key_value()?;
    let (second, users) = members.last_key_value()?;
    if are_node_keys(first.as_str(), second.as_str()) {
        Some((step, users))
    } else {
        None
    }
}

// Whether these are the keys of a node.
fn are_node_keys(first: &str, second: &str) -> bool
    ensures { result ≡ read.are_node_keys first.now second.now }
{
    first == "step" && second == "users"
}

// A leaf.
fn read_leaf(p: &Policy, f: FlowId, value: &Value) -> Result<Tree, TextFault>
    ensures { Reads shape_of result (read.lone_leaf p.now f (view value.now)) }
{
    leaf_of(p, f, value).ok_or(Fault::Cause(NotText))
}

fn leaf_of(p: &Policy, f: FlowId, value: &Value) -> Option<Tree>
    ensures { option_map shape_of result ≡ read.lone_leaf p.now f (view value.now) }
{
    let (key, value) = only(value)?;
    match key {
        "holder" => Some(Tree::Holder(step_of(p, f, value)?)),
        "rule" => Some(Tree::Rule(rule_of(value)?)),
        _ => None,
    }
}

// The user of a leaf that names a twin.
fn twin_of(p: &Policy, value: &Value) -> Option<UserId>
    ensures { result ≡ read.twin_read p.now (view value.now) }
{
    let (key, user) = only(value)?;
    if key == "twin" {
        user_of(p, user)
    } else {
        None
    }
}
