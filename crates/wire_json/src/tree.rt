//! Trees that refute, as JSON.
ghost use Rattle.std.specs.Prelude.{◌≡◌, ◌∷◌, [], IfOk, codes};
ghost use Rattle.serde_json.specs.Data.{array};
ghost use Rattle.serde_json.specs.View.{view, items_of};
ghost use Rattle.refutation_tree.specs.Tree.{Kids, holder};
ghost use Rattle.refutation_tree.specs.Laws.Views.{branch_onto, kids_of_items, shape_of};
ghost use Rattle.wire_json.specs.Entries.{single, user_data};
ghost use Rattle.wire_json.specs.Trees.{branches_data, kid_data, node_data, tree_data};

use crate::entry::{step_value, user_value};
use policy_book::Policy;
use refutation_tree::{Branch, Kid, Tree};
use serde_json::{Value, json};
use std::alloc::{AllocError, Global};
use wf_names::{FlowId, StepId, UserId};

/// The value that is written for a tree over a workflow's steps. A number that names no user or
/// step of the policy is written as an empty text.
#[cycle(tree_value)]
pub fn tree_value(alloc: Global, p: &Policy, f: FlowId, t: &Tree) -> Result<Value, AllocError>
    ensures { IfOk result (λ v. view v ≡ tree_data p.now f (shape_of t.now)) }
{
    match t {
        Tree::Holder(s) => holder_value(alloc, p, f, *s),
        Tree::Rule(k) => json!(in alloc; {"rule": (*k)}),
        Tree::Step(s, branches) => {
            let branches = branches.as_slice();
            let users = branches_value(alloc, p, f, branches)?;
            node_value(alloc, p, f, *s, users)
        }
    }
}

fn holder_value(alloc: Global, p: &Policy, f: FlowId, s: StepId) -> Result<Value, AllocError>
    ensures { IfOk result (λ v. view v ≡ tree_data p.now f (holder s)) }
{
    let step = step_value(alloc, p, f, s)?;
    json!(in alloc; {"holder": (step)})
}

// The value of a node whose branches have theirs.
fn node_value(
    alloc: Global,
    p: &Policy,
    f: FlowId,
    s: StepId,
    users: Value,
) -> Result<Value, AllocError>
    ensures { IfOk result (λ v. view v ≡ node_data p.now f s (view users)) }
{
    let step = step_value(alloc, p, f, s)?;
    json!(in alloc; {"step": (step), "users": (users)})
}

// The users and trees of branches, in order.
#[cycle(tree_value)]
fn branches_value(
    alloc: Global,
    p: &Policy,
    f: FlowId,
    branches: &[Branch],
) -> Result<Value, AllocError>
    ensures { IfOk result (λ v. view v ≡ array
        (items_of (branches_data p.now f (kids_of_items branches.now)))) }
{
    let mut values = Vec::new(alloc);
    'branches: for branch in branches {
        values.push(branch_value(alloc, p, f, branch)?)?;
    }
    Ok(Value::Array(values))
}

// The leaf that names a twin.
fn twin_value(alloc: Global, p: &Policy, twin: UserId) -> Result<Value, AllocError>
    ensures { IfOk result (λ v. view v ≡ single (codes "twin") (user_data p.now twin)) }
{
    let user = user_value(alloc, p, twin)?;
    json!(in alloc; {"twin": (user)})
}

// The user and the tree of a branch, or the leaf that names a twin.
#[cycle(tree_value)]
fn branch_value(alloc: Global, p: &Policy, f: FlowId, branch: &Branch) -> Result<Value, AllocError>
    ensures { IfOk result (λ v. (rest : Kids)
        → branches_data p.now f (branch_onto branch.now rest)
        ≡ view v ∷ branches_data p.now f rest) }
{
    let kid = kid_value(alloc, p, f, &branch.kid)?;
    pair_value(alloc, p, branch.user, kid)
}

// A tree, or the leaf that names a twin.
#[cycle(tree_value)]
fn kid_value(alloc: Global, p: &Policy, f: FlowId, kid: &Kid) -> Result<Value, AllocError>
    ensures { IfOk result (λ v. view v ≡ kid_data p.now f kid.now) }
{
    match kid {
        Kid::Tree(tree) => tree_value(alloc, p, f, tree),
        Kid::Twin(twin) => twin_value(alloc, p, *twin),
    }
}

// A user, and the value that stands behind the user.
fn pair_value(alloc: Global, p: &Policy, u: UserId, kid: Value) -> Result<Value, AllocError>
    ensures { IfOk result (λ v. view v
        ≡ array (items_of (user_data p.now u ∷ view kid ∷ []))) }
{
    let user = user_value(alloc, p, u)?;
    json!(in alloc; [(user), (kid)])
}
