//! Writing trees that refute, without making a value of them.
ghost use Rattle.std.specs.Prelude.{◌≡◌, ◌≤◌, ◌+◌, ◌++◌, ◌∷◌, [], codes, decimal, drop, length};
ghost use Rattle.std.specs.Prelude.{OnOk};
ghost use Rattle.wf_names.specs.declared.limits.TheConstants.{NAME_LIMIT};
ghost use Rattle.serde_json.specs.Data.{array};
ghost use Rattle.serde_json.specs.View.{items_of};
ghost use Rattle.serde_json.specs.Written.{comma_if, compact_text};
ghost use Rattle.refutation_tree.specs.Laws.Views.{kids_of_items, shape_of};
ghost use Rattle.wire_json.specs.Entries.{named, user_data};
ghost use Rattle.wire_json.specs.Pieces.{pair_text};
ghost use Rattle.wire_json.specs.Trees.{branch_data, branches_data, node_data, tree_data};

use crate::denial::{push_rule, push_step_in};
use crate::fill::{put_byte, put_bytes, put_comma, put_number, put_quoted};
use crate::text::push;
use policy_book::Policy;
use refutation_tree::{Branch, Kid, Tree};
use std::alloc::AllocError;
use wf_names::{FlowId, NAME_LIMIT, NameTable, StepId, UserId};

// The room that a branch needs whose tree is a leaf.
const LEAF_ROOM: usize = 2 * NAME_LIMIT + 32;

/// Adds a tree over a workflow's steps. A number that names no user or step of the policy is
/// written as an empty text.
#[tactic(auto, unfolding(json::specs::Print::escape_byte))]
#[cycle(push_tree)]
pub(crate) fn push_tree(
    out: &mut Vec<u8>,
    p: &Policy,
    f: FlowId,
    t: &Tree,
) -> Result<(), AllocError>
    ensures { OnOk result (out.new.items ≡ out.old.items ++ compact_text
        (tree_data p.now f (shape_of t.now))) }
{
    match t {
        Tree::Holder(s) => push_step_in(out, b"{\"holder\":", p, f, *s, b"}"),
        Tree::Rule(k) => push_rule(out, *k),
        Tree::Step(s, branches) => push_node(out, p, f, *s, branches.as_slice()),
    }
}

// What a branch begins with: a comma where another stands before it, and the name of its user.
#[derive(Clone, Copy)]
struct Front<'a> {
    later: bool,
    users: &'a NameTable,
    user: UserId,
}

// Adds a node.
#[tactic(auto, unfolding(json::specs::Print::escape_byte))]
#[cycle(push_tree)]
fn push_node(
    out: &mut Vec<u8>,
    p: &Policy,
    f: FlowId,
    s: StepId,
    branches: &[Branch],
) -> Result<(), AllocError>
    ensures { OnOk result (out.new.items ≡ out.old.items ++ compact_text
        (node_data p.now f s (array (items_of
        (branches_data p.now f (kids_of_items branches.now)))))) }
{
    push_step_in(out, b"{\"step\":", p, f, s, b",\"users\":")?;
    push_branches(out, p, f, branches)?;
    push(out, b"}")
}

// Adds the users and trees of branches, in order.
#[cycle(push_tree)]
fn push_branches(
    out: &mut Vec<u8>,
    p: &Policy,
    f: FlowId,
    branches: &[Branch],
) -> Result<(), AllocError>
    ensures { OnOk result (out.new.items ≡ out.old.items ++ compact_text
        (array (items_of (branches_data p.now f (kids_of_items branches.now))))) }
{
    let mut later = false;
    push(out, b"[")?;
    'branches: for branch in branches {
        push_branch(out, later, p, f, branch)?;
        later = true;
    }
    push(out, b"]")?;
    Ok(())
}

// Adds one more branch: the user, and the tree or the leaf that names a twin.
#[tactic(auto, unfolding(json::specs::Print::escape_byte))]
#[cycle(push_tree)]
fn push_branch(
    out: &mut Vec<u8>,
    later: bool,
    p: &Policy,
    f: FlowId,
    branch: &Branch,
) -> Result<(), AllocError>
    ensures { OnOk result (out.new.items ≡ out.old.items ++
        (comma_if later ++ compact_text (branch_data p.now f branch.now))) }
{
    let front = Front {
        later,
        users: p.roster().users(),
        user: branch.user,
    };
    match &branch.kid {
        Kid::Tree(Tree::Rule(k)) => push_ruled(out, &front, *k),
        Kid::Tree(tree) => push_subtree(out, later, p, f, branch.user, tree),
        Kid::Twin(twin) => push_twin(out, &front, *twin),
    }
}

// Adds one more branch, with a tree.
#[cycle(push_tree)]
fn push_subtree(
    out: &mut Vec<u8>,
    later: bool,
    p: &Policy,
    f: FlowId,
    u: UserId,
    tree: &Tree,
) -> Result<(), AllocError>
    ensures { OnOk result (out.new.items ≡ out.old.items ++ (comma_if later ++ pair_text
        (user_data p.now u) (compact_text (tree_data p.now f (shape_of tree.now))))) }
{
    let front = Front {
        later,
        users: p.roster().users(),
        user: u,
    };
    push_front(out, &front)?;
    push_tree(out, p, f, tree)?;
    push(out, b"]")
}

// Adds what stands before the tree of one more branch.
fn push_front(out: &mut Vec<u8>, front: &Front<'_>) -> Result<(), AllocError>
    ensures { OnOk result (out.new.items ≡ out.old.items ++ (comma_if front.now.later
        ++ 91 ∷ (compact_text (named front.now.users.now.names front.now.user) ++ 44 ∷ []))) }
{
    let mut cells = [0; LEAF_ROOM];
    let comma = put_byte(&mut cells, LEAF_ROOM, b',');
    let start = put_front(&mut cells, comma, front);
    push(out, &cells[start..])?;
    Ok(())
}

// Adds one more branch, whose tree is a falsified rule.
fn push_ruled(out: &mut Vec<u8>, front: &Front<'_>, k: u8) -> Result<(), AllocError>
    ensures { OnOk result (out.new.items ≡ out.old.items ++ (comma_if front.now.later ++ pair_text
        (named front.now.users.now.names front.now.user)
        (codes "{\"rule\":" ++ (decimal k ++ 125 ∷ [])))) }
{
    let mut cells = [0; LEAF_ROOM];
    let end = put_bytes(&mut cells, LEAF_ROOM, b"}]");
    let rule = put_number(&mut cells, end, b",{\"rule\":", k as u32);
    let start = put_front(&mut cells, rule, front);
    push(out, &cells[start..])?;
    Ok(())
}

// Adds one more branch, with the leaf that names a twin.
fn push_twin(out: &mut Vec<u8>, front: &Front<'_>, twin: UserId) -> Result<(), AllocError>
    ensures { OnOk result (out.new.items ≡ out.old.items ++ (comma_if front.now.later ++ pair_text
        (named front.now.users.now.names front.now.user) (codes "{\"twin\":"
        ++ (compact_text (named front.now.users.now.names twin) ++ 125 ∷ [])))) }
{
    let mut cells = [0; LEAF_ROOM];
    let end = put_bytes(&mut cells, LEAF_ROOM, b"}]");
    let name = put_quoted(&mut cells, end, front.users, twin.0);
    let leaf = put_bytes(&mut cells, name, b",{\"twin\":");
    let start = put_front(&mut cells, leaf, front);
    push(out, &cells[start..])?;
    Ok(())
}

// Puts what a branch begins with before the bytes from `end` on, and a comma before it where
// another stands there; where they start.
#[inline(always)]
fn put_front(cells: &mut [u8], end: usize, front: &Front<'_>) -> usize
    requires room { NAME_LIMIT + 4 ≤ end }
    requires within { end ≤ length cells.old }
    ensures start { result ≤ end }
    ensures written { drop result cells.new ≡ comma_if front.now.later ++ 91 ∷
        (compact_text (named front.now.users.now.names front.now.user) ++ drop end cells.old) }
{
    let name = put_quoted(cells, end, front.users, front.user.0);
    let bracket = put_byte(cells, name, b'[');
    put_comma(cells, bracket, front.later)
}
