//! The rules at the leaves of a tree.
ghost use Rattle.std.specs.Prelude.{◌≡◌, ◌==◌};
ghost use Rattle.refutation_tree.specs.Tree.{no_kids};
ghost use Rattle.refutation_tree.specs.Laws.Views.{branch_onto, kids_of_items, shape_of};
ghost use Rattle.rule_core.specs.Leaves.{any_uses, uses_rule};

use refutation_tree::{Branch, Kid, Tree};

/// Whether some leaf of a tree is the rule with a number.
#[cycle(leaves)]
pub(crate) fn uses_rule(tree: &Tree, k: usize) -> bool
    ensures { result ≡ uses_rule k (shape_of tree.now) }
{
    match tree {
        Tree::Holder(_) => false,
        Tree::Rule(j) => k == *j as usize,
        Tree::Step(_, branches) => {
            let branches = branches.as_slice();
            any_uses(branches, k)
        }
    }
}

#[cycle(leaves)]
fn any_uses(branches: &[Branch], k: usize) -> bool
    ensures { result ≡ any_uses k (kids_of_items branches.now) }
{
    'branches: for branch in branches {
        if branch_uses(branch, k) {
            return true;
        }
    }
    false
}

#[cycle(leaves)]
fn branch_uses(branch: &Branch, k: usize) -> bool
    ensures { result ≡ any_uses k (branch_onto branch.now no_kids) }
{
    match &branch.kid {
        Kid::Tree(tree) => uses_rule(tree, k),
        Kid::Twin(_) => false,
    }
}
