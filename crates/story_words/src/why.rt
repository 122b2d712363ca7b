//! Why nobody can finish a case, in lines: a tree, or what is shorter.

use crate::crowds::push_crowd;
use crate::held::{Held, fits};
use crate::names::push_rules;
use crate::trees::{push_holder, push_tree};
use plain_words::push_rule_lines;
use refutation_tree::Tree;
use rule_core::{Progress, Why, why_of};
use std::alloc::AllocError;
use wf_names::{STEP_LIMIT, StepId};

/// A tree with more leaves and nodes is not told.
const MOST_NODES: u64 = 40;

/// Adds why nobody can finish a case: that some steps want more different users than there are for
/// them, where that is found; else the tree, and which rules cannot be met together.
pub(crate) fn push_why(out: &mut String, held: &Held<'_>, tree: &Tree) -> Result<(), AllocError> {
    if !fits(held) {
        return push_small(out, held, tree);
    }
    let case = Progress {
        course: &held.course,
        users: &held.users,
        done: &held.done,
    };
    match why_of(*out.allocator(), &case)? {
        Why::Crowd(steps) => push_crowd(out, held, steps.as_slice()),
        Why::Clash(rules) => push_clash(out, held, tree, rules.as_slice()),
        Why::Plan(_) => push_small(out, held, tree),
    }
}

// Adds a tree that is small.
fn push_small(out: &mut String, held: &Held<'_>, tree: &Tree) -> Result<(), AllocError> {
    if tree.nodes() > MOST_NODES {
        return Ok(());
    }
    push_tree(out, "  ", held, tree)
}

// Adds a small tree, or else the words of the rules; and that they cannot be met together.
fn push_clash(
    out: &mut String,
    held: &Held<'_>,
    tree: &Tree,
    rules: &[u8],
) -> Result<(), AllocError> {
    if rules.is_empty() {
        return push_blameless(out, held);
    }
    if tree.nodes() > MOST_NODES {
        push_rule_lines(out, &held.course, rules)?;
    } else {
        push_tree(out, "  ", held, tree)?;
    }
    push_rules(out, "Rule", rules)?;
    out.push_str(match rules.len() {
        1 => " cannot be met then. ",
        2 => " cannot both be met then. ",
        _ => " cannot all be met then. ",
    })
}

// Adds that no rule is to blame, and who has lost a step.
fn push_blameless(out: &mut String, held: &Held<'_>) -> Result<(), AllocError> {
    out.push_str("  No rule is to blame: ")?;
    for s in 0..STEP_LIMIT {
        let step = StepId(s as u8);
        if let (false, Some(u)) = (held.done.has(step), held.users.at(step)) {
            if !held.course.authorised_users(step).has(u) {
                push_holder(out, held, step)?;
                return out.push_str(".\n");
            }
        }
    }
    out.push_str("a step can be done by nobody.\n")
}
