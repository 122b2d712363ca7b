//! Why nobody can finish a case, as a tree tells it.

use crate::facts::{Breach, push_broken};
use crate::held::{Held, given};
use crate::names::{push_name, push_user, push_users};
use plain_words::{name_of, say, text_of};
use policy_book::Policy;
use refutation_tree::{Branch, Kid, Tree};
use std::alloc::AllocError;
use wf_names::{RULE_LIMIT, StepId, USER_LIMIT, UserId, UserSet};

/// Adds the lines of a tree that shows why nobody can finish a case in which steps are held so,
/// each behind the indent.
pub(crate) fn push_tree(
    out: &mut String,
    indent: &str,
    held: &Held<'_>,
    tree: &Tree,
) -> Result<(), AllocError> {
    out.push_str(indent)?;
    push_node(out, indent, held, tree)
}

// Adds what a tree says behind what stands in the line, and the lines below it.
#[cycle(push_node)]
fn push_node(
    out: &mut String,
    indent: &str,
    held: &Held<'_>,
    tree: &Tree,
) -> Result<(), AllocError> {
    push_root(out, held, tree)?;
    out.push_str(".\n")?;
    match tree {
        Tree::Step(s, branches) => {
            let branches = branches.as_slice();
            push_leaves(out, held, *s, branches, indent)?;
            push_branches(out, indent, held, *s, branches)
        }
        _ => Ok(()),
    }
}

// Adds what the root of a tree says.
fn push_root(out: &mut String, held: &Held<'_>, tree: &Tree) -> Result<(), AllocError> {
    match tree {
        Tree::Holder(s) => push_holder(out, held, *s),
        Tree::Rule(k) => push_broken(out, held, *k, Breach::Is),
        Tree::Step(s, branches) => push_choice(out, held, *s, branches.as_slice()),
    }
}

// Adds the branches that go on, or are told by another one.
#[cycle(push_node)]
fn push_branches(
    out: &mut String,
    indent: &str,
    held: &Held<'_>,
    s: StepId,
    branches: &[Branch],
) -> Result<(), AllocError> {
    'branches: for branch in branches {
        push_branch(out, indent, held, s, branch)?;
    }
    Ok(())
}

#[cycle(push_node)]
fn push_branch(
    out: &mut String,
    indent: &str,
    held: &Held<'_>,
    s: StepId,
    branch: &Branch,
) -> Result<(), AllocError> {
    match &branch.kid {
        Kid::Tree(Tree::Rule(_)) => Ok(()),
        Kid::Tree(tree) => {
            push_if(out, indent, held.course.policy, branch.user)?;
            let next = given(held, s, branch.user);
            let deeper = format!(in *out.allocator(); "{indent}  ")?;
            push_node(out, deeper.as_str(), &next, tree)
        }
        Kid::Twin(twin) => push_twin(out, indent, held.course.policy, branch.user, *twin),
    }
}

// Adds the front of the line of a branch that goes on.
fn push_if(out: &mut String, indent: &str, p: &Policy, u: UserId) -> Result<(), AllocError> {
    let user = name_of(p.roster().users(), u.0);
    say(out, &[indent, "- If ", text_of(&user), " does it, "])
}

fn push_twin(
    out: &mut String,
    indent: &str,
    p: &Policy,
    u: UserId,
    twin: UserId,
) -> Result<(), AllocError> {
    let users = p.roster().users();
    let (user, other) = (name_of(users, u.0), name_of(users, twin.0));
    let (user, other) = (text_of(&user), text_of(&other));
    let (before, behind) = (": as for ", ", who can be exchanged with ");
    say(
        out,
        &[indent, "- ", user, before, other, behind, user, " here.\n"],
    )
}

// Adds a line for each rule that some branches break at once.
fn push_leaves(
    out: &mut String,
    held: &Held<'_>,
    s: StepId,
    branches: &[Branch],
    indent: &str,
) -> Result<(), AllocError> {
    for k in 0..RULE_LIMIT {
        let users = users_of(branches, Some(k as u8));
        if users.count() > 0 {
            say(out, &[indent, "- "])?;
            push_leaf(out, held, s, k as u8, &users)?;
            out.push_str(".\n")?;
        }
    }
    Ok(())
}

// Adds that each of the users breaks a rule at once, and how the first does.
fn push_leaf(
    out: &mut String,
    held: &Held<'_>,
    s: StepId,
    k: u8,
    users: &UserSet,
) -> Result<(), AllocError> {
    out.push_str("If ")?;
    push_users(out, held.course.policy, users, "or")?;
    out.push_str(" does it, ")?;
    match users.next(0) {
        Some(u) => {
            let next = given(held, s, u);
            push_broken(out, &next, k, Breach::Is)
        }
        None => Ok(()),
    }
}

// The users of the branches: of all, or of those that break `rule` at once.
fn users_of(branches: &[Branch], rule: Option<u8>) -> UserSet {
    let mut users = UserSet::empty();
    for branch in branches {
        let is_one = match (rule, &branch.kid) {
            (Some(k), Kid::Tree(Tree::Rule(j))) => *j == k,
            (Some(_), _) => false,
            (None, _) => true,
        };
        if is_one && branch.user.0 < USER_LIMIT {
            users.insert(branch.user);
        }
    }
    users
}

// Adds who alone can do a step.
fn push_choice(
    out: &mut String,
    held: &Held<'_>,
    s: StepId,
    branches: &[Branch],
) -> Result<(), AllocError> {
    push_name(out, held.steps(), s.0 as u16)?;
    out.push_str(" can be done by ")?;
    let users = users_of(branches, None);
    if users.count() == 0 {
        return out.push_str("nobody");
    }
    push_users(out, held.course.policy, &users, "and")?;
    out.push_str(" alone")
}

/// Adds that who has a step may no longer do it.
pub(crate) fn push_holder(out: &mut String, held: &Held<'_>, s: StepId) -> Result<(), AllocError> {
    if let Some(u) = held.users.at(s) {
        push_user(out, held.course.policy, u)?;
    }
    out.push_str(" holds ")?;
    push_name(out, held.steps(), s.0 as u16)?;
    out.push_str(" and is no longer allowed to do it")
}

/// Adds what a tree says in one line, where one line is enough for it: behind a full stop.
pub(crate) fn push_short(out: &mut String, held: &Held<'_>, tree: &Tree) -> Result<(), AllocError> {
    match tree {
        Tree::Step(s, branches) => push_short_node(out, held, *s, branches.as_slice()),
        _ => {
            out.push_str(". ")?;
            push_root(out, held, tree)
        }
    }
}

// The same of a step with its branches, where all of them break one rule at once.
fn push_short_node(
    out: &mut String,
    held: &Held<'_>,
    s: StepId,
    branches: &[Branch],
) -> Result<(), AllocError> {
    match branches {
        [] => {
            out.push_str(". ")?;
            push_choice(out, held, s, branches)
        }
        [
            Branch {
                kid: Kid::Tree(Tree::Rule(k)),
                ..
            },
            ..
        ] => {
            let users = users_of(branches, Some(*k));
            if users.count() as usize != branches.len() {
                return Ok(());
            }
            out.push_str(". ")?;
            push_choice(out, held, s, branches)?;
            out.push_str(". ")?;
            push_leaf(out, held, s, *k, &users)
        }
        _ => Ok(()),
    }
}
