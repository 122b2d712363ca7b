//! Trees as they are written: each is guessed in one pass over its text, without a value of it.
ghost use Rattle.std.specs.Prelude.{◌<◌, IfOk};
ghost use Rattle.refutation_tree.specs.Tree.{no_kids};
ghost use Rattle.refutation_tree.specs.Laws.Views.{branch_onto, shape_of};
ghost use Rattle.entry_reader.specs.Laws.Within.{IsUser, IsStepOf, IsRule};
ghost use Rattle.entry_reader.specs.Plain.{IsLow, AreLow, IsLowKid};

use crate::rest::Rest;
use crate::{NotText, TextFault};
use basics::Fault;
use policy_book::{Course, Policy};
use refutation_tree::{Branch, Branches, Kid, Tree};
use wf_names::{StepId, UserId};

/// The tree over a workflow that comes next, with at most `height` nodes one below the other.
#[cycle(guess_tree)]
#[tactic(auto, using(crate::proofs::LowTrees::low_node))]
pub(crate) fn guess_tree(
    course: &Course<'_>,
    height: usize,
    rest: &mut Rest<'_>,
) -> Result<Tree, TextFault>
    ensures { IfOk result (λ t. IsLow course.now.policy.now course.now.number height (shape_of t)) }
{
    if !rest.has(b"{\"step\":") {
        return guess_leaf(course, height, rest);
    }
    if height == 0 {
        return Err(Fault::Cause(NotText));
    }
    let step = take_step(course, rest)?;
    let branches = guess_branches(course, height - 1, rest)?;
    Ok(Tree::Step(step, branches))
}

// The branches of a node, up to its end. There are not more of them than users.
#[cycle(guess_tree)]
#[tactic(auto, using(crate::proofs::LowTrees::low_none))]
fn guess_branches(
    course: &Course<'_>,
    height: usize,
    rest: &mut Rest<'_>,
) -> Result<Branches, TextFault>
    ensures { IfOk result (AreLow course.now.policy.now course.now.number height) }
{
    let mut branches = Branches::new(rest.alloc);
    rest.skip(b",\"users\":[");
    'branches: for _ in 0..course.policy.roster().users().len() {
        if !rest.has(b"[") {
            break;
        }
        branches.push(guess_branch(course, height, rest)?)?;
        rest.has(b",");
    }
    rest.skip(b"]}");
    Ok(branches)
}

// The branch that comes next, behind its bracket.
#[cycle(guess_tree)]
fn guess_branch(
    course: &Course<'_>,
    height: usize,
    rest: &mut Rest<'_>,
) -> Result<Branch, TextFault>
    ensures { IfOk result (λ b. AreLow course.now.policy.now course.now.number height
        (branch_onto b no_kids)) }
{
    let user = take_user(course.policy, rest)?;
    rest.skip(b",");
    let kid = guess_kid(course, height, rest)?;
    rest.skip(b"]");
    Ok(Branch { user, kid })
}

// The twin that comes next, or the tree.
#[cycle(guess_tree)]
#[tactic(auto, using(crate::proofs::LowTrees::low_tree, crate::proofs::LowTrees::low_twin))]
fn guess_kid(course: &Course<'_>, height: usize, rest: &mut Rest<'_>) -> Result<Kid, TextFault>
    ensures { IfOk result (IsLowKid course.now.policy.now course.now.number height) }
{
    if rest.has(b"{\"twin\":") {
        let twin = take_user(course.policy, rest)?;
        rest.skip(b"}");
        return Ok(Kid::Twin(twin));
    }
    Ok(Kid::Tree(guess_tree(course, height, rest)?))
}

// The leaf that comes next.
fn guess_leaf(course: &Course<'_>, height: usize, rest: &mut Rest<'_>) -> Result<Tree, TextFault>
    ensures { IfOk result (λ t. IsLow course.now.policy.now course.now.number height (shape_of t)) }
{
    if rest.has(b"{\"rule\":") {
        let k = take_rule(rest)?;
        rest.skip(b"}");
        return Ok(Tree::Rule(k));
    }
    rest.skip(b"{\"holder\":");
    let step = take_step(course, rest)?;
    rest.skip(b"}");
    Ok(Tree::Holder(step))
}

/// Takes the number of a rule.
pub(crate) fn take_rule(rest: &mut Rest<'_>) -> Result<u8, TextFault>
    ensures { IfOk result IsRule }
{
    match rest.take_number() {
        Some(n) if n < 256 => Ok(n as u8),
        _ => Err(Fault::Cause(NotText)),
    }
}

/// Takes the name of a user.
pub(crate) fn take_user(p: &Policy, rest: &mut Rest<'_>) -> Result<UserId, TextFault>
    ensures { IfOk result (IsUser p.now) }
{
    let name = rest.take_name().ok_or(Fault::Cause(NotText))?;
    match p.roster().users().find(&name) {
        Some(u) => Ok(UserId(u)),
        None => Err(Fault::Cause(NotText)),
    }
}

/// Takes the name of a step of a workflow.
pub(crate) fn take_step(course: &Course<'_>, rest: &mut Rest<'_>) -> Result<StepId, TextFault>
    ensures { IfOk result (IsStepOf course.now.policy.now course.now.number) }
{
    let name = rest.take_name().ok_or(Fault::Cause(NotText))?;
    match course.flow().steps().find(&name) {
        Some(s) => Ok(StepId(s as u8)),
        None => Err(Fault::Cause(NotText)),
    }
}
