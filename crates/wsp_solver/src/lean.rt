//! Trees without the branches that are not needed.
ghost use Rattle.std.specs.Prelude.{◌≡◌, ◌<◌, ◌≤◌, [], length, IfOk, IsTrue};
ghost use Rattle.wf_names.specs.declared.limits.TheConstants.{STEP_LIMIT};
ghost use Rattle.refutation_tree.specs.Tree.{node};
ghost use Rattle.refutation_tree.specs.Laws.Views.{kids_of_items, shape_of};
ghost use Rattle.policy_book.specs.Laws.Plans.{IsWithin};
ghost use Rattle.policy_book.specs.Policies.{problem_of};
ghost use Rattle.policy_book.specs.Laws.Refuting.{all_refute, authorised_users, have_users};
ghost use Rattle.policy_book.specs.Laws.Refuting.{is_unassigned, refutes};
ghost use Rattle.wsp_solver.specs.Crews.{IsCrewOf};
ghost use Rattle.wsp_solver.specs.Task.{asked};
ghost use Rattle.wsp_solver.specs.Lean.{IsTrimmed, IsTrimming};

use crate::crew::{Crew, know_class};
use crate::leaf::{Refutation, held_wrongly, leaf_of_rule};
use crate::steps::{joined, step_count};
use crate::task::Task;
use crate::twin::twin_among;
use plan_finder::Finder;
use policy_book::{Assign, Course, Policy, StepSet};
use refutation_tree::{Branch, Branches, Kid, Tree};
use std::alloc::{AllocError, Global};
use wf_names::{FlowId, STEP_LIMIT, StepId, UserId};

/// A lean tree made of one that refutes: it has leaves for twins of earlier users, and no node
/// whose step its branches do not mention. Where memory is wanted, the tree that was handed in is
/// lost.
pub fn trim(
    alloc: Global,
    p: &Policy,
    f: FlowId,
    a: &Assign,
    done: &StepSet,
    tree: Tree,
) -> Result<Tree, AllocError>
    requires flow { f < length p.now.flows }
    requires within { IsWithin (problem_of p.now f) a.now }
    requires refutes { IsTrue (refutes (problem_of p.now f) a.now done.now (shape_of tree)) }
    ensures { IfOk result (IsTrimmed (problem_of p.now f) a.now done.now (shape_of tree)) }
{
    let course = Course {
        policy: p,
        number: f,
    };
    let task = Task {
        alloc,
        course: &course,
        done,
        bounded: false,
    };
    let mut finder = Finder::new(alloc, p, f, u32::MAX)?;
    let mut crew = Crew::new(alloc, &course)?;
    'users: for u in 0..p.roster().users().len() {
        know_class(&course, &mut crew, &mut finder, UserId(u));
    }
    Ok(trim_tree(&task, a, &crew, &mut finder, &tree)?.tree)
}

/// A lean tree made of one that refutes, with the steps that it mentions.
#[cycle(trim)]
pub(crate) fn trim_tree(
    task: &Task,
    a: &Assign,
    crew: &Crew,
    finder: &mut Finder,
    tree: &Tree,
) -> Result<Refutation, AllocError>
    requires within { IsWithin (asked task.now) a.now }
    requires crew { IsCrewOf (asked task.now) crew.now }
    requires refutes { IsTrue (refutes (asked task.now) a.now task.now.done.now
        (shape_of tree.now)) }
    ensures { IfOk result
        (IsTrimming (asked task.now) a.now task.now.done.now (shape_of tree.now)) }
{
    prove!(step_count(task.course) <= STEP_LIMIT);
    match tree {
        Tree::Holder(s) => Ok(held_wrongly(*s)),
        Tree::Rule(k) => Ok(leaf_of_rule(task.course, crew, *k)),
        Tree::Step(s, branches) => {
            let branches = branches.as_slice();
            trim_node(task, a, crew, finder, *s, branches)
        }
    }
}

// Each branch becomes the leaf of a twin where it can, and else its tree is trimmed. A trimmed tree
// that does not mention the step takes the node's place, and is trimmed again: without the step
// given more users may be twins.
#[cycle(trim)]
fn trim_node(
    task: &Task,
    a: &Assign,
    crew: &Crew,
    finder: &mut Finder,
    s: StepId,
    branches: &[Branch],
) -> Result<Refutation, AllocError>
    requires within { IsWithin (asked task.now) a.now }
    requires crew { IsCrewOf (asked task.now) crew.now }
    requires room { s < STEP_LIMIT }
    requires free { IsTrue (is_unassigned (asked task.now) a.now s) }
    requires users { IsTrue (have_users (authorised_users (asked task.now) s)
        (kids_of_items branches.now)) }
    requires each { IsTrue (all_refute (asked task.now) a.now task.now.done.now s []
        (kids_of_items branches.now)) }
    ensures { IfOk result (IsTrimming (asked task.now) a.now task.now.done.now
        (node s (kids_of_items branches.now))) }
{
    let mut kept = Branches::new(task.alloc);
    let mut steps = StepSet::empty();
    let mut last = StepSet::empty();
    'branches: for branch in branches {
        let user = branch.user;
        if let Some(twin) = twin_among(task.course, a, crew, finder, &kept, user) {
            kept.push(Branch {
                user,
                kid: Kid::Twin(twin),
            })?;
            continue;
        }
        match &branch.kid {
            Kid::Tree(tree) => {
                let kid = trim_tree(task, &a.with(s, user), crew, finder, tree)?;
                if !kid.steps.has(s) {
                    return trim_tree(task, a, crew, finder, &kid.tree);
                }
                steps = joined(&steps, &kid.steps, &last);
                last = kid.steps;
                kept.push(Branch {
                    user,
                    kid: Kid::Tree(kid.tree),
                })?;
            }
            Kid::Twin(_) => unreachable!(),
        }
    }
    Ok(Refutation {
        tree: Tree::Step(s, kept),
        steps,
    })
}
