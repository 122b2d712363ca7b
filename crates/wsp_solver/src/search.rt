//! The search over the users of the steps that are not assigned yet.
ghost use Rattle.std.specs.Prelude.{◌≡◌, ◌<◌, ◌≤◌, length, IfOk, IsTrue};
ghost use Rattle.wf_names.specs.declared.limits.TheConstants.{STEP_LIMIT};
ghost use Rattle.policy_book.specs.Laws.Plans.{AreAssigned, IsWithin};
ghost use Rattle.policy_book.specs.Course.{problem_in};
ghost use Rattle.policy_book.specs.Policies.{problem_of};
ghost use Rattle.policy_book.specs.Laws.Refuting.{is_unassigned};
ghost use Rattle.wsp_solver.specs.Crews.{IsCrewOf};
ghost use Rattle.wsp_solver.specs.Searches.{HasDecided, FitsRoom, HasSolved};
ghost use Rattle.wsp_solver.specs.Searches.{NoLeafRefutes, NoLeafRefutesWithout};
ghost use Rattle.wsp_solver.specs.Task.{FitsTask, HasSearched, asked};

use crate::crew::{Crew, know_class};
use crate::found::found;
use crate::leaf::{Refutation, broken_rule, refuting_leaf};
use crate::lean::trim_tree;
use crate::next::{next_step, plan_of};
use crate::steps::joined;
use crate::task::Task;
use crate::twin::twin_among;
use basics::Fault;
use plan_finder::Finder;
use policy_book::{Assign, Course, Plan, Policy, StepSet};
use refutation_tree::{Branch, Branches, Kid, Tree};
use std::alloc::{AllocError, Global};
use wf_names::{FlowId, StepId, UserId};

/// The most runs that are bounded.
const RUNS: u8 = 64;

/// What a search found.
#[derive(Drop)]
pub enum Outcome {
    /// A valid plan.
    Plan(Plan),
    /// A tree that refutes, so that there is no valid plan.
    Refuted(Tree),
}

/// The tree would have more branches than the search may keep.
#[derive(Clone, Copy)]
pub struct OverBudget;

/// Why a search that may keep only a number of branches has no answer.
pub type Unsolved = Fault<OverBudget>;

// The same, with the steps that the tree mentions; or that a bounded search has come to its bound.
#[derive(Drop)]
pub(crate) enum Searched {
    Plan(Plan),
    Refuted(Refutation),
    Stopped,
}

/// Decides whether an assignment with these finished steps can be completed.
pub fn solve(
    alloc: Global,
    p: &Policy,
    f: FlowId,
    a: &Assign,
    done: &StepSet,
) -> Result<Outcome, AllocError>
    requires flow { f < length p.now.flows }
    requires within { IsWithin (problem_of p.now f) a.now }
    requires assigned { AreAssigned done.now a.now }
    ensures { IfOk result (HasSolved (problem_of p.now f) a.now done.now) }
{
    let course = Course {
        policy: p,
        number: f,
    };
    match decided(alloc, &course, a, done, u32::MAX, false)? {
        Searched::Plan(plan) => Ok(Outcome::Plan(plan)),
        Searched::Refuted(found) => Ok(Outcome::Refuted(found.tree)),
        Searched::Stopped => unreachable!(),
    }
}

/// Decides that with a budget: a search that would keep more than `branches` branches, those of
/// twins among them, is given up, and a tree has at most `branches` leaves and nodes.
pub fn solve_within(
    alloc: Global,
    p: &Policy,
    f: FlowId,
    a: &Assign,
    done: &StepSet,
    branches: u32,
) -> Result<Outcome, Unsolved>
    requires flow { f < length p.now.flows }
    requires within { IsWithin (problem_of p.now f) a.now }
    requires assigned { AreAssigned done.now a.now }
    ensures solved { IfOk result (HasSolved (problem_of p.now f) a.now done.now) }
    ensures room { IfOk result (FitsRoom branches) }
{
    let course = Course {
        policy: p,
        number: f,
    };
    match decided(alloc, &course, a, done, branches, true)? {
        Searched::Plan(plan) => Ok(Outcome::Plan(plan)),
        Searched::Refuted(found) => {
            if found.tree.nodes() > branches as u64 {
                return Err(Fault::Cause(OverBudget));
            }
            Ok(Outcome::Refuted(found.tree))
        }
        Searched::Stopped => Err(Fault::Cause(OverBudget)),
    }
}

// A plan or a lean tree; or neither, where a limited search would keep more branches than that.
fn decided(
    alloc: Global,
    course: &Course,
    a: &Assign,
    done: &StepSet,
    branches: u32,
    limited: bool,
) -> Result<Searched, AllocError>
    requires within { IsWithin (problem_in course.now) a.now }
    requires assigned { AreAssigned done.now a.now }
    ensures { IfOk result (HasDecided (problem_in course.now) a.now done.now limited) }
{
    if let Some(leaf) = refuting_leaf(course, a, done) {
        return Ok(Searched::Refuted(leaf));
    }
    let task = Task {
        alloc,
        course,
        done,
        bounded: limited,
    };
    let mut finder = Finder::new(alloc, course.policy, course.number, branches)?;
    let mut crew = Crew::new(alloc, course)?;
    finder.make_room(alloc)?;
    match search(&task, a, &mut crew, &mut finder)? {
        Searched::Plan(plan) => Ok(Searched::Plan(plan)),
        Searched::Refuted(found) => {
            let lean = trim_tree(&task, a, &crew, &mut finder, &found.tree)?;
            Ok(Searched::Refuted(lean))
        }
        Searched::Stopped => Ok(Searched::Stopped),
    }
}

// A search for a tree and one for a plan, in turns that go further and further, so that a small
// tree is found where there is one, and a plan soon.
fn search(
    task: &Task,
    a: &Assign,
    crew: &mut Crew,
    finder: &mut Finder,
) -> Result<Searched, AllocError>
    requires fits { FitsTask task.now a.now crew.old }
    requires quiet { NoLeafRefutes (asked task.now) a.now task.now.done.now }
    ensures searched { IfOk result (HasSearched task.now a.now) }
    ensures crew { IsCrewOf (asked task.now) crew.new }
{
    let run = Task {
        alloc: task.alloc,
        course: task.course,
        done: task.done,
        bounded: true,
    };
    'runs: for _ in 0..RUNS {
        finder.begin_run(task.course.policy, a)?;
        match decide(&run, a, crew, finder, 0)? {
            Searched::Plan(found) => return Ok(Searched::Plan(found)),
            Searched::Refuted(found) => return Ok(Searched::Refuted(found)),
            Searched::Stopped => {}
        }
        if let Some(plan) = found(task.alloc, task.course, a, task.done, finder)? {
            return Ok(Searched::Plan(plan));
        }
        if task.bounded && finder.is_spent() {
            return Ok(Searched::Stopped);
        }
    }
    decide(task, a, crew, finder, 0)
}

// Tries everything, one free step after the other, where no leaf refutes.
#[cycle(search)]
fn decide(
    task: &Task,
    a: &Assign,
    crew: &mut Crew,
    finder: &mut Finder,
    depth: u8,
) -> Result<Searched, AllocError>
    requires fits { FitsTask task.now a.now crew.old }
    requires quiet { NoLeafRefutes (asked task.now) a.now task.now.done.now }
    ensures searched { IfOk result (HasSearched task.now a.now) }
    ensures crew { IsCrewOf (asked task.now) crew.new }
{
    let _ = task.course.rules();
    match next_step(task.course, a, finder, depth) {
        Some(s) => try_users(task, a, s, crew, finder, depth),
        None => Ok(Searched::Plan(plan_of(task.course, a))),
    }
}

// Gives a free step to each user who is authorised for it, one after the other, until one of them
// leads to a plan. A twin of a user who was tried is not tried. A tree that does not mention the
// step refutes without it, so that nobody else needs to be tried.
#[cycle(search)]
fn try_users(
    task: &Task,
    a: &Assign,
    s: StepId,
    crew: &mut Crew,
    finder: &mut Finder,
    depth: u8,
) -> Result<Searched, AllocError>
    requires fits { FitsTask task.now a.now crew.old }
    requires quiet { NoLeafRefutes (asked task.now) a.now task.now.done.now }
    requires room { s < STEP_LIMIT }
    requires free { IsTrue (is_unassigned (asked task.now) a.now s) }
    ensures searched { IfOk result (HasSearched task.now a.now) }
    ensures crew { IsCrewOf (asked task.now) crew.new }
{
    let row = task.course.authorised_users(s);
    let mut branches = Branches::new(task.alloc);
    let mut steps = StepSet::empty();
    let mut last = StepSet::empty();
    finder.find_reasons(a, depth, s);
    let before = finder.kept();
    let mut from = 0;
    'users: while let Some(user) = row.next(from) {
        from = user.0 as u32 + 1;
        know_class(task.course, crew, finder, user);
        if let Some(twin) = twin_among(task.course, a, crew, finder, &branches, user) {
            finder.keep();
            let kid = Kid::Twin(twin);
            branches.push(Branch { user, kid })?;
            continue;
        }
        if !finder.may_try(depth) && task.bounded {
            return Ok(Searched::Stopped);
        }
        let here = finder.kept();
        let given = a.with(s, user);
        match try_user(task, &given, s, user, crew, finder, depth)? {
            Searched::Plan(plan) => return Ok(Searched::Plan(plan)),
            Searched::Stopped => return Ok(Searched::Stopped),
            Searched::Refuted(kid) => {
                if !kid.steps.has(s) {
                    let more = finder.kept().saturating_sub(here);
                    finder.drop_to(before.saturating_add(more));
                    return Ok(Searched::Refuted(kid));
                }
                finder.keep();
                steps = joined(&steps, &kid.steps, &last);
                last = kid.steps;
                let tree = Kid::Tree(kid.tree);
                branches.push(Branch { user, kid: tree })?;
            }
        }
    }
    let tree = Tree::Step(s, branches);
    Ok(Searched::Refuted(Refutation { tree, steps }))
}

// Decides an assignment under which a leaf refutes only where it mentions the step `s`, which was
// given last, to the user `u`. The rule that the finder knows of is looked at first.
#[cycle(search)]
fn try_user(
    task: &Task,
    a: &Assign,
    s: StepId,
    u: UserId,
    crew: &mut Crew,
    finder: &mut Finder,
    depth: u8,
) -> Result<Searched, AllocError>
    requires fits { FitsTask task.now a.now crew.old }
    requires others { NoLeafRefutesWithout (asked task.now) a.now task.now.done.now s }
    ensures searched { IfOk result (HasSearched task.now a.now) }
    ensures crew { IsCrewOf (asked task.now) crew.new }
{
    let reason = finder.reason(depth, u);
    match broken_rule(task.course, a, task.done, s, reason, crew) {
        Some(leaf) => Ok(Searched::Refuted(leaf)),
        None => decide(task, a, crew, finder, depth.saturating_add(1)),
    }
}
