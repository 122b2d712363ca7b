//! The decider for changes of the policy, on one thread.
ghost use Rattle.std.specs.Prelude.{◌≡◌, ◌<◌, IfOk, IfSome, length};
ghost use Rattle.policy_book.specs.Course.{problem_in};
ghost use Rattle.policy_book.specs.Policies.{problem_of};
ghost use Rattle.policy_book.specs.Laws.Plans.{AreAssigned, IsValidPlan, IsWithin};
ghost use Rattle.case_record.specs.Cases.{assigned_of, finished_of};
ghost use Rattle.wsp_solver.specs.Searches.{HasSolved};
ghost use Rattle.wf_board.specs.Edition.{IsPlanOf};
ghost use Rattle.wf_board.specs.Laws.Kept.{ArePlanned, IsOfPolicy, IsPlanned};
ghost use Rattle.case_views.specs.Deciding.{AddsPlanOfRow, AddsPlan, IsLeft};
ghost use Rattle.case_views.specs.Deciding.{IsPartAdded};
ghost use Rattle.case_views.specs.Deciding.{IsVerdictOn};
ghost use Rattle.case_views.specs.Listing.{IsKeptRow, IsLeftAt, open_in};

use crate::found::outcome_near;
use basics::{List, Shared};
use case_record::Case;
use constraint_forms::{Assign, Plan, StepSet};
use grant_table::Row;
use policy_book::{Course, Policy};
use refutation_tree::Tree;
use std::alloc::{AllocError, Global};
use std::sync::Arc;
use wf_board::{Edition, Plans, Revision, Verdict, may_break};
use wf_names::CaseId;
use wsp_solver::{Outcome, Unsolved, plan_near};

/// What a change leaves the open cases.
#[derive(Drop)]
pub(crate) enum Left {
    /// A plan each, by ascending number.
    Plans(Plans),
    /// This one cannot be completed, as the tree shows, and each before it can.
    Stranded(CaseId, Shared<Tree>),
}

/// What a change leaves the open cases, as a verdict.
pub(crate) fn edition_of(alloc: Global, after: Policy, left: Left) -> Result<Verdict, AllocError>
    ensures { IfOk result (IsVerdictOn after left) }
{
    match left {
        Left::Plans(plans) => Ok(Verdict::Edited(Edition::of(Arc::new(alloc, after)?, plans))),
        Left::Stranded(number, tree) => Ok(Verdict::Strands(number, tree)),
    }
}

/// What the changed policy leaves the open cases of rows. The plan that a case has is kept where it
/// stays valid, and a search is made for the others, up to the first case that is left without one.
pub(crate) fn left_open(alloc: Global, revision: &Revision, rows: &[Row]) -> Result<Left, Unsolved>
    requires { ArePlanned revision.now.before.now rows.now }
    ensures { IfOk result (IsLeft revision.now.after.now (open_in rows.now)) }
{
    let mut plans = Vec::with_capacity(alloc, rows.len())?;
    let mut recent = None;
    'rows: for i in 0..rows.len() {
        let row = &rows[i];
        if let Some(tree) = add_plan(alloc, revision, row, &mut recent, &mut plans)? {
            return Ok(Left::Stranded(row.number(), tree));
        }
    }
    Ok(Left::Plans(List::from_vec(plans)))
}

// Adds a plan under the changed policy for the case of a row, if it is open; or tells why there is
// none.
fn add_plan(
    alloc: Global,
    revision: &Revision,
    row: &Row,
    recent: &mut Option<Plan>,
    plans: &mut Vec<Plan>,
) -> Result<Option<Shared<Tree>>, Unsolved>
    requires { IsKeptRow revision.now.before.now row.now }
    ensures { IfOk result (AddsPlanOfRow revision.now.after.now row.now plans.old.items
        plans.new.items) }
{
    let left = left_at(alloc, revision, row, recent)?;
    Ok(add_part(&left, plans)?)
}

/// Adds a plan that was found for a case that is open, or copies the tree that shows why there is
/// none.
pub(crate) fn add_part(
    left: &Option<Outcome>,
    plans: &mut Vec<Plan>,
) -> Result<Option<Shared<Tree>>, AllocError>
    ensures { IfOk result (IsPartAdded left.now plans.old.items plans.new.items) }
{
    match left {
        Some(outcome) => add_outcome(outcome, plans),
        None => Ok(None),
    }
}

fn add_outcome(outcome: &Outcome, plans: &mut Vec<Plan>) -> Result<Option<Shared<Tree>>, AllocError>
    ensures { IfOk result (AddsPlan outcome.now plans.old.items plans.new.items) }
{
    match outcome {
        Outcome::Plan(plan) => {
            plans.push(*plan)?;
            Ok(None)
        }
        Outcome::Refuted(tree) => Ok(Some(Shared::new(*plans.allocator(), tree.copy()?)?)),
    }
}

/// What the changed policy leaves the case of a row, if it is open. Where its plan is broken, the
/// one that was found for another case is tried first, and what is found here is kept for the next.
pub(crate) fn left_at(
    alloc: Global,
    revision: &Revision,
    row: &Row,
    recent: &mut Option<Plan>,
) -> Result<Option<Outcome>, Unsolved>
    requires { IsKeptRow revision.now.before.now row.now }
    ensures { IfOk result (IsLeftAt revision.now.after.now row.now) }
{
    match row.plan() {
        Some(kept) if row.case().phase().is_live() => {
            Ok(Some(plan_for(alloc, revision, row.case(), kept, recent)?))
        }
        _ => Ok(None),
    }
}

// A plan for a case under the changed policy: the one that it has, where it stays valid.
fn plan_for(
    alloc: Global,
    revision: &Revision,
    case: &Case,
    kept: Plan,
    recent: &mut Option<Plan>,
) -> Result<Outcome, Unsolved>
    requires known { IsOfPolicy revision.now.before.now case.now }
    requires valid { IsPlanOf revision.now.before.now case.now kept }
    ensures { IfOk result (HasSolved (problem_of revision.now.after.now case.now.flow)
        (assigned_of case.now) (finished_of case.now)) }
{
    if may_break(revision, case, &kept) {
        outcome_of(alloc, revision.after, case, &kept, recent)
    } else {
        Ok(Outcome::Plan(kept))
    }
}

/// A plan for a case, near one of two others where one is valid, and else what a search finds.
pub(crate) fn outcome_of(
    alloc: Global,
    p: &Policy,
    case: &Case,
    kept: &Plan,
    recent: &mut Option<Plan>,
) -> Result<Outcome, Unsolved>
    requires flow { case.now.flow < length p.now.flows }
    requires within { IsWithin (problem_of p.now case.now.flow) (assigned_of case.now) }
    ensures { IfOk result (HasSolved (problem_of p.now case.now.flow) (assigned_of case.now)
        (finished_of case.now)) }
{
    let course = Course {
        policy: p,
        number: case.flow(),
    };
    let (assigned, done) = progress_of(case);
    let outcome = outcome_by(alloc, &course, &assigned, &done, recent, kept)?;
    if let Outcome::Plan(plan) = &outcome {
        *recent = Some(*plan);
    }
    Ok(outcome)
}

// A plan for an assignment: one near a plan that was found for another case, or near the one that
// is kept, where one is valid, and else what a search finds.
fn outcome_by(
    alloc: Global,
    course: &Course,
    a: &Assign,
    done: &StepSet,
    recent: &Option<Plan>,
    kept: &Plan,
) -> Result<Outcome, Unsolved>
    requires within { IsWithin (problem_in course.now) a.now }
    requires assigned { AreAssigned done.now a.now }
    ensures { IfOk result (HasSolved (problem_in course.now) a.now done.now) }
{
    match near_recent(course, a, done, recent) {
        Some(near) => Ok(Outcome::Plan(near)),
        None => outcome_near(alloc, course, a, done, kept),
    }
}

fn near_recent(course: &Course, a: &Assign, done: &StepSet, recent: &Option<Plan>) -> Option<Plan>
    requires within { IsWithin (problem_in course.now) a.now }
    ensures { IfSome result (IsValidPlan (problem_in course.now) a.now done.now) }
{
    match recent {
        Some(plan) => plan_near(course.policy, course.number, a, done, plan),
        None => None,
    }
}

// What is assigned in a case, and what of it is finished.
fn progress_of(case: &Case) -> (Assign, StepSet)
    ensures assigned { result.0 ≡ assigned_of case.now }
    ensures finished { result.1 ≡ finished_of case.now }
    ensures known { AreAssigned result.1 result.0 }
{
    (case.assigned(), case.finished())
}
