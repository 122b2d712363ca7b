//! Work lists: the steps of the open cases that a user would be granted.
ghost use Rattle.std.specs.Prelude.{◌≡◌, ℕ, ◌<◌, ◌∷◌, ◌&&◌, ◌||◌, ◌==◌, [], length, IfOk};
ghost use Rattle.std.specs.Prelude.{MatchBool, OnOk};
ghost use Rattle.wf_names.specs.declared.limits.TheConstants.{STEP_LIMIT};
ghost use Rattle.constraint_forms.specs.Assign.{is_member};
ghost use Rattle.policy_book.specs.Laws.Shapes.{PolicyShape};
ghost use Rattle.wf_board.specs.Boards.{book_on, numbered};
ghost use Rattle.wf_board.specs.Edition.{IsPlanOf};
ghost use Rattle.wf_board.specs.Laws.Kept.{ArePlanned, IsOfPolicy, IsPlanned};
ghost use Rattle.wf_board.specs.Views.{IsGrantable, IsWorkOf, item_of, steps_from};
ghost use Rattle.case_views.specs.Listing.{AreGrantable, HasListed, IsKeptRow, IsWorkIn};
ghost use Rattle.case_views.specs.Listing.{is_plan};
ghost use Rattle.case_views.specs.Granting.{TellsSteps, TellsWork};

use crate::found::outcome_with;
use crate::granted::Work;
use admin_edits::has_cause;
use case_record::Case;
use constraint_forms::{Plan, StepSet};
use grant_table::Row;
use policy_book::Policy;
use std::alloc::{AllocError, Global};
use wf_board::Snap;
use wf_names::{StepId, UserId};
use wf_talk::{WorkItem, WorkList};
use wsp_solver::{Outcome, Unsolved};

/// The work of a user: the steps of the open cases that the user would be granted now, by ascending
/// case and step. A step against which there is a cause is left at once; for the others the plan
/// that is kept for the case decides where it gives the user the step, else a plan near it where
/// one is valid, and else a search.
pub fn worklist(alloc: Global, snap: &Snap, u: UserId) -> Result<WorkList, Unsolved>
    requires { u < length snap.now.policy.roster.users }
    ensures { IfOk result (IsWorkOf (book_on snap.now) u) }
{
    work_in(alloc, snap.policy(), u, snap.cases().rows())
}

/// The work of a user in the cases of rows.
pub(crate) fn work_in(
    alloc: Global,
    p: &Policy,
    u: UserId,
    rows: &[Row],
) -> Result<WorkList, Unsolved>
    requires kept { ArePlanned p.now rows.now }
    requires user { u < length p.now.roster.users }
    ensures { IfOk result (IsWorkIn p.now u rows.now) }
{
    let mut items = WorkList::new(alloc);
    let mut work = Work::nothing(alloc);
    'rows: for i in 0..rows.len() {
        let more = work_at(alloc, p, u, &rows[i], &mut work)?;
        items.push_all(more.as_slice())?;
    }
    Ok(items)
}

/// The work of a user in the case of a row. What is found of it is remembered for the next.
pub(crate) fn work_at(
    alloc: Global,
    p: &Policy,
    u: UserId,
    row: &Row,
    work: &mut Work,
) -> Result<WorkList, Unsolved>
    requires row { IsKeptRow p.now row.now }
    requires user { u < length p.now.roster.users }
    requires right { TellsWork p.now u work.old }
    ensures work { IfOk result (IsWorkIn p.now u (row.now ∷ [])) }
    ensures right { TellsWork p.now u work.new }
{
    match row.plan() {
        Some(kept) if row.case().phase().is_live() => {
            granted_steps(alloc, p, u, row, &kept, work)
        }
        _ => Ok(WorkList::new(alloc)),
    }
}

// The steps of an open case that a user would be granted.
fn granted_steps(
    alloc: Global,
    p: &Policy,
    u: UserId,
    row: &Row,
    kept: &Plan,
    work: &mut Work,
) -> Result<WorkList, Unsolved>
    requires known { IsOfPolicy p.now row.now.case }
    requires valid { IsPlanOf p.now row.now.case kept.now }
    requires user { u < length p.now.roster.users }
    requires right { TellsWork p.now u work.old }
    ensures steps { IfOk result (AreGrantable p.now u
        (steps_from (numbered row.now) (length row.now.case.states) 0)) }
    ensures right { TellsWork p.now u work.new }
{
    let found = known_steps(alloc, p, u, row.case(), kept, work)?;
    Ok(items_of(alloc, row, &found)?)
}

// Those steps, as they were found of a case that stands alike, or are found now.
fn known_steps(
    alloc: Global,
    p: &Policy,
    u: UserId,
    case: &Case,
    kept: &Plan,
    work: &mut Work,
) -> Result<StepSet, Unsolved>
    requires known { IsOfPolicy p.now case.now }
    requires valid { IsPlanOf p.now case.now kept.now }
    requires user { u < length p.now.roster.users }
    requires right { TellsWork p.now u work.old }
    ensures told { IfOk result (TellsSteps p.now u case.now) }
    ensures right { TellsWork p.now u work.new }
{
    if let Some(known) = work.steps(case) {
        return Ok(known);
    }
    let found = found_steps(alloc, p, u, case, kept)?;
    work.keep(case, found);
    Ok(found)
}

fn found_steps(
    alloc: Global,
    p: &Policy,
    u: UserId,
    case: &Case,
    kept: &Plan,
) -> Result<StepSet, Unsolved>
    requires known { IsOfPolicy p.now case.now }
    requires valid { IsPlanOf p.now case.now kept.now }
    requires user { u < length p.now.roster.users }
    ensures { IfOk result (TellsSteps p.now u case.now) }
{
    let count = case.steps();
    let mut found = StepSet::empty();
    'finding: for s in 0..count {
        let granted = is_granted(alloc, p, u, case, kept, StepId(s))?;
        found = with_if(&found, StepId(s), granted);
    }
    Ok(found)
}

// A set with one more step, where it is wanted.
fn with_if(set: &StepSet, s: StepId, wanted: bool) -> StepSet
    requires { s < STEP_LIMIT }
    ensures { (t : ℕ) → is_member result t ≡ (is_member set.now t || (wanted && t == s)) }
{
    if wanted { set.with(s) } else { *set }
}

// Some steps of a case, as a work list has them.
fn items_of(alloc: Global, row: &Row, found: &StepSet) -> Result<WorkList, AllocError>
    ensures { IfOk result (λ items. (p : PolicyShape) → (u : ℕ)
        → TellsSteps p u row.now.case found.now
        → AreGrantable p u (steps_from (numbered row.now) (length row.now.case.states) 0) items) }
{
    let count = row.case().steps();
    let mut items = WorkList::new(alloc);
    'listing: for s in 0..count {
        add_step(row, StepId(s), found.has(StepId(s)), &mut items)?;
    }
    Ok(items)
}

// Lists a step of a case, if a user would be granted it.
fn add_step(row: &Row, step: StepId, granted: bool, items: &mut WorkList) -> Result<(), AllocError>
    ensures { OnOk result ((p : PolicyShape) → (u : ℕ)
        → MatchBool granted (IsGrantable p row.now.case step u)
        (¬ IsGrantable p row.now.case step u)
        → HasListed p u (record { of = numbered row.now; step = step }) items.old items.new) }
{
    if granted {
        items.push(item_of(row, step))?;
    }
    Ok(())
}

// A step of a case, as a work list has it.
fn item_of(row: &Row, step: StepId) -> WorkItem
    ensures { result ≡ item_of (record { of = numbered row.now; step = step }) }
{
    WorkItem {
        case: row.number(),
        flow: row.case().flow(),
        step,
    }
}

// Whether a user would be granted a step of an open case.
fn is_granted(
    alloc: Global,
    p: &Policy,
    u: UserId,
    case: &Case,
    kept: &Plan,
    step: StepId,
) -> Result<bool, Unsolved>
    requires known { IsOfPolicy p.now case.now }
    requires valid { IsPlanOf p.now case.now kept.now }
    requires user { u < length p.now.roster.users }
    requires step { step < length case.now.states }
    ensures { IfOk result (λ b. MatchBool b (IsGrantable p.now case.now step u)
        (¬ IsGrantable p.now case.now step u)) }
{
    if has_cause(p, case, step, u) {
        return Ok(false);
    }
    let _well_formed = p.rules(case.flow());
    let outcome = outcome_with(alloc, p, case, kept, step, u)?;
    Ok(is_plan(&outcome))
}

/// Whether a plan was found.
pub(crate) fn is_plan(outcome: &Outcome) -> bool
    ensures { result ≡ is_plan outcome.now }
{
    matches!(outcome, Outcome::Plan(_))
}
