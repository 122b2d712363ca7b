//! Which open cases a change of the policy would strand.
ghost use Rattle.std.specs.Prelude.{◌≡◌, ◌<◌, ◌∷◌, ◌++◌, [], None, true, length, IfOk, OnOk};
ghost use Rattle.policy_book.specs.Laws.Shapes.{PolicyShape};
ghost use Rattle.policy_book.specs.Policies.{problem_of};
ghost use Rattle.policy_book.specs.Laws.Plans.{IsWithin};
ghost use Rattle.case_record.specs.Cases.{assigned_of, is_open};
ghost use Rattle.admin_edits.specs.Laws.Edits.{edit_cause, edited_policy};
ghost use Rattle.wf_board.specs.Boards.{book_on};
ghost use Rattle.wf_board.specs.Edition.{IsPlanOf};
ghost use Rattle.wf_board.specs.Laws.Kept.{ArePlanned, IsOfPolicy, IsPlanned};
ghost use Rattle.wf_board.specs.Laws.States.{open_cases};
ghost use Rattle.wf_board.specs.Views.{AreStranded};
ghost use Rattle.case_views.specs.Listing.{AreStrandedIn, IsKeptRow, list_of};
ghost use Rattle.case_views.specs.Seeing.{IsTold, TellsRight};

use crate::PlainDecider;
use crate::edit_decider::outcome_of;
use crate::seen::Seen;
use crate::survey::Survey;
use crate::work_lists::is_plan;
use admin_edits::amendment_of;
use case_record::Case;
use constraint_forms::Plan;
use grant_table::Row;
use policy_book::Policy;
use std::alloc::{AllocError, Global};
use wf_board::{Revision, Snap, may_break};
use wf_names::{CaseId, Name};
use wf_talk::{CaseList, Edit};
use wsp_solver::Unsolved;

/// The open cases that an edit against which there is no cause would leave without a valid plan,
/// ascending. The plan that is kept for a case is taken where the edit cannot hurt it, else a plan
/// near it where one is valid, and else a search is made. Nothing is changed.
pub fn what_if(alloc: Global, snap: &Snap, by: &Name, e: &Edit) -> Result<CaseList, Unsolved>
    requires { edit_cause snap.now.policy by.now e.now ≡ None }
    ensures { IfOk result (AreStranded (edited_policy snap.now.policy by.now e.now)
        (open_cases (book_on snap.now).cases)) }
{
    match amendment_of(snap.policy(), by, e) {
        Ok(a) => {
            let survey = Survey {
                lister: &PlainDecider,
                alloc,
                policy: snap.policy(),
                cases: snap.cases(),
            };
            survey.stranded(&a)
        }
        Err(_) => unreachable!(),
    }
}

/// The open cases of rows that a change would strand.
pub(crate) fn stranded_in(
    alloc: Global,
    revision: &Revision,
    rows: &[Row],
) -> Result<CaseList, Unsolved>
    requires { ArePlanned revision.now.before.now rows.now }
    ensures { IfOk result (AreStrandedIn revision.now.after.now rows.now) }
{
    let mut numbers = CaseList::new(alloc);
    let mut seen = Seen::nothing(alloc);
    'rows: for i in 0..rows.len() {
        let number = stranded_at(alloc, revision, &rows[i], &mut seen)?;
        add_number(number, &mut numbers)?;
    }
    Ok(numbers)
}

/// The case of a row, if it is open and would be stranded. What is found of it is remembered for
/// the next.
pub(crate) fn stranded_at(
    alloc: Global,
    revision: &Revision,
    row: &Row,
    seen: &mut Seen,
) -> Result<Option<CaseId>, Unsolved>
    requires row { IsKeptRow revision.now.before.now row.now }
    requires right { TellsRight revision.now.after.now seen.old }
    ensures number { IfOk result
        (λ number. AreStrandedIn revision.now.after.now (row.now ∷ []) (list_of number)) }
    ensures right { TellsRight revision.now.after.now seen.new }
{
    match row.plan() {
        Some(kept) if row.case().phase().is_live() => {
            stranded_with(alloc, revision, row, &kept, seen)
        }
        _ => Ok(None),
    }
}

// The same of an open case and the plan that is kept for it.
fn stranded_with(
    alloc: Global,
    revision: &Revision,
    row: &Row,
    kept: &Plan,
    seen: &mut Seen,
) -> Result<Option<CaseId>, Unsolved>
    requires known { IsOfPolicy revision.now.before.now row.now.case }
    requires live { is_open row.now.case ≡ true }
    requires valid { IsPlanOf revision.now.before.now row.now.case kept.now }
    requires right { TellsRight revision.now.after.now seen.old }
    ensures number { IfOk result
        (λ number. AreStrandedIn revision.now.after.now (row.now ∷ []) (list_of number)) }
    ensures right { TellsRight revision.now.after.now seen.new }
{
    let completable = stays_completable(alloc, revision, row.case(), kept, seen)?;
    Ok(number_unless(row, completable))
}

// The number of the case of a row that is open, unless it can be completed.
fn number_unless(row: &Row, completable: bool) -> Option<CaseId>
    ensures { (p : PolicyShape) → is_open row.now.case ≡ true
        → IsTold p row.now.case completable
        → AreStrandedIn p (row.now ∷ []) (list_of result) }
{
    if completable {
        None
    } else {
        Some(row.number())
    }
}

// Whether a case can be completed under the changed policy.
fn stays_completable(
    alloc: Global,
    revision: &Revision,
    case: &Case,
    kept: &Plan,
    seen: &mut Seen,
) -> Result<bool, Unsolved>
    requires known { IsOfPolicy revision.now.before.now case.now }
    requires valid { IsPlanOf revision.now.before.now case.now kept.now }
    requires right { TellsRight revision.now.after.now seen.old }
    ensures told { IfOk result (IsTold revision.now.after.now case.now) }
    ensures right { TellsRight revision.now.after.now seen.new }
{
    if may_break(revision, case, kept) {
        is_completable(alloc, revision.after, case, kept, seen)
    } else {
        Ok(true)
    }
}

// Whether a case can be completed, as was found of one that stands alike, or else as a plan tells
// near one of two others or a search.
fn is_completable(
    alloc: Global,
    p: &Policy,
    case: &Case,
    kept: &Plan,
    seen: &mut Seen,
) -> Result<bool, Unsolved>
    requires flow { case.now.flow < length p.now.flows }
    requires within { IsWithin (problem_of p.now case.now.flow) (assigned_of case.now) }
    requires right { TellsRight p.now seen.old }
    ensures told { IfOk result (IsTold p.now case.now) }
    ensures right { TellsRight p.now seen.new }
{
    if let Some(completable) = seen.completable(case) {
        return Ok(completable);
    }
    let _sound = p.admin();
    let outcome = outcome_of(alloc, p, case, kept, &mut seen.recent)?;
    let completable = is_plan(&outcome);
    seen.keep(case, completable);
    Ok(completable)
}

/// Adds a number, where there is one.
pub(crate) fn add_number(number: Option<CaseId>, numbers: &mut CaseList) -> Result<(), AllocError>
    ensures { OnOk result (numbers.new ≡ numbers.old ++ list_of number) }
{
    match number {
        Some(number) => numbers.push(number),
        None => Ok(()),
    }
}
