//! The decider that spreads the open cases over threads.
ghost use Rattle.std.specs.Prelude.{◌≡◌, length, IfOk};
ghost use Rattle.std.specs.List.{AllZip, flat_map};
ghost use Rattle.policy_book.specs.Laws.Shapes.{PolicyShape};
ghost use Rattle.case_views.specs.Deciding.{IsLeft};
ghost use Rattle.case_views.specs.Listing.{IsLeftAt, list_of, open_in};

use crate::PlainDecider;
use crate::decider::verdict_on;
use crate::edit_decider::{Left, add_part};
use crate::lister::Lister;
use crate::spread_parts::{left_parts, stranded_parts, work_parts};
use crate::stranded::add_number;
use crate::survey::Survey;
use basics::List;
use constraint_forms::Plan;
use grant_table::{Cases, Row};
use policy_book::Policy;
use std::alloc::{AllocError, Global};
use std::thread::Threads;
use wf_board::{Decider, Deed, Revision, Verdict};
use wf_names::{CaseId, UserId};
use wf_talk::{CaseList, WorkList};
use wsp_solver::{Outcome, Unsolved};

/// Finds right verdicts, as `PlainDecider` does, and the same lists. For an edit or a view it goes
/// over the open cases in as many threads as are worth it; openings and claims stay on one.
pub struct SpreadDecider<'a, R: Threads + Sync> {
    rt: &'a R,
}

impl<'a, R: Threads + Sync> SpreadDecider<'a, R> {
    /// A decider that starts its threads by this handle.
    pub fn new(rt: &'a R) -> SpreadDecider<'a, R> {
        SpreadDecider { rt }
    }
}

impl<R: Threads + Sync> Drop for SpreadDecider<'_, R> {
    fn drop(self) {
        let SpreadDecider { rt: _ } = self;
    }
}

impl<R: Threads + Sync> Decider for SpreadDecider<'_, R> {
    ghost use Rattle.std.specs.Thread.{IsSync};

    ghost ready = { λ _. IsSync R.row };

    fn decide_deed(&self, alloc: Global, p: &Policy, cases: &Cases, deed: &Deed) -> Verdict {
        let survey = Survey {
            lister: self,
            alloc,
            policy: p,
            cases,
        };
        verdict_on(&survey, deed)
    }

    fn decide_near(&self, p: &Policy, cases: &Cases, deed: &Deed) -> Option<Plan> {
        PlainDecider.decide_near(p, cases, deed)
    }
}

impl<R: Threads + Sync> Lister for SpreadDecider<'_, R> {
    ghost use Rattle.std.specs.Thread.{IsSync};

    ghost ready = { λ _. IsSync R.row };

    fn left(&self, alloc: Global, revision: &Revision, rows: &[Row]) -> Result<Left, Unsolved> {
        let parts = left_parts(self.rt, alloc, revision, rows)?;
        Ok(left_of(alloc, rows, &parts)?)
    }

    fn stranded(
        &self,
        alloc: Global,
        revision: &Revision,
        rows: &[Row],
    ) -> Result<CaseList, Unsolved> {
        let parts = stranded_parts(self.rt, alloc, revision, rows)?;
        Ok(joined_cases(alloc, &parts)?)
    }

    fn work(
        &self,
        alloc: Global,
        p: &Policy,
        u: UserId,
        rows: &[Row],
    ) -> Result<WorkList, Unsolved> {
        let parts = work_parts(self.rt, alloc, p, u, rows)?;
        Ok(joined_work(alloc, &parts)?)
    }
}

// What is left of the open cases among these rows, where this is left of each.
fn left_of(alloc: Global, rows: &[Row], parts: &[Option<Outcome>]) -> Result<Left, AllocError>
    requires { length parts.now ≡ length rows.now }
    ensures { IfOk result (λ left. (p : PolicyShape) → AllZip (IsLeftAt p) rows.now parts.now
        → IsLeft p (open_in rows.now) left) }
{
    let mut plans = Vec::with_capacity(alloc, rows.len())?;
    'rows: for i in 0..rows.len() {
        let row = &rows[i];
        if let Some(tree) = add_part(&parts[i], &mut plans)? {
            return Ok(Left::Stranded(row.number(), tree));
        }
    }
    Ok(Left::Plans(List::from_vec(plans)))
}

// The items of the work lists `parts`, one list after the other.
fn joined_work(alloc: Global, parts: &[WorkList]) -> Result<WorkList, AllocError>
    ensures { IfOk result (λ all. all ≡ flat_map (λ part. part) parts.now) }
{
    let mut items = WorkList::new(alloc);
    'parts: for i in 0..parts.len() {
        items.push_all(parts[i].as_slice())?;
    }
    Ok(items)
}

// The numbers that there are, in order.
fn joined_cases(alloc: Global, parts: &[Option<CaseId>]) -> Result<CaseList, AllocError>
    ensures { IfOk result (λ all. all ≡ flat_map list_of parts.now) }
{
    let mut numbers = CaseList::new(alloc);
    'parts: for i in 0..parts.len() {
        add_number(parts[i], &mut numbers)?;
    }
    Ok(numbers)
}
