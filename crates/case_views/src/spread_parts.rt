//! What each open case gives to an edit or a view, found in as many threads as are worth it.
ghost use Rattle.std.specs.Prelude.{◌≡◌, ◌<◌, ◌∷◌, [], length, IfOk};
ghost use Rattle.std.specs.List.{AllZip};
ghost use Rattle.admin_edits.specs.Laws.Edits.{amended};
ghost use Rattle.wf_board.specs.Laws.Found.{IsAllowed};
ghost use Rattle.wf_board.specs.Laws.Kept.{ArePlanned};
ghost use Rattle.case_views.specs.Listing.{AreStrandedIn, IsKeptRow, IsLeftAt, IsWorkIn, list_of};

use crate::edit_decider::left_at;
use crate::granted::Work;
use crate::seen::Seen;
use crate::stranded::stranded_at;
use crate::work_lists::work_at;
use grant_table::Row;
use policy_book::Policy;
use rayon::prelude::*;
use std::alloc::Global;
use std::thread::Threads;
use wf_board::Revision;
use wf_names::{CaseId, UserId};
use wf_talk::WorkList;
use wsp_solver::{Outcome, Unsolved};

/// So few cases stay on one thread.
const PIECE: usize = 16;

/// The work of a user in the case of each row.
pub(crate) fn work_parts<R: Threads + Sync>(
    rt: &R,
    alloc: Global,
    p: &Policy,
    u: UserId,
    rows: &[Row],
) -> Result<Vec<WorkList>, Unsolved>
    requires kept { ArePlanned p.now rows.now }
    requires user { u < length p.now.roster.users }
    ensures { IfOk result (λ parts. AllZip (λ r part. IsWorkIn p.now u (r ∷ []) part) rows.now
        parts.items) }
{
    let parts: Result<Vec<WorkList>, Unsolved> = rows
        .par_iter()
        .with_min_len(PIECE)
        .map(
            |row: &Row| -> Result<WorkList, Unsolved>
                requires { IsKeptRow p.now row.now × (u < length p.now.roster.users) }
                ensures { IfOk result (IsWorkIn p.entry.now u (row.now ∷ [])) }
            { work_at(alloc, p, u, row, &mut Work::nothing(alloc)) },
        )
        .collect(rt, alloc)?;
    parts
}

/// The number of the case of each row, if it is open and a change would strand it.
pub(crate) fn stranded_parts<R: Threads + Sync>(
    rt: &R,
    alloc: Global,
    revision: &Revision,
    rows: &[Row],
) -> Result<Vec<Option<CaseId>>, Unsolved>
    requires { ArePlanned revision.now.before.now rows.now }
    ensures { IfOk result (λ parts. AllZip
        (λ r part. AreStrandedIn revision.now.after.now (r ∷ []) (list_of part)) rows.now
        parts.items) }
{
    let parts: Result<Vec<Option<CaseId>>, Unsolved> = rows
        .par_iter()
        .with_min_len(PIECE)
        .map(
            |row: &Row| -> Result<Option<CaseId>, Unsolved>
                requires { IsKeptRow revision.now.before.now row.now }
                ensures { IfOk result (λ part. AreStrandedIn revision.entry.now.after.now
                    (row.now ∷ []) (list_of part)) }
            { stranded_at(alloc, revision, row, &mut Seen::nothing(alloc)) },
        )
        .collect(rt, alloc)?;
    parts
}

/// What a changed policy leaves the case of each row.
pub(crate) fn left_parts<R: Threads + Sync>(
    rt: &R,
    alloc: Global,
    revision: &Revision,
    rows: &[Row],
) -> Result<Vec<Option<Outcome>>, Unsolved>
    requires { ArePlanned revision.now.before.now rows.now }
    ensures { IfOk result (λ parts. AllZip (IsLeftAt revision.now.after.now) rows.now parts.items) }
{
    let parts: Result<Vec<Option<Outcome>>, Unsolved> = rows
        .par_iter()
        .with_min_len(PIECE)
        .map(
            |row: &Row| -> Result<Option<Outcome>, Unsolved>
                requires { IsKeptRow revision.now.before.now row.now }
                ensures { IfOk result (IsLeftAt revision.entry.now.after.now row.now) }
            { left_at(alloc, revision, row, &mut None) },
        )
        .collect(rt, alloc)?;
    parts
}
