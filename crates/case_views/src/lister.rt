//! Who lists what the open cases give to an edit or a view.
ghost use Rattle.std.specs.Prelude.{◌<◌, length, IfOk};
ghost use Rattle.wf_board.specs.Laws.Kept.{ArePlanned};
ghost use Rattle.case_views.specs.Deciding.{IsLeft};
ghost use Rattle.case_views.specs.Listing.{AreStrandedIn, IsWorkIn, open_in};

use crate::edit_decider::Left;
use grant_table::Row;
use policy_book::Policy;
use std::alloc::Global;
use wf_board::Revision;
use wf_names::UserId;
use wf_talk::{CaseList, WorkList};
use wsp_solver::Unsolved;

/// Goes over the rows of a table of cases.
pub(crate) trait Lister {
    /// What a lister needs of itself, as a bound of its own on threads.
    ghost ready: { Self → Type 0 } = { λ _. Unit {0} };

    /// What a change of the policy leaves the open cases.
    fn left(&self, alloc: Global, revision: &Revision, rows: &[Row]) -> Result<Left, Unsolved>
        requires ready { ready self.now }
        requires planned { ArePlanned revision.now.before.now rows.now }
        ensures { IfOk result (IsLeft revision.now.after.now (open_in rows.now)) };

    /// The open cases that a change of the policy would strand.
    fn stranded(
        &self,
        alloc: Global,
        revision: &Revision,
        rows: &[Row],
    ) -> Result<CaseList, Unsolved>
        requires ready { ready self.now }
        requires planned { ArePlanned revision.now.before.now rows.now }
        ensures { IfOk result (AreStrandedIn revision.now.after.now rows.now) };

    /// The steps of the open cases that a user would be granted.
    fn work(&self, alloc: Global, p: &Policy, u: UserId, rows: &[Row]) -> Result<WorkList, Unsolved>
        requires ready { ready self.now }
        requires planned { ArePlanned p.now rows.now }
        requires user { u < length p.now.roster.users }
        ensures { IfOk result (IsWorkIn p.now u rows.now) };
}
