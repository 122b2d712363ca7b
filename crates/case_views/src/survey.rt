//! What the open cases give to an edit or a view.
ghost use Rattle.std.specs.Prelude.{◌≡◌, true, IfOk};
ghost use Rattle.admin_edits.specs.Laws.Edits.{amended};
ghost use Rattle.wf_board.specs.Boards.{book_of};
ghost use Rattle.wf_board.specs.Deeds.{DecidesDeed, is_over_open};
ghost use Rattle.wf_board.specs.Laws.Found.{IsAllowed, IsFound};
ghost use Rattle.wf_board.specs.Laws.Kept.{ArePlanned};
ghost use Rattle.wf_board.specs.Laws.States.{open_cases};
ghost use Rattle.wf_board.specs.Views.{AreStranded};
ghost use Rattle.case_views.specs.Deciding.{DecidesChange};

use crate::decider::verdict_without;
use crate::edit_decider::edition_of;
use crate::lister::Lister;
use admin_edits::{Amendment, amended};
use grant_table::Cases;
use policy_book::Policy;
use std::alloc::Global;
use wf_board::{Deed, Revision, Verdict, View};
use wf_talk::CaseList;
use wsp_solver::Unsolved;

/// A policy with its cases, and who lists what these give.
#[derive(Drop)]
pub(crate) struct Survey<'s, L> {
    pub(crate) lister: &'s L,
    pub(crate) alloc: Global,
    pub(crate) policy: &'s Policy,
    pub(crate) cases: &'s Cases,
}

impl<L: Lister> Survey<'_, L> {
    /// The verdict on an edit or a view.
    pub(crate) fn verdict(&self, deed: &Deed) -> Verdict
        requires ready { L.ready self.now.lister.now }
        requires kept { ArePlanned self.now.policy.now self.now.cases.now.rows }
        requires found { IsFound self.now.policy.now self.now.cases.now.rows deed.now }
        requires over { is_over_open deed.now ≡ true }
        ensures { DecidesDeed (book_of self.now.policy.now self.now.cases.now) deed.now result }
    {
        match self.listed(deed) {
            Ok(verdict) => verdict,
            Err(unfound) => verdict_without(unfound),
        }
    }

    fn listed(&self, deed: &Deed) -> Result<Verdict, Unsolved>
        requires ready { L.ready self.now.lister.now }
        requires kept { ArePlanned self.now.policy.now self.now.cases.now.rows }
        requires found { IsFound self.now.policy.now self.now.cases.now.rows deed.now }
        requires over { is_over_open deed.now ≡ true }
        ensures { IfOk result (DecidesDeed (book_of self.now.policy.now self.now.cases.now)
            deed.now) }
    {
        match deed {
            Deed::Change { amendment } => self.edited(amendment),
            Deed::Work { user } => {
                let items = self
                    .lister
                    .work(self.alloc, self.policy, *user, self.cases.rows())?;
                Ok(Verdict::View(View::Work(items)))
            }
            Deed::WhatIf { amendment } => {
                let numbers = self.stranded(amendment)?;
                Ok(Verdict::View(View::WhatIf(numbers)))
            }
            _ => unreachable!(),
        }
    }

    // The verdict on a change of the policy.
    fn edited(&self, a: &Amendment) -> Result<Verdict, Unsolved>
        requires ready { L.ready self.now.lister.now }
        requires kept { ArePlanned self.now.policy.now self.now.cases.now.rows }
        requires allowed { IsAllowed self.now.policy.now a.now }
        ensures { IfOk result (DecidesChange (book_of self.now.policy.now self.now.cases.now)
            a.now) }
    {
        let after = amended(self.policy, *a)?;
        let revision = Revision::of(self.policy, a, &after);
        let left = self.lister.left(self.alloc, &revision, self.cases.rows())?;
        Ok(edition_of(self.alloc, after, left)?)
    }

    /// The open cases that a change of the policy would strand.
    pub(crate) fn stranded(&self, a: &Amendment) -> Result<CaseList, Unsolved>
        requires ready { L.ready self.now.lister.now }
        requires kept { ArePlanned self.now.policy.now self.now.cases.now.rows }
        requires allowed { IsAllowed self.now.policy.now a.now }
        ensures { IfOk result (AreStranded (amended self.now.policy.now a.now)
            (open_cases (book_of self.now.policy.now self.now.cases.now).cases)) }
    {
        let after = amended(self.policy, *a)?;
        let revision = Revision::of(self.policy, a, &after);
        self.lister
            .stranded(self.alloc, &revision, self.cases.rows())
    }
}
