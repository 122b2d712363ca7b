//! Who finds verdicts.
ghost use Rattle.std.specs.Prelude.{◌≡◌, IfSome, Ok};
ghost use Rattle.wf_board.specs.Boards.{book_of, book_on};
ghost use Rattle.wf_board.specs.Deeds.{DecidesDeed};
ghost use Rattle.wf_board.specs.Laws.Found.{IsFound};
ghost use Rattle.wf_board.specs.Laws.Kept.{ArePlanned};
ghost use Rattle.wf_board.specs.Verdicts.{Decides, IsPlanFor};

use crate::{Deed, Refused, Snap, Verdict, decision_aside};
use constraint_forms::Plan;
use grant_table::Cases;
use policy_book::Policy;
use std::alloc::Global;
use wf_talk::Ask;

/// Finds verdicts on snapshots.
pub trait Decider {
    /// What a decider needs of itself, as a bound of its own on threads.
    ghost ready: { Self → Type 0 } = { λ _. Unit {0} };

    /// The right verdict on what is asked, for a snapshot that was taken for it.
    fn decide(&self, alloc: Global, snap: &Snap, ask: &Ask) -> Verdict
        requires { ready self.now }
        ensures { Decides (book_on snap.now) ask.now result }
    {
        match decision_aside(alloc, snap.policy(), snap.cases(), ask) {
            Ok(deed) => self.decide_deed(alloc, snap.policy(), snap.cases(), &deed),
            Err(refused) => no_verdict(refused),
        }
    }

    /// The right verdict on a deed against which there is no cause, on a policy and its cases.
    fn decide_deed(&self, alloc: Global, p: &Policy, cases: &Cases, deed: &Deed) -> Verdict
        requires ready { ready self.now }
        requires kept { ArePlanned p.now cases.now.rows }
        requires found { IsFound p.now cases.now.rows deed.now }
        ensures { DecidesDeed (book_of p.now cases.now) deed.now result };

    /// A plan for such a deed, where one is at hand: found with no search.
    fn decide_near(&self, p: &Policy, cases: &Cases, deed: &Deed) -> Option<Plan>
        requires ready { ready self.now }
        requires kept { ArePlanned p.now cases.now.rows }
        requires found { IsFound p.now cases.now.rows deed.now }
        ensures { IfSome result (IsPlanFor (book_of p.now cases.now) (Ok deed.now)) };
}

// None is needed where an earlier check denies what is asked.
fn no_verdict(_: Refused) -> Verdict
    ensures { result ≡ Verdict.Nothing }
{
    Verdict::Nothing
}
