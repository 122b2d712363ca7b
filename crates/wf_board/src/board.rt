//! The board: a policy and its cases.
ghost use Rattle.std.specs.Prelude.{◌≡◌, ◌≢◌, ◌<◌, ◌≤◌, ◌+◌, ◌↔◌, map, false, true, IfOk, IfSome};
ghost use Rattle.std.specs.Prelude.{Ok, OnErr, OnOk, Some};
ghost use Rattle.std.specs.Arc.{arc_value};
ghost use Rattle.wf_board.specs.Admit.{HasAdmittedStep, HasVerdict};
ghost use Rattle.wf_board.specs.Boards.{book_of, state_on};
ghost use Rattle.wf_board.specs.Decisions.{decision_aside, decision_of, needs_plan, needs_verdict};
ghost use Rattle.wf_board.specs.Deeds.{answered_of, is_over_open, FitsDeed, HasSettled};
ghost use Rattle.wf_board.specs.Deeds.{HasStepped, IsUndecided, Leaves, LeavesBy};
ghost use Rattle.wf_board.specs.Laws.Found.{IsAllowed, IsFound};
ghost use Rattle.wf_board.specs.Laws.KeptPlans.{kept_plans, KeepsPlans, KeepsPlansBy};
ghost use Rattle.wf_board.specs.Laws.Kept.{AreNumbered, ArePlanned, IsSoundState, KeepsCompletable};
ghost use Rattle.wf_board.specs.Laws.States.{opening_state};
ghost use Rattle.wf_board.specs.Laws.Steps.{room_taken, state_after_step};
ghost use Rattle.wf_board.specs.Taking.{keeps_policy, KeepsAll};
ghost use Rattle.wf_board.specs.Verdicts.{has_shown_large, HasAnswered, IsCertified, IsDecided};
ghost use Rattle.wf_board.specs.Verdicts.{IsEditionFor, IsPlanFor, IsRight, MayLackMemory};
ghost use Rattle.wf_board.specs.Verdicts.{room_used, snap_of, snap_rows, UsesVerdict};

use crate::admit::{NotStep, admit};
use crate::certified::accepts;
use crate::decision::needs_verdict;
use crate::harmless::unbroken;
use crate::taking::{answer, step, take, take_plan};
use crate::{AdmitFault, Answered, Decider, Deed, Edition, Snap, Stepped, Verdict};
use admin_edits::Amendment;
use basics::Fault;
use constraint_forms::Plan;
use grant_table::Cases;
use policy_book::Policy;
use std::alloc::{AllocError, Global};
use std::marker::Model;
use std::sync::Arc;
use wf_talk::{Ask, Reply, Request};

/// The policy with its cases and the count of accepted edits. Each open case has a plan by which
/// it can be completed, and there is a case at each number below the next.
#[derive(Drop)]
pub struct Board {
    policy: Arc<Policy, Global>,
    cases: Cases,
    edits: u32,
}

impl Model for Board {
    ghost use Rattle.std.specs.Arc.{arc_value};
    ghost use Rattle.std.specs.Coded.{codes};
    ghost use Rattle.policy_book.specs.Laws.Shapes.{policy_code};
    ghost use Rattle.wf_board.specs.Boards.{BoardShape};
    ghost use Rattle.wf_board.specs.Laws.Kept.{AreNumbered, ArePlanned};

    ghost Value = { BoardShape };

    ghost coded = { Prim.hlevel (codes, policy_code) };

    ghost view = { λ b. record { policy = arc_value b.policy; cases = b.cases; edits = b.edits } };

    ghost invariant = { λ b. ArePlanned (arc_value b.policy) b.cases.rows ×
        AreNumbered b.cases.rows b.cases.ever };
}

impl Board {
    /// A board on which no case was opened.
    pub fn new(alloc: Global, policy: Policy) -> Result<Board, AllocError>
        ensures { IfOk result (λ b. state_on b ≡ opening_state policy) }
    {
        Board::of(alloc, Arc::new(alloc, policy)?)
    }

    /// A board of a policy that is shared, on which no case was opened.
    pub fn of(alloc: Global, policy: Arc<Policy, Global>) -> Result<Board, AllocError>
        ensures { IfOk result (λ b. state_on b ≡ opening_state (arc_value policy)) }
    {
        Ok(Board {
            policy,
            cases: Cases::new(alloc)?,
            edits: 0,
        })
    }

    /// Makes room, so that the next `more` openings take no memory.
    pub fn reserve(&mut self, more: u16) -> Result<(), AllocError>
        ensures room { OnOk result (more ≤ self.new.cases.spare) }
        ensures kept { self.old.cases.spare ≤ self.new.cases.spare }
        ensures same { self.new ≡ record self.old
            { cases = record self.old.cases { spare = self.new.cases.spare } } }
        ensures unchanged { OnErr result (self.new ≡ self.old) }
    {
        self.cases.reserve(more)
    }

    /// Answers what a line asks, and takes the step. Where nothing but whether cases can be
    /// completed is left to decide, a verdict decides, which has to be right. There may have been
    /// fewer than 4,294,967,295 edits.
    ///
    /// The list of roles of a denied claim takes memory, and an opening without room. Only a case
    /// that is opened takes a place of the room.
    pub fn answer(&mut self, alloc: Global, ask: &Ask, verdict: Verdict) -> Answered
        requires right { IsRight (state_on self.old).book ask.now verdict }
        requires few { self.old.edits < 4294967295 }
        ensures answered { HasAnswered self.old self.new ask.now verdict result }
        ensures used { needs_verdict (decision_of (state_on self.old).book ask.now) ≡ true
            → UsesVerdict verdict result }
        ensures memory { result ≡ Answered.Done Reply.NoMemory
            → MayLackMemory self.old ask.now verdict }
        ensures small { has_shown_large result ≡ false }
        ensures left { LeavesBy self.old self.new ask.now verdict result }
        ensures room { self.old.cases.spare ≤ self.new.cases.spare + 1 }
    {
        match verdict {
            Verdict::Edited(edition) => Answered::Done(Reply::Edited {
                number: self.edit(ask, edition),
            }),
            other => {
                let policy: &Policy = &self.policy;
                answer(alloc, policy, &mut self.cases, ask, other)
            }
        }
    }

    /// Takes the step of a reply that somebody else gave to what a line asks, if it is one. A plan
    /// or a tree in the reply is checked by itself; an edit or a view over the open cases, against
    /// which there is no cause, needs a verdict, which has to be right. There may have been fewer
    /// than 4,294,967,295 edits.
    pub fn admit(
        &mut self,
        alloc: Global,
        ask: &Ask,
        reply: &Reply,
        verdict: Verdict,
    ) -> Result<(), AdmitFault>
        requires right { IsRight (state_on self.old).book ask.now verdict }
        requires few { self.old.edits < 4294967295 }
        requires verdict { HasVerdict (state_on self.old) ask.now reply.now verdict }
        ensures { HasAdmittedStep self.old self.new ask.now verdict reply.now result }
    {
        match verdict {
            Verdict::Edited(edition) => self.admit_edit(ask, reply, edition),
            other => self.admit_kept(alloc, ask, reply, &other),
        }
    }

    /// Takes the step of a reply by which the policy stays.
    fn admit_kept(
        &mut self,
        alloc: Global,
        ask: &Ask,
        reply: &Reply,
        verdict: &Verdict,
    ) -> Result<(), AdmitFault>
        requires right { IsRight (state_on self.old).book ask.now verdict.now }
        requires same { keeps_policy verdict.now ≡ true }
        requires verdict { HasVerdict (state_on self.old) ask.now reply.now verdict.now }
        ensures { HasAdmittedStep self.old self.new ask.now verdict.now reply.now result }
    {
        let policy: &Policy = &self.policy;
        admit(alloc, policy, &mut self.cases, ask, reply, verdict)
    }

    /// Takes the step of a reply to an edit that leaves each open case a plan.
    fn admit_edit(&mut self, ask: &Ask, reply: &Reply, edition: Edition) -> Result<(), AdmitFault>
        requires right { IsEditionFor (state_on self.old).book
            (decision_aside (state_on self.old).book ask.now) edition }
        requires few { self.old.edits < 4294967295 }
        ensures { HasAdmittedStep self.old self.new ask.now (Verdict.Edited edition)
            reply.now result }
    {
        let _sound = self.policy();
        match reply {
            Reply::NoMemory => Ok(()),
            Reply::Edited { number } => self.admit_edited(ask, *number, edition),
            _ => Err(Fault::Cause(NotStep)),
        }
    }

    /// Takes an accepted edit, if its number is the next.
    fn admit_edited(&mut self, ask: &Ask, number: u32, edition: Edition) -> Result<(), AdmitFault>
        requires right { IsEditionFor (state_on self.old).book
            (decision_aside (state_on self.old).book ask.now) edition }
        requires few { self.old.edits < 4294967295 }
        ensures { HasAdmittedStep self.old self.new ask.now (Verdict.Edited edition)
            (Reply.Edited number) result }
    {
        if number != self.edits + 1 {
            return Err(Fault::Cause(NotStep));
        }
        self.edit(ask, edition);
        Ok(())
    }

    /// Takes the policy after an edit, and with it the plans that the open cases have under it, and
    /// answers the number of the edit.
    fn edit(&mut self, ask: &Ask, edition: Edition) -> u32
        requires right { IsEditionFor (state_on self.old).book
            (decision_aside (state_on self.old).book ask.now) edition }
        requires few { self.old.edits < 4294967295 }
        ensures answered { HasAnswered self.old self.new ask.now (Verdict.Edited edition)
            (Answered.Done (Reply.Edited result)) }
        ensures plans { kept_plans self.new.cases.rows ≡ map Some edition.plans }
        ensures number { result ≡ self.old.edits + 1 }
        ensures spare { self.new.cases.spare ≡ self.old.cases.spare }
    {
        let _ = ask;
        let before: &Policy = &self.policy;
        let _sound = before.admin();
        let _planned = self.cases.live();
        let (policy, plans) = edition.into_parts();
        self.policy = policy;
        self.cases.replace_plans(plans.as_slice());
        self.edits += 1;
        self.edits
    }

    /// Whether nothing but whether cases can be completed is left to decide, so that the answer
    /// needs a verdict. Takes no memory.
    pub fn needs(&self, ask: &Ask) -> bool
        ensures { result ≡ needs_verdict (decision_of (state_on self.now).book ask.now) }
    {
        let policy: &Policy = &self.policy;
        needs_verdict(policy, &self.cases, ask)
    }

    /// Whether a verdict is a plan or a tree that decides what is asked, with no cause against it.
    /// Takes no memory.
    pub fn accepts(&self, ask: &Ask, verdict: &Verdict) -> bool
        ensures { result ≡ true ↔ IsCertified (state_on self.now).book ask.now verdict.now }
    {
        let policy: &Policy = &self.policy;
        accepts(policy, &self.cases, ask, verdict)
    }

    /// What has to be known to find a verdict on what is asked: the one case of a claim, and the
    /// open cases for an edit or a view over them.
    pub fn snap(&self, alloc: Global, ask: &Ask) -> Result<Snap, AllocError>
        ensures { IfOk result (λ s. s ≡ snap_of self.now ask.now s.cases.spare) }
    {
        let cases = cases_for(alloc, &self.cases, ask)?;
        Ok(Snap::of(Arc::try_clone(&self.policy)?, cases))
    }

    /// Answers what a line asks, and takes the step, with a verdict, which has to be right. Where
    /// one is needed and none is given, a decider's is.
    pub fn decide<V: Decider>(
        &mut self,
        alloc: Global,
        decider: &V,
        ask: &Ask,
        verdict: Verdict,
    ) -> Reply
        requires ready { V.ready decider.now }
        requires right { IsRight (state_on self.old).book ask.now verdict }
        requires few { self.old.edits < 4294967295 }
        ensures decided { IsDecided self.old ask.now verdict result }
        ensures next { state_on self.new ≡ state_after_step (state_on self.old) ask.now result }
        ensures left { Leaves self.old self.new ask.now verdict result }
        ensures room { self.old.cases.spare ≤ self.new.cases.spare + 1 }
    {
        match verdict {
            Verdict::Nothing => self.decide_anew(alloc, decider, ask),
            given => match self.answer(alloc, ask, given) {
                Answered::Done(reply) => reply,
                Answered::Needs => unreachable!(),
            },
        }
    }

    /// Answers what a line asks, with the verdict of a decider where one is needed.
    fn decide_anew<V: Decider>(&mut self, alloc: Global, decider: &V, ask: &Ask) -> Reply
        requires ready { V.ready decider.now }
        requires few { self.old.edits < 4294967295 }
        ensures decided { IsDecided self.old ask.now Verdict.Nothing result }
        ensures next { state_on self.new ≡ state_after_step (state_on self.old) ask.now result }
        ensures left { Leaves self.old self.new ask.now Verdict.Nothing result }
        ensures room { self.old.cases.spare ≤ self.new.cases.spare + 1 }
    {
        match self.step(alloc, ask) {
            Stepped::Done(reply) => reply,
            Stepped::Undecided(deed) => self.settle(alloc, decider, ask, deed),
        }
    }

    /// Answers what a line asks where it needs no verdict, and takes the step. Else it gives the
    /// deed, and nothing changes.
    pub fn step(&mut self, alloc: Global, ask: &Ask) -> Stepped
        ensures stepped { HasStepped self.old self.new ask.now result }
        ensures plans { KeepsPlansBy self.old self.new ask.now Verdict.Nothing
            (answered_of result) }
        ensures lacking { result ≡ Stepped.Done Reply.NoMemory → self.new ≡ self.old }
        ensures room { self.old.cases.spare ≤ self.new.cases.spare + 1 }
        ensures spare { self.old.cases.spare
            ≤ self.new.cases.spare + room_used (answered_of result) }
    {
        let policy: &Policy = &self.policy;
        step(alloc, policy, &mut self.cases, ask)
    }

    /// Answers a request of which the deed is left to decide. An edit that hurts no plan needs no
    /// search.
    pub fn settle<V: Decider>(&mut self, alloc: Global, decider: &V, ask: &Ask, deed: Deed) -> Reply
        requires ready { V.ready decider.now }
        requires undecided { IsUndecided self.old.policy self.old.cases ask.now deed }
        requires few { self.old.edits < 4294967295 }
        ensures settled { HasSettled self.old self.new ask.now Verdict.Nothing result }
        ensures room { self.old.cases.spare ≤ self.new.cases.spare + 1 }
    {
        match deed {
            Deed::Change { amendment } => self.settle_change(alloc, decider, ask, amendment),
            other => self.settle_by(alloc, decider, ask, other),
        }
    }

    /// Answers a change of the policy that is left to decide. Where the kept plans stay valid under
    /// it, it is taken, and nothing has to be found.
    fn settle_change<V: Decider>(
        &mut self,
        alloc: Global,
        decider: &V,
        ask: &Ask,
        change: Amendment,
    ) -> Reply
        requires ready { V.ready decider.now }
        requires undecided { IsUndecided self.old.policy self.old.cases
            ask.now (Deed.Change change) }
        requires few { self.old.edits < 4294967295 }
        ensures settled { HasSettled self.old self.new ask.now Verdict.Nothing result }
        ensures room { self.old.cases.spare ≤ self.new.cases.spare + 1 }
    {
        match self.unbroken(alloc, &change) {
            Ok(kept) => self.settle_kept(alloc, decider, ask, change, kept),
            Err(_) => Reply::NoMemory,
        }
    }

    /// The policy after a change, where the kept plans stay valid under it.
    fn unbroken(
        &self,
        alloc: Global,
        change: &Amendment,
    ) -> Result<Option<Arc<Policy, Global>>, AllocError>
        requires { IsAllowed self.now.policy change.now }
        ensures { IfOk result (λ after. IfSome after
            (λ q. KeepsAll self.now.policy change.now self.now.cases.rows (arc_value q))) }
    {
        let policy: &Policy = &self.policy;
        unbroken(alloc, policy, change, &self.cases)
    }

    /// Answers a change of the policy that is left to decide: with the policy after it, where the
    /// kept plans stay valid under that, and else by the verdict of a decider.
    fn settle_kept<V: Decider>(
        &mut self,
        alloc: Global,
        decider: &V,
        ask: &Ask,
        change: Amendment,
        kept: Option<Arc<Policy, Global>>,
    ) -> Reply
        requires ready { V.ready decider.now }
        requires undecided { IsUndecided self.old.policy self.old.cases
            ask.now (Deed.Change change) }
        requires kept { IfSome kept
            (λ q. KeepsAll self.old.policy change self.old.cases.rows (arc_value q)) }
        requires few { self.old.edits < 4294967295 }
        ensures settled { HasSettled self.old self.new ask.now Verdict.Nothing result }
        ensures room { self.old.cases.spare ≤ self.new.cases.spare + 1 }
    {
        match kept {
            Some(after) => self.change(ask, change, after),
            None => self.settle_by(alloc, decider, ask, Deed::Change { amendment: change }),
        }
    }

    /// Answers a request of which the deed is left to decide, by the verdict of a decider.
    fn settle_by<V: Decider>(&mut self, alloc: Global, decider: &V, ask: &Ask, deed: Deed) -> Reply
        requires ready { V.ready decider.now }
        requires undecided { IsUndecided self.old.policy self.old.cases ask.now deed }
        requires few { self.old.edits < 4294967295 }
        ensures settled { HasSettled self.old self.new ask.now Verdict.Nothing result }
        ensures room { self.old.cases.spare ≤ self.new.cases.spare + 1 }
    {
        let found = self.verdict(alloc, decider, &deed);
        self.take(ask, deed, found)
    }

    /// Answers a request of which the deed is left to decide, by a verdict on the deed.
    pub fn take(&mut self, ask: &Ask, deed: Deed, verdict: Verdict) -> Reply
        requires undecided { IsUndecided self.old.policy self.old.cases ask.now deed }
        requires fits { FitsDeed (state_on self.old).book deed verdict }
        requires given { verdict ≢ Verdict.Nothing }
        requires few { self.old.edits < 4294967295 }
        ensures settled { HasSettled self.old self.new ask.now verdict result }
        ensures room { self.old.cases.spare ≤ self.new.cases.spare + 1 }
    {
        match verdict {
            Verdict::Edited(edition) => Reply::Edited {
                number: self.edit(ask, edition),
            },
            other => {
                let policy: &Policy = &self.policy;
                take(policy, &mut self.cases, ask, deed, other)
            }
        }
    }

    /// A plan for a deed that is left to decide, where a decider has one at hand.
    pub fn near_plan<V: Decider>(&self, decider: &V, deed: &Deed) -> Option<Plan>
        requires ready { V.ready decider.now }
        requires found { IsFound self.now.policy self.now.cases.rows deed.now }
        ensures { IfSome result (IsPlanFor (state_on self.now).book (Ok deed.now)) }
    {
        let policy: &Policy = &self.policy;
        decider.decide_near(policy, &self.cases, deed)
    }

    /// Answers a request of which the deed is left to decide, by a plan for the deed.
    pub fn take_plan(&mut self, ask: &Ask, deed: Deed, plan: Plan) -> Reply
        requires undecided { IsUndecided self.old.policy self.old.cases ask.now deed }
        requires plan { IsPlanFor (state_on self.old).book (Ok deed) plan }
        ensures decided { IsDecided self.old ask.now (Verdict.Plan plan) result }
        ensures plans { KeepsPlans self.old self.new ask.now (Verdict.Plan plan) result }
        ensures next { state_on self.new ≡ state_after_step (state_on self.old) ask.now result }
        ensures lacking { result ≡ Reply.NoMemory → self.new ≡ self.old }
        ensures room { self.old.cases.spare ≤ self.new.cases.spare + 1 }
        ensures spare { self.old.cases.spare ≤ self.new.cases.spare + room_taken result }
    {
        let policy: &Policy = &self.policy;
        take_plan(policy, &mut self.cases, ask, deed, plan)
    }

    /// Takes a changed policy under which the plans stay.
    fn change(&mut self, ask: &Ask, change: Amendment, after: Arc<Policy, Global>) -> Reply
        requires undecided { IsUndecided self.old.policy self.old.cases
            ask.now (Deed.Change change) }
        requires kept { KeepsAll self.old.policy change self.old.cases.rows (arc_value after) }
        requires few { self.old.edits < 4294967295 }
        ensures settled { HasSettled self.old self.new ask.now Verdict.Nothing result }
        ensures taken { result ≡ Reply.Edited (self.old.edits + 1) }
        ensures spare { self.new.cases.spare ≡ self.old.cases.spare }
    {
        let _ = ask;
        let _ = change;
        let number = self.edits + 1;
        self.policy = after;
        self.edits = number;
        Reply::Edited { number }
    }

    /// The verdict of a decider on a deed. An edit or a view over the open cases is decided over
    /// these alone.
    fn verdict<V: Decider>(&self, alloc: Global, decider: &V, deed: &Deed) -> Verdict
        requires ready { V.ready decider.now }
        requires found { IsFound self.now.policy self.now.cases.rows deed.now }
        requires needed { needs_plan deed.now ≡ true }
        ensures fits { FitsDeed (state_on self.now).book deed.now result }
        ensures given { result ≢ Verdict.Nothing }
    {
        let policy: &Policy = &self.policy;
        match deed {
            Deed::Open { .. } | Deed::Claim(_) => {
                decider.decide_deed(alloc, policy, &self.cases, deed)
            }
            _ => over_open(alloc, decider, policy, &self.cases, deed),
        }
    }

    /// The policy.
    pub fn policy(&self) -> &Policy
        ensures policy { result.now ≡ self.now.policy }
        ensures sound { IsSoundState (state_on self.now) }
        ensures kept { KeepsCompletable (state_on self.now) }
    {
        let policy: &Policy = &self.policy;
        let _sound = policy.admin();
        policy
    }

    /// The cases with their kept plans.
    pub fn cases(&self) -> &Cases
        ensures cases { result.now ≡ self.now.cases }
        ensures kept { ArePlanned self.now.policy self.now.cases.rows }
        ensures numbered { AreNumbered self.now.cases.rows self.now.cases.ever }
    {
        &self.cases
    }

    /// How many edits were accepted.
    pub fn number(&self) -> u32
        ensures { result ≡ self.now.edits }
    {
        self.edits
    }

    /// A board with the same policy, cases and plans.
    pub fn copy(&self) -> Result<Board, AllocError>
        ensures { IfOk result (λ b. b ≡ record self.now
            { cases = record self.now.cases { spare = b.cases.spare } }) }
    {
        Ok(Board {
            policy: Arc::try_clone(&self.policy)?,
            cases: self.cases.copy()?,
            edits: self.edits,
        })
    }
}

/// The verdict of a decider on an edit or a view, over the open cases.
fn over_open<V: Decider>(
    alloc: Global,
    decider: &V,
    p: &Policy,
    cases: &Cases,
    deed: &Deed,
) -> Verdict
    requires ready { V.ready decider.now }
    requires kept { ArePlanned p.now cases.now.rows }
    requires found { IsFound p.now cases.now.rows deed.now }
    requires over { is_over_open deed.now ≡ true }
    ensures fits { FitsDeed (book_of p.now cases.now) deed.now result }
    ensures given { result ≢ Verdict.Nothing }
{
    match cases.copy_open(alloc) {
        Ok(open) => decider.decide_deed(alloc, p, &open, deed),
        Err(_) => Verdict::NoMemory,
    }
}

/// The one case of a claim, the open cases for an edit or a view over them, and else none.
fn cases_for(alloc: Global, cases: &Cases, ask: &Ask) -> Result<Cases, AllocError>
    ensures { IfOk result (λ t. t ≡ record cases.now
        { rows = snap_rows cases.now.rows ask.now; spare = t.spare }) }
{
    match *ask {
        Ask::Request(Request::Claim { case, .. }) => cases.copy_one(alloc, case),
        Ask::Request(Request::Change { .. } | Request::Worklist { .. } | Request::WhatIf { .. }) =>
            cases.copy_open(alloc),
        _ => Ok(cases.copy_none(alloc)),
    }
}
