//! Takes replies that somebody else gave, over a policy and its table of cases.
ghost use Rattle.std.specs.Prelude.{◌≡◌, ◌≢◌, ◌↔◌, None, Ok, true};
ghost use Rattle.wf_names.specs.States.{is_done, is_held};
ghost use Rattle.case_record.specs.Cases.{finished_case, state_at, CaseShape};
ghost use Rattle.wf_talk.specs.declared.reply.Reply.TheVariants as replies;
ghost use Rattle.wf_board.specs.declared.deed.Deed.TheVariants as deeds;
ghost use Rattle.wf_board.specs.Admission.{when, HasAdmitted, IsVerdictFor};
ghost use Rattle.wf_board.specs.Admit.{HasVerdict};
ghost use Rattle.wf_board.specs.Boards.{book_of, state_on};
ghost use Rattle.wf_board.specs.Decisions.{cause_aside, decision_of};
ghost use Rattle.wf_board.specs.Laws.Found.{IsFound, IsOpenAt};
ghost use Rattle.wf_board.specs.Taking.{board_of, full_or, keeps_policy, IsUnhindered, IsHeldAt};
ghost use Rattle.wf_board.specs.Taking.{IsKept};
ghost use Rattle.wf_board.specs.Verdicts.{IsRight};

use crate::alike::{is_denied, is_face};
use crate::decision::decision_of;
use crate::granted::{admit_claim, admit_opening};
use crate::strands::admit_change;
use crate::taking::{finish, give_back, withdraw};
use crate::views::admit_view;
use crate::{Deed, Duty, Verdict};
use basics::Fault;
use case_record::Case;
use grant_table::Cases;
use policy_book::Policy;
use std::alloc::{AllocError, Global};
use wf_names::{CaseId, StepId};
use wf_talk::{Ask, Bad, Reply};

/// A reply is no step of the session.
#[derive(Clone, Copy)]
pub struct NotStep;

/// Why a reply is not taken.
pub type AdmitFault = Fault<NotStep>;

/// Takes the step of a reply, if it is one, under the same policy.
pub(crate) fn admit(
    alloc: Global,
    p: &Policy,
    cases: &mut Cases,
    ask: &Ask,
    reply: &Reply,
    verdict: &Verdict,
) -> Result<(), AdmitFault>
    requires kept { IsKept p.now cases.old }
    requires right { IsRight (book_of p.now cases.old) ask.now verdict.now }
    requires same { keeps_policy verdict.now ≡ true }
    requires verdict { HasVerdict (state_on (board_of p.now cases.old 0)) ask.now reply.now
        verdict.now }
    ensures { HasAdmitted p.now cases.old cases.new (decision_of (book_of p.now cases.old) ask.now)
        reply.now result }
{
    if is_want(reply) {
        return Ok(());
    }
    match decision_of(alloc, p, cases, ask) {
        Ok(deed) => perform(p, cases, deed, reply, verdict),
        Err(Fault::Cause(cause)) => when(is_denied(reply, &cause)),
        Err(Fault::NoMemory) => Err(Fault::NoMemory),
    }
}

/// Whether a reply is want of memory, which stands in place of any.
fn is_want(reply: &Reply) -> bool
    ensures { result ≡ true ↔ reply.now ≡ replies.NoMemory }
{
    matches!(reply, Reply::NoMemory)
}

/// The fault where the test fails.
pub(crate) fn when(passes: bool) -> Result<(), AdmitFault>
    ensures { result ≡ when passes }
{
    if passes {
        Ok(())
    } else {
        Err(Fault::Cause(NotStep))
    }
}

/// Does a deed as a reply says, if the reply is one to it.
fn perform(
    p: &Policy,
    cases: &mut Cases,
    deed: Deed,
    reply: &Reply,
    verdict: &Verdict,
) -> Result<(), AdmitFault>
    requires ready { IsUnhindered p.now cases.old deed }
    requires room { full_or (book_of p.now cases.old) deed ≡ Ok deed }
    requires given { reply.now ≢ replies.NoMemory }
    requires verdict { IsVerdictFor (book_of p.now cases.old) deed verdict.now }
    ensures { HasAdmitted p.now cases.old cases.new (Ok deed) reply.now result }
{
    match deed {
        Deed::Open { flow } => admit_opening(p, cases, flow, reply),
        Deed::Claim(duty) => admit_claim(p, cases, &duty, reply),
        Deed::Finish(duty) => admit_finish(p, cases, &duty, reply),
        Deed::GiveBack(duty) => admit_return(p, cases, &duty, reply),
        Deed::Release { number, case, step } => {
            admit_release(p, cases, number, &case, step, reply)
        }
        Deed::Withdraw { number } => admit_withdrawal(p, cases, number, reply),
        Deed::Change { amendment } => admit_change(p, cases, amendment, reply, verdict),
        Deed::Show { case } => admit_showing(p, cases, &case, reply),
        Deed::Work { .. } | Deed::WhatIf { .. } => admit_view(p, cases, &deed, reply, verdict),
        Deed::TurnAway { bad } => admit_bad(p, cases, bad, reply),
    }
}

/// Finishes a held step as a reply says, if the reply is one to it.
fn admit_finish(p: &Policy, cases: &mut Cases, duty: &Duty, reply: &Reply) -> Result<(), AdmitFault>
    requires held { IsHeldAt p.now cases.old duty.now.number duty.now.case duty.now.step }
    requires given { reply.now ≢ replies.NoMemory }
    ensures { HasAdmitted p.now cases.old cases.new (Ok (deeds.Finish duty.now)) reply.now result }
{
    match reply {
        Reply::Finished { done } => finish_as(p, cases, duty, *done),
        _ => Err(Fault::Cause(NotStep)),
    }
}

/// Finishes a held step, if it is then told rightly whether it was the last.
fn finish_as(p: &Policy, cases: &mut Cases, duty: &Duty, done: bool) -> Result<(), AdmitFault>
    requires { IsHeldAt p.now cases.old duty.now.number duty.now.case duty.now.step }
    ensures { HasAdmitted p.now cases.old cases.new (Ok (deeds.Finish duty.now))
        (replies.Finished done) result }
{
    if !is_told(&duty.case, duty.step, done) {
        return Err(Fault::Cause(NotStep));
    }
    finish(p, cases, duty);
    Ok(())
}

/// Whether it is told rightly if a case is done once a held step is finished.
fn is_told(case: &Case, s: StepId, done: bool) -> bool
    requires { is_held (state_at case.now s) ≡ true }
    ensures { result ≡ true ↔ done ≡ is_done (finished_case case.now s).phase }
{
    done == is_last(case, s)
}

/// Whether a case is done once a held step is finished.
fn is_last(case: &Case, s: StepId) -> bool
    requires { is_held (state_at case.now s) ≡ true }
    ensures { result ≡ is_done (finished_case case.now s).phase }
{
    let mut finished = *case;
    finished.finish(s)
}

/// Lets go of a held step, if a reply says so.
fn admit_return(p: &Policy, cases: &mut Cases, duty: &Duty, reply: &Reply) -> Result<(), AdmitFault>
    requires held { IsHeldAt p.now cases.old duty.now.number duty.now.case duty.now.step }
    requires given { reply.now ≢ replies.NoMemory }
    ensures { HasAdmitted p.now cases.old cases.new (Ok (deeds.GiveBack duty.now))
        reply.now result }
{
    match reply {
        Reply::Returned => {
            give_back(p, cases, duty.number, &duty.case, duty.step);
            Ok(())
        }
        _ => Err(Fault::Cause(NotStep)),
    }
}

/// Takes a step from its holder, if a reply says so.
fn admit_release(
    p: &Policy,
    cases: &mut Cases,
    n: CaseId,
    case: &Case,
    s: StepId,
    reply: &Reply,
) -> Result<(), AdmitFault>
    requires held { IsHeldAt p.now cases.old n case.now s }
    requires given { reply.now ≢ replies.NoMemory }
    ensures { HasAdmitted p.now cases.old cases.new (Ok (deeds.Release n case.now s))
        reply.now result }
{
    match reply {
        Reply::Released => {
            give_back(p, cases, n, case, s);
            Ok(())
        }
        _ => Err(Fault::Cause(NotStep)),
    }
}

/// Ends an open case, if a reply says so.
fn admit_withdrawal(
    p: &Policy,
    cases: &mut Cases,
    n: CaseId,
    reply: &Reply,
) -> Result<(), AdmitFault>
    requires ready { IsUnhindered p.now cases.old (deeds.Withdraw n) }
    requires given { reply.now ≢ replies.NoMemory }
    ensures { HasAdmitted p.now cases.old cases.new (Ok (deeds.Withdraw n)) reply.now result }
{
    match reply {
        Reply::Withdrawn => {
            withdraw(p, cases, n);
            Ok(())
        }
        _ => Err(Fault::Cause(NotStep)),
    }
}

/// Whether a reply shows a case as it is to be seen.
fn admit_showing(p: &Policy, cases: &Cases, case: &Case, reply: &Reply) -> Result<(), AdmitFault>
    requires kept { IsKept p.now cases.now }
    requires given { reply.now ≢ replies.NoMemory }
    ensures { HasAdmitted p.now cases.now cases.now (Ok (deeds.Show case.now)) reply.now result }
{
    let _ = p;
    let _ = cases;
    match reply {
        Reply::Shown(face) => when(is_face(face, case)),
        _ => Err(Fault::Cause(NotStep)),
    }
}

/// Whether a reply says why a line is no request.
fn admit_bad(p: &Policy, cases: &Cases, bad: Bad, reply: &Reply) -> Result<(), AdmitFault>
    requires kept { IsKept p.now cases.now }
    requires given { reply.now ≢ replies.NoMemory }
    ensures { HasAdmitted p.now cases.now cases.now (Ok (deeds.TurnAway bad)) reply.now result }
{
    let _ = p;
    let _ = cases;
    match reply {
        Reply::Bad(given) => when(*given == bad),
        _ => Err(Fault::Cause(NotStep)),
    }
}
