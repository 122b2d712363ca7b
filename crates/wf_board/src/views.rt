//! Answers views over the open cases, and takes the replies to them that somebody else gave.
ghost use Rattle.std.specs.Prelude.{◌≡◌, ◌≢◌, ◌↔◌, Ok, false, true};
ghost use Rattle.wf_talk.specs.declared.reply.Reply.TheVariants as replies;
ghost use Rattle.wf_board.specs.declared.verdict.Verdict.TheVariants as verdicts;
ghost use Rattle.wf_board.specs.Admission.{is_view_deed, reply_of, HasAdmitted, IsVerdictFor};
ghost use Rattle.wf_board.specs.Boards.{book_of};
ghost use Rattle.wf_board.specs.Decisions.{decision_aside, decision_of};
ghost use Rattle.wf_board.specs.Taking.{HasTakenStep, IsKept};
ghost use Rattle.wf_board.specs.Limits.{shows_large};
ghost use Rattle.wf_board.specs.Verdicts.{IsMadeOf, IsViewFor};

use crate::admit::when;
use crate::{AdmitFault, Deed, Verdict, View};
use grant_table::Cases;
use policy_book::Policy;
use wf_names::CaseId;
use wf_talk::{Ask, Reply, WorkItem};

/// Answers by a view of what is asked for.
pub(crate) fn by_view(p: &Policy, cases: &Cases, ask: &Ask, view: View) -> Reply
    requires kept { IsKept p.now cases.now }
    requires view { IsViewFor (book_of p.now cases.now)
        (decision_aside (book_of p.now cases.now) ask.now) view }
    ensures taken { HasTakenStep p.now cases.now cases.now
        (decision_of (book_of p.now cases.now) ask.now) result }
    ensures made { IsMadeOf (verdicts.View view) result }
    ensures small { shows_large result ≡ false }
    ensures memory { result ≢ replies.NoMemory }
{
    let _ = p;
    let _ = cases;
    let _ = ask;
    match view {
        View::Work(items) => Reply::Work(items),
        View::WhatIf(cases) => Reply::WhatIf(cases),
    }
}

/// Whether a reply is the view that the verdict is.
pub(crate) fn admit_view(
    p: &Policy,
    cases: &Cases,
    deed: &Deed,
    reply: &Reply,
    verdict: &Verdict,
) -> Result<(), AdmitFault>
    requires kept { IsKept p.now cases.now }
    requires view { is_view_deed deed.now ≡ true }
    requires given { reply.now ≢ replies.NoMemory }
    requires verdict { IsVerdictFor (book_of p.now cases.now) deed.now verdict.now }
    ensures { HasAdmitted p.now cases.now cases.now (Ok deed.now) reply.now result }
{
    let _ = p;
    let _ = cases;
    let _ = deed;
    match verdict {
        Verdict::View(view) => when(is_told(reply, view)),
        _ => unreachable!(),
    }
}

/// Whether a reply tells a view.
fn is_told(reply: &Reply, view: &View) -> bool
    ensures { result ≡ true ↔ reply.now ≡ reply_of view.now }
{
    match view {
        View::Work(items) => is_work(reply, items.as_slice()),
        View::WhatIf(cases) => is_what_if(reply, cases.as_slice()),
    }
}

/// Whether a reply is this work list.
fn is_work(reply: &Reply, items: &[WorkItem]) -> bool
    ensures { result ≡ true ↔ reply.now ≡ replies.Work items.now }
{
    match reply {
        Reply::Work(given) => are_items(given.as_slice(), items),
        _ => false,
    }
}

/// Whether a reply is this list of stranded cases.
fn is_what_if(reply: &Reply, cases: &[CaseId]) -> bool
    ensures { result ≡ true ↔ reply.now ≡ replies.WhatIf cases.now }
{
    match reply {
        Reply::WhatIf(given) => are_cases(given.as_slice(), cases),
        _ => false,
    }
}

fn are_items(some: &[WorkItem], others: &[WorkItem]) -> bool
    ensures { result ≡ true ↔ some.now ≡ others.now }
{
    some == others
}

fn are_cases(some: &[CaseId], others: &[CaseId]) -> bool
    ensures { result ≡ true ↔ some.now ≡ others.now }
{
    some == others
}
