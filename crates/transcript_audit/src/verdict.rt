//! The verdict that is needed to take a reply.
ghost use Rattle.std.specs.Prelude.{◌≡◌, ◌≢◌, false, true};
ghost use Rattle.wf_board.specs.Admit.{HasVerdict};
ghost use Rattle.wf_board.specs.Boards.{state_on};
ghost use Rattle.wf_board.specs.Decisions.{decision_of, needs_verdict};
ghost use Rattle.wf_board.specs.Verdicts.{is_want, IsRight};
ghost use Rattle.transcript_audit.specs.Keeping.{asks_of_all};

use std::alloc::Global;
use wf_board::{Board, Decider, Verdict};
use wf_talk::{Ask, Reply, Request};

/// A decider's verdict for an edit or a view over the open cases, against which there is no cause.
/// Nothing else needs one: a plan or a tree in a reply is checked by itself, and want of memory may
/// stand for any reply, so nothing is searched for it.
pub(crate) fn verdict_for<V: Decider>(
    board: &Board,
    alloc: Global,
    decider: &V,
    ask: &Ask,
    reply: &Reply,
) -> Verdict
    requires ready { V.ready decider.now }
    ensures right { IsRight (state_on board.now).book ask.now result }
    ensures verdict { is_want result ≡ false
        → HasVerdict (state_on board.now) ask.now reply.now result }
{
    if matches!(reply, Reply::NoMemory) {
        return Verdict::Nothing;
    }
    if asks_of_all(ask) && board.needs(ask) {
        found(board, alloc, decider, ask)
    } else {
        Verdict::Nothing
    }
}

/// The verdict of a decider.
fn found<V: Decider>(board: &Board, alloc: Global, decider: &V, ask: &Ask) -> Verdict
    requires ready { V.ready decider.now }
    requires needed { needs_verdict (decision_of (state_on board.now).book ask.now) ≡ true }
    ensures right { IsRight (state_on board.now).book ask.now result }
    ensures given { result ≢ Verdict.Nothing }
{
    match board.snap(alloc, ask) {
        Ok(snap) => decider.decide(alloc, &snap, ask),
        Err(_) => Verdict::NoMemory,
    }
}

/// Whether this is an edit of the policy or a view over the open cases.
fn asks_of_all(ask: &Ask) -> bool
    ensures { result ≡ asks_of_all ask.now }
{
    matches!(
        ask,
        Ask::Request(Request::Change { .. } | Request::Worklist { .. } | Request::WhatIf { .. })
    )
}
