//! The decisions over many open cases, by both deciders, of which one spreads the cases over
//! threads, with ample memory.

use crate::fixture::FLOW;
use admin_edits::edit_cause;
use basics::Fault;
use case_views::{PlainDecider, SpreadDecider, what_if, worklist};
use fixtures::PAY;
use std::alloc::{AllocError, Global};
use std::test::Fail;
use std::thread::Threads;
use wf_board::{Board, Decider, Snap, Verdict};
use wf_names::{CaseId, Name, StepId, UserId};
use wf_talk::{Ask, Denial, Edit, Reply, Request, WorkItem};
use wsp_solver::{OverBudget, Unsolved};

/// More than stay on one thread.
const CASES: u16 = 40;

const CYD: UserId = UserId(2);

/// Whether both decide rightly and alike.
pub fn both_deciders_see_the_same<R: Threads + Sync>(rt: &R, alloc: Global) -> Result<bool, Fail> {
    let mut board = payments(alloc)?;
    Ok(all_see(rt, alloc, &mut board)?)
}

fn payments(alloc: Global) -> Result<Board, Fail> {
    let p = policy_reader::read(alloc, PAY.as_bytes())?;
    Ok(Board::new(alloc, p)?)
}

fn all_see<R: Threads + Sync>(
    rt: &R,
    alloc: Global,
    board: &mut Board,
) -> Result<bool, AllocError> {
    Ok(
        prepares(alloc, board)
            && sees(alloc, &PlainDecider, board)
            && sees(alloc, &SpreadDecider::new(rt), board)
            && lists(alloc, board)?
            && is_copied(board)?,
    )
}

fn prepares(alloc: Global, board: &mut Board) -> bool {
    for number in 0..CASES {
        if !prepares_one(alloc, board, CaseId(number)) {
            return false;
        }
    }
    true
}

// Opens a case, and ann prepares it.
fn prepares_one(alloc: Global, board: &mut Board, case: CaseId) -> bool {
    let (Some(flow), Some(step), Some(user)) = (
        Name::read("pay"),
        Name::read("prepare"),
        Name::read("ann"),
    ) else {
        return false;
    };
    is_done(alloc, board, Request::OpenCase { flow })
        && is_done(alloc, board, Request::Claim { case, step, user })
        && is_done(alloc, board, Request::Finish { case, step, user })
}

// Whether a request is done. The plan of an opening is remembered.
fn is_done(alloc: Global, board: &mut Board, request: Request) -> bool {
    match answer(alloc, &PlainDecider, board, request) {
        Reply::Opened { plan, .. } => board.cases().recent_plan(FLOW) == Some(plan),
        Reply::Granted(_) | Reply::Finished { done: false } => true,
        _ => false,
    }
}

// What is answered to a request on a board without edits.
fn answer<V: Decider>(alloc: Global, decider: &V, board: &mut Board, request: Request) -> Reply
    requires { V.ready decider.now }
{
    if board.number() != 0 {
        return Reply::NoMemory;
    }
    board.decide(alloc, decider, &Ask::Request(request), Verdict::Nothing)
}

// Whether a decider sees that cyd may approve each case, and that each needs cyd.
fn sees<V: Decider>(alloc: Global, decider: &V, board: &mut Board) -> bool
    requires { V.ready decider.now }
{
    let Some(requests) = asked() else {
        return false;
    };
    for request in requests {
        if !tells(&answer(alloc, decider, board, request)) {
            return false;
        }
    }
    true
}

// Cyd's work list, what the dismissal would strand, and the dismissal.
fn asked() -> Option<[Request; 3]> {
    let (by, user) = (Name::read("eve")?, Name::read("cyd")?);
    let (what_if, change) = (dismissal()?, dismissal()?);
    Some([
        Request::Worklist { user },
        Request::WhatIf { by, edit: what_if },
        Request::Change { by, edit: change },
    ])
}

// Cyd is dismissed from boss.
fn dismissal() -> Option<Edit> {
    Some(Edit::Dismiss {
        role: Name::read("boss")?,
        user: Name::read("cyd")?,
    })
}

// Whether a reply tells all approvals, all cases, or that the first case would be stranded.
fn tells(reply: &Reply) -> bool {
    match reply {
        Reply::Work(items) => are_approvals(items.as_slice()),
        Reply::WhatIf(cases) => are_all(cases.as_slice()),
        Reply::Denied(Denial::Strands { case, .. }) => *case == CaseId(0),
        _ => false,
    }
}

fn are_approvals(items: &[WorkItem]) -> bool {
    let mut next = 0u16;
    for item in items {
        if item.case != CaseId(next) || item.flow != FLOW || item.step != StepId(1) {
            return false;
        }
        next = next.wrapping_add(1);
    }
    next == CASES
}

fn are_all(cases: &[CaseId]) -> bool {
    let mut next = 0u16;
    for case in cases {
        if *case != CaseId(next) {
            return false;
        }
        next = next.wrapping_add(1);
    }
    next == CASES
}

// Whether the calls of the lists alone tell the same.
fn lists(alloc: Global, board: &Board) -> Result<bool, AllocError> {
    let Some(user) = Name::read("cyd") else {
        return Ok(false);
    };
    let snap = board.snap(alloc, &Ask::Request(Request::Worklist { user }))?;
    match has_lists(alloc, &snap) {
        Ok(told) => Ok(told),
        Err(Fault::NoMemory) => Err(AllocError),
        Err(Fault::Cause(OverBudget)) => Ok(false),
    }
}

fn has_lists(alloc: Global, snap: &Snap) -> Result<bool, Unsolved> {
    if snap.policy().roster().users().len() != 4 {
        return Ok(false);
    }
    Ok(are_approvals(worklist(alloc, snap, CYD)?.as_slice()) && strands(alloc, snap)?)
}

fn strands(alloc: Global, snap: &Snap) -> Result<bool, Unsolved> {
    let (Some(by), Some(edit)) = (Name::read("eve"), dismissal()) else {
        return Ok(false);
    };
    match edit_cause(snap.policy(), &by, &edit) {
        None => Ok(are_all(what_if(alloc, snap, &by, &edit)?.as_slice())),
        Some(_) => Ok(false),
    }
}

fn is_copied(board: &Board) -> Result<bool, AllocError> {
    let copy = board.copy()?;
    let (cases, kept) = (copy.cases(), board.cases());
    Ok(
        cases.live() == CASES
            && cases.plan(CaseId(CASES - 1)) == kept.plan(CaseId(CASES - 1))
            && cases.recent_plan(FLOW) == kept.recent_plan(FLOW),
    )
}
