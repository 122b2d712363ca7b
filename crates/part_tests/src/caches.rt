//! What a caching decider leaves to the decider below it, and what it answers by itself, with ample
//! memory.

use case_views::{CachingDecider, PlainDecider, VerdictCache};
use constraint_forms::Plan;
use fixtures::PAY;
use grant_table::Cases;
use policy_book::Policy;
use refutation_tree::Tree;
use std::alloc::Global;
use std::sync::atomic::{AtomicU64, Ordering};
use std::test::Fail;
use wf_board::{Board, Decider, Deed, Snap, Verdict};
use wf_names::{CaseId, Name, StepId};
use wf_talk::{Ask, Denial, Edit, Reply, Request};

/// The plain decider, which has no plan at hand, and counts the deeds that are left to it.
#[derive(Drop)]
struct Counted {
    deeds: AtomicU64,
}

impl Decider for Counted {
    fn decide(&self, alloc: Global, snap: &Snap, ask: &Ask) -> Verdict {
        PlainDecider.decide(alloc, snap, ask)
    }

    fn decide_deed(&self, alloc: Global, p: &Policy, cases: &Cases, deed: &Deed) -> Verdict {
        self.deeds.fetch_add(1, Ordering::SeqCst);
        PlainDecider.decide_deed(alloc, p, cases, deed)
    }

    fn decide_near(&self, _p: &Policy, _cases: &Cases, _deed: &Deed) -> Option<Plan> {
        None
    }
}

/// What a reply is.
#[derive(Clone, Copy, PartialEq, Eq)]
enum Told {
    Done,
    Stranded,
    Other,
}

/// What is asked for: an opening, a deed with a step, or an edit by eve.
#[derive(Clone, Copy)]
enum Act {
    Open,
    Claim,
    Finish,
    GiveBack,
    Enrol,
    Dismiss,
}

/// What is asked for, of which case, with the name of the workflow, the step or the role, and of
/// the user, who is not asked for in an opening; what the reply is, and how many deeds are left to
/// the decider below up to then.
type Row = (Act, u16, &'static str, &'static str, Told, u64);

// Ann prepares two payments. Where bob approves, ann and bob alone could pay, and neither may; once
// cyd is a clerk too, cyd can. (That a role is given breaks no plan, so no deed is left for it.)
const ROWS: &[Row] = &[
    (Act::Open, 0, "pay", "ann", Told::Done, 1),
    (Act::Claim, 0, "prepare", "ann", Told::Done, 2),
    (Act::Finish, 0, "prepare", "ann", Told::Done, 2),
    (Act::Open, 1, "pay", "ann", Told::Done, 2),
    (Act::Claim, 1, "prepare", "ann", Told::Done, 2),
    (Act::Finish, 1, "prepare", "ann", Told::Done, 2),
    (Act::Claim, 0, "approve", "bob", Told::Stranded, 3),
    (Act::Claim, 1, "approve", "bob", Told::Stranded, 3),
    (Act::Enrol, 0, "clerk", "cyd", Told::Done, 3),
    (Act::Claim, 0, "approve", "bob", Told::Done, 4),
    (Act::Claim, 1, "approve", "bob", Told::Done, 4),
    (Act::GiveBack, 0, "approve", "bob", Told::Done, 4),
    (Act::GiveBack, 1, "approve", "bob", Told::Done, 4),
    (Act::Dismiss, 0, "clerk", "cyd", Told::Done, 5),
    (Act::Claim, 1, "approve", "bob", Told::Stranded, 6),
];

/// Whether each row is answered as it says.
pub fn what_was_found_serves_again_as_long_as_it_decides(alloc: Global) -> Result<bool, Fail> {
    let mut board = Board::new(alloc, policy_reader::read(alloc, PAY.as_bytes())?)?;
    Ok(are_answered(alloc, &mut board))
}

fn are_answered(alloc: Global, board: &mut Board) -> bool {
    let below = Counted {
        deeds: AtomicU64::new(0),
    };
    let cache = VerdictCache::new(alloc);
    are_answered_over(alloc, &below, &cache, board)
}

fn are_answered_over(
    alloc: Global,
    below: &Counted,
    cache: &VerdictCache,
    board: &mut Board,
) -> bool {
    for row in ROWS {
        if !is_answered(alloc, &CachingDecider::new(below, cache), board, row)
            || below.deeds.load(Ordering::SeqCst) != row.5
        {
            return false;
        }
    }
    true
}

// Whether the reply is the row's.
fn is_answered<V: Decider>(alloc: Global, decider: &V, board: &mut Board, row: &Row) -> bool
    requires { V.ready decider.now }
{
    match asked(row) {
        Some(asked) => told_by(&answer(alloc, decider, board, asked)) == row.4,
        None => false,
    }
}

// What is answered to a request on a board with few edits.
fn answer<V: Decider>(alloc: Global, decider: &V, board: &mut Board, asked: Request) -> Reply
    requires { V.ready decider.now }
{
    if board.number() > 2 {
        return Reply::NoMemory;
    }
    board.decide(alloc, decider, &Ask::Request(asked), Verdict::Nothing)
}

fn asked(row: &Row) -> Option<Request> {
    let (act, number, name, user, _, _) = *row;
    let (name, user) = (Name::read(name)?, Name::read(user)?);
    request_of(act, CaseId(number), name, user)
}

fn request_of(act: Act, case: CaseId, name: Name, user: Name) -> Option<Request> {
    let step = name;
    match act {
        Act::Open => Some(Request::OpenCase { flow: name }),
        Act::Claim => Some(Request::Claim { case, step, user }),
        Act::Finish => Some(Request::Finish { case, step, user }),
        Act::GiveBack => Some(Request::GiveBack { case, step, user }),
        Act::Enrol => change(Edit::Enrol { role: name, user }),
        Act::Dismiss => change(Edit::Dismiss { role: name, user }),
    }
}

fn change(edit: Edit) -> Option<Request> {
    match Name::read("eve") {
        Some(by) => Some(Request::Change { by, edit }),
        None => None,
    }
}

fn told_by(reply: &Reply) -> Told {
    match reply {
        Reply::Denied(Denial::Stranded { tree, .. }) => told_by_tree(tree.get()),
        Reply::Denied(_) | Reply::NoMemory => Told::Other,
        _ => Told::Done,
    }
}

// Whether a tree tries ann and bob for the payment, and nobody else.
fn told_by_tree(tree: &Tree) -> Told {
    match tree {
        Tree::Step(StepId(2), branches) if branches.len() == 2 => Told::Stranded,
        _ => Told::Other,
    }
}
