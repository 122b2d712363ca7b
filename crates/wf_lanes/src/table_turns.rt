//! A lane's turns at a desk that stands at a turn table.
ghost use Rattle.std.specs.Prelude.{◌≡◌, ◌<◌, ℕ, true};
ghost use Rattle.turn_table.specs.Lanes.{LaneShape};
ghost use Rattle.wf_board.specs.Boards.{book_on};
ghost use Rattle.wf_board.specs.Verdicts.{Decides};
ghost use Rattle.wf_talk.specs.declared.entry.Entry.{Entry};
ghost use Rattle.wf_desk.specs.declared.tabled.Fixed.{Fixed};
ghost use Rattle.wf_desk.specs.Laws.Commits.{next_asks_search};
ghost use Rattle.wf_lanes.specs.Workers.{BeginsTurn, HasBegunAt, HasCommittedTask, IsBegun, IsIdle};

use crate::worker::{Begun, Turns};
use std::alloc::Global;
use std::sync::Wait;
use turn_table::{Lane, TurnTable};
use wf_board::{Decider, Verdict};
use wf_desk::{Desk, Outcome, Taken, Task};

/// A lane with its table. What is decided inside its turns the decider decides.
pub(crate) struct TableTurns<'a, R, V> {
    pub(crate) rt: &'a R,
    pub(crate) alloc: Global,
    pub(crate) decider: &'a V,
    /// Whether plans at hand decide in the turn that takes a job up.
    pub(crate) near: bool,
    pub(crate) table: &'a TurnTable<Desk>,
    pub(crate) lane: Lane<Desk>,
    pub(crate) number: u8,
    /// Whether a task was begun that is not committed yet.
    pub(crate) pending: bool,
}

impl<R: Wait, V: Decider> Turns for TableTurns<'_, R, V> {
    ghost lane = { λ s. s.number };

    ghost known = { λ s. s.lane };

    ghost pending = { λ s. s.pending };

    ghost fits = { λ s. V.ready s.decider.now × IsIdle s.table.now s.lane s.number };

    fn begin(&mut self) -> Begun {
        let mut desk = self.table.take(self.rt, &mut self.lane);
        let begun = begin_at(self.alloc, self.decider, self.near, &mut desk, self.number);
        self.table.give(&mut self.lane, desk);
        self.pending = matches!(begun, Begun::Task(_));
        begun
    }

    fn commit(&mut self, task: &Task, verdict: Verdict) -> Outcome {
        let mut later = self.table.take(self.rt, &mut self.lane);
        let outcome = later.commit(self.alloc, self.decider, task, verdict);
        self.table.give(&mut self.lane, later);
        self.pending = false;
        outcome
    }
}

// Takes up a lane's next job at a desk. Without memory for its task it is decided at once.
fn begin_at<V: Decider>(alloc: Global, decider: &V, near: bool, desk: &mut Desk, lane: u8) -> Begun
    requires ready { V.ready decider.now }
    requires lane { lane < desk.old.lanes }
    ensures { HasBegunAt desk.old desk.new lane result }
{
    let _sound = desk.journal();
    match desk.take_up(alloc, decider, near, lane) {
        Ok(Taken::Task(task)) => Begun::Task(task),
        Ok(Taken::Served) => Begun::Served,
        Ok(Taken::Planned) => Begun::Planned,
        Ok(Taken::Ended) => Begun::Ended,
        Err(_) => decide_at(alloc, decider, desk, lane),
    }
}

// Decides a lane's next job at a desk, since there was no memory for its task.
fn decide_at<V: Decider>(alloc: Global, decider: &V, desk: &mut Desk, lane: u8) -> Begun
    requires ready { V.ready decider.now }
    requires lane { lane < desk.old.lanes }
    requires searched { next_asks_search desk.old lane ≡ true }
    ensures { HasBegunAt desk.old desk.new lane result }
{
    if desk.serve_next(alloc, decider, lane) {
        Begun::Lacking
    } else {
        Begun::Ended
    }
}
