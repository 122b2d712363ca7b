//! What a lane's thread does: turn after turn, with the searches between them.
ghost use Rattle.std.specs.Prelude.{◌≡◌, ℕ, Bool, true, false};
ghost use Rattle.turn_table.specs.Lanes.{LaneShape};
ghost use Rattle.wf_board.specs.Boards.{book_on};
ghost use Rattle.wf_board.specs.Verdicts.{Decides};
ghost use Rattle.wf_talk.specs.declared.entry.Entry.{Entry};
ghost use Rattle.wf_desk.specs.declared.tabled.Fixed.{Fixed};
ghost use Rattle.wf_lanes.specs.Workers.{BeginsTurn, HasCommittedTask, HasNoJobLeft, IsBegun};
ghost use Rattle.wf_lanes.specs.Workers.{IsSameLane};
ghost use Rattle.wf_lanes.specs.Workers.{is_task};

use crate::gate::{Gate, Gated};
use std::alloc::Global;
use std::sync::Wait;
use wf_board::{Decider, Verdict};
use wf_desk::{Outcome, Task, solve_task};

/// What came of a turn that was to begin a lane's next job.
#[derive(Drop)]
pub(crate) enum Begun {
    /// The task of the job: a verdict has to be found and committed.
    Task(Task),
    /// The job needed no search, and was decided inside the turn.
    Served,
    /// A plan that was at hand decided the job inside the turn.
    Planned,
    /// There was no memory for a task, and the job was decided inside the turn.
    Lacking,
    /// The lane has no job left.
    Ended,
}

/// The turns of one lane at a desk. Between turns it does not have the desk.
pub(crate) trait Turns {
    // the lane's number
    ghost lane: { Self → ℕ };

    // what the lane knows of the desk's history
    ghost known: { Self → LaneShape Fixed Entry };

    // what the lane's turns rest on
    ghost fits: { Self → Type 0 };

    // whether a task was begun that is not committed yet
    ghost pending: { Self → Bool };

    /// A turn that begins the lane's next job.
    fn begin(&mut self) -> Begun
        requires fits { fits self.old }
        requires settled { pending self.old ≡ false }
        ensures fits { fits self.new }
        ensures lane { lane self.new ≡ lane self.old }
        ensures pending { pending self.new ≡ is_task result }
        ensures begun { BeginsTurn (known self.old) (known self.new) (lane self.old) result };

    /// A turn that commits the task which the lane's last turn began.
    fn commit(&mut self, task: &Task, verdict: Verdict) -> Outcome
        requires fits { fits self.old }
        requires pending { pending self.old ≡ true }
        requires begun { IsBegun (known self.old) (lane self.old) task.now }
        requires right { Decides (book_on task.now.snap) task.now.ask verdict }
        ensures fits { fits self.new }
        ensures settled { pending self.new ≡ false }
        ensures lane { lane self.new ≡ lane self.old }
        ensures committed { HasCommittedTask (known self.old) (known self.new) task.now
            verdict result };
}

/// Serves a lane's jobs until none is left. Each task that is begun is committed before the next
/// is; one that is lost is begun again.
pub(crate) fn work<R: Wait, V: Decider, G: Gate, T: Turns>(
    rt: &R,
    alloc: Global,
    decider: &V,
    gate: &G,
    tells: bool,
    turns: &mut T,
)
    requires ready { V.ready decider.now }
    requires fits { T.fits turns.old }
    requires settled { T.pending turns.old ≡ false }
    ensures fits { T.fits turns.new }
    ensures settled { T.pending turns.new ≡ false }
    ensures lane { T.lane turns.new ≡ T.lane turns.old }
    ensures same { IsSameLane (T.known turns.old) (T.known turns.new) }
    ensures ended { HasNoJobLeft (T.known turns.new) (T.lane turns.new) }
{
    'working: for _ in rt.forever() {
        match turns.begin() {
            Begun::Task(task) => {
                let verdict = find(alloc, decider, gate, tells, &task);
                turns.commit(&task, verdict);
            }
            Begun::Served | Begun::Planned | Begun::Lacking => {}
            Begun::Ended => return,
        }
    }
    unreachable!()
}

// Finds a verdict on a task. The gate is told where it is to be.
fn find<V: Decider, G: Gate>(
    alloc: Global,
    decider: &V,
    gate: &G,
    tells: bool,
    task: &Task,
) -> Verdict
    requires { V.ready decider.now }
    ensures { Decides (book_on task.now.snap) task.now.ask result }
{
    if tells {
        let gated = Gated {
            decider,
            gate,
            lane: task.lane,
            line: task.line,
        };
        return solve_task(alloc, &gated, task);
    }
    solve_task(alloc, decider, task)
}
