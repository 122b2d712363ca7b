//! Serving the jobs of a batch by turns.
ghost use Rattle.std.specs.Prelude.{◌≡◌, ◌<◌, true, false, length};
ghost use Rattle.wf_desk.specs.Desks.{AreOfLanes, IsDone};
ghost use Rattle.wf_lanes.specs.TurnSteps.{HasServedTurn};
ghost use Rattle.wf_lanes.specs.Turns.{HasServedByTurns, left_at};

use std::alloc::Global;
use wf_board::Decider;
use wf_desk::Desk;

/// Serves the jobs of a batch by turns: one of each lane after the other, until none is left. None
/// is answered again.
pub fn serve_by_turns<V: Decider>(alloc: Global, decider: &V, desk: &mut Desk)
    requires ready { V.ready decider.now }
    requires lanes { AreOfLanes desk.old.lanes desk.old.jobs }
    ensures turns { HasServedByTurns desk.old desk.new }
    ensures done { IsDone desk.new }
{
    'serving: loop {
        if !serve_turn(alloc, decider, desk) {
            return;
        }
    }
}

// Serves one job of each lane that has one left; whether one had.
fn serve_turn<V: Decider>(alloc: Global, decider: &V, desk: &mut Desk) -> bool
    requires ready { V.ready decider.now }
    requires lanes { AreOfLanes desk.old.lanes desk.old.jobs }
    ensures turn { HasServedTurn desk.old desk.new }
    ensures done { result ≡ false → IsDone desk.new }
    ensures less { result ≡ true → left_at desk.new < left_at desk.old }
{
    let mut served = false;
    'turn: for lane in 0..desk.lanes() {
        if desk.serve_next(alloc, decider, lane) {
            served = true;
        }
    }
    // What a desk keeps: no more jobs are answered than there are, so turns end.
    let _kept = desk.journal();
    served
}
