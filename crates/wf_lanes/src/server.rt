//! What serves the jobs of one lane at a turn table.
ghost use Rattle.wf_lanes.specs.Workers.{HasNoJobLeft, IsIdle};

use crate::gate::Gate;
use crate::table_turns::TableTurns;
use crate::worker::work;
use std::alloc::Global;
use std::sync::Wait;
use turn_table::{Lane, TurnTable};
use wf_board::Decider;
use wf_desk::Desk;

/// Serves one lane after the other, or some at once on threads of their own.
pub(crate) trait Server {
    // what it rests on
    ghost ready: { Self → Type 0 };

    /// Serves the jobs of one lane.
    fn serve(&self, table: &TurnTable<Desk>, lane: Lane<Desk>, number: u8) -> Lane<Desk>
        requires ready { ready self.now }
        requires idle { IsIdle table.now lane number }
        ensures idle { IsIdle table.now result number }
        ensures ended { HasNoJobLeft result number };
}

/// Serves a lane with the verdicts that a decider finds between its turns.
#[derive(Drop)]
pub(crate) struct LaneServer<'a, R, V, G> {
    pub(crate) rt: &'a R,
    pub(crate) alloc: Global,
    pub(crate) decider: &'a V,
    pub(crate) gate: &'a G,
    /// Whether searches are told to the gate.
    pub(crate) tells: bool,
}

impl<R: Wait, V: Decider, G: Gate> Server for LaneServer<'_, R, V, G> {
    ghost ready = { λ s. V.ready s.decider.now };

    fn serve(&self, table: &TurnTable<Desk>, lane: Lane<Desk>, number: u8) -> Lane<Desk> {
        let mut turns = TableTurns {
            rt: self.rt,
            alloc: self.alloc,
            decider: self.decider,
            near: !self.gate.watches(),
            table,
            lane,
            number,
            pending: false,
        };
        work(
            self.rt,
            self.alloc,
            self.decider,
            self.gate,
            self.tells,
            &mut turns,
        );
        let TableTurns {
            rt: _,
            alloc: _,
            decider: _,
            near: _,
            table: _,
            lane,
            number: _,
            pending: _,
        } = turns;
        lane
    }
}
