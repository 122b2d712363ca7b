//! Who is told of a search that is about to begin.
ghost use Rattle.std.specs.Prelude.{◌≡◌};
ghost use Rattle.wf_board.specs.Boards.{book_on};
ghost use Rattle.wf_board.specs.Laws.Histories.{may_lack_memory};
ghost use Rattle.wf_board.specs.Verdicts.{Decides};

use constraint_forms::Plan;
use grant_table::Cases;
use policy_book::Policy;
use std::alloc::Global;
use wf_board::{Decider, Deed, Snap, Verdict};
use wf_talk::{Ask, Request};

/// Told of each search outside a turn that is about to begin. It promises nothing, and changes
/// nothing that a contract sees.
pub trait Gate {
    /// Whether it is to be told. Where it is not, what a plan at hand decides is decided in the
    /// turn that takes it up, with no search outside.
    fn watches(&self) -> bool;

    /// A lane is about to search for a verdict on the request of a line, counted from 0.
    fn solving(&self, lane: u8, line: u32);
}

/// Lets every search begin at once.
#[derive(Drop)]
pub struct OpenGate;

impl Gate for OpenGate {
    fn watches(&self) -> bool {
        false
    }

    fn solving(&self, _lane: u8, _line: u32) {}
}

/// A decider for one job, which first tells a gate.
pub(crate) struct Gated<'a, V, G> {
    pub(crate) decider: &'a V,
    pub(crate) gate: &'a G,
    pub(crate) lane: u8,
    pub(crate) line: u32,
}

impl<V: Decider, G: Gate> Decider for Gated<'_, V, G> {
    ghost ready = { λ s. V.ready s.decider.now };

    fn decide(&self, alloc: Global, snap: &Snap, ask: &Ask) -> Verdict {
        if asks_search(ask) {
            self.gate.solving(self.lane, self.line);
        }
        self.decider.decide(alloc, snap, ask)
    }

    fn decide_deed(&self, alloc: Global, p: &Policy, cases: &Cases, deed: &Deed) -> Verdict {
        self.decider.decide_deed(alloc, p, cases, deed)
    }

    fn decide_near(&self, p: &Policy, cases: &Cases, deed: &Deed) -> Option<Plan> {
        self.decider.decide_near(p, cases, deed)
    }
}

impl<V, G> Drop for Gated<'_, V, G> {
    fn drop(self) {
        let Gated {
            decider: _,
            gate: _,
            lane: _,
            line: _,
        } = self;
    }
}

// Whether this is an opening, a claim, an edit or a view over the open cases: whatever else is
// asked needs no search.
fn asks_search(ask: &Ask) -> bool
    ensures { result ≡ may_lack_memory ask.now }
{
    matches!(
        ask,
        Ask::Request(
            Request::OpenCase { .. }
                | Request::Claim { .. }
                | Request::Change { .. }
                | Request::Worklist { .. }
                | Request::WhatIf { .. }
        )
    )
}
