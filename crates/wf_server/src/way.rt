//! Ways of serving the jobs of a batch: by turns, or each lane on a thread of its own.
ghost use Rattle.std.specs.Prelude.{◌≡◌, ◌<◌, IfSome};
ghost use Rattle.std.specs.List.{AllZip};
ghost use Rattle.wf_desk.specs.Desks.{AreOfLanes, DeskShape, IsDone};
ghost use Rattle.wf_desk.specs.Schedules.{HasGrown};
ghost use Rattle.wf_lanes.specs.Turns.{HasServedOn};
ghost use Rattle.wire_json.specs.Replies.{entry_text};

use crate::side::{are_long, lines_beside};
use case_views::{CachingDecider, PlainDecider, VerdictCache};
use policy_book::Policy;
use std::alloc::Global;
use std::thread::Threads;
use wf_desk::Desk;
use wf_lanes::serve_by_turns;
use wf_talk::Entry;

/// How a session serves the jobs of a batch, and whether it makes lines of entries side by side.
pub(crate) trait Way {
    // what the way needs of itself, as a bound of its own on threads
    ghost ready: { Self → Type 0 } = { λ _. Unit {0} };

    // what it leaves of a desk
    ghost leaves: { Self → DeskShape → DeskShape → Type 0 };

    /// Serves the jobs at a desk, each of which is of one of its lanes, until none is left without
    /// an entry. Nothing is changed but by the entries.
    fn serve(&self, alloc: Global, desk: Desk) -> Desk
        requires ready { ready self.now }
        requires some { 0 < desk.lanes }
        requires lanes { AreOfLanes desk.lanes desk.jobs }
        ensures leaves { leaves self.now desk result }
        ensures grown { HasGrown desk result }
        ensures done { IsDone result };

    /// The lines of entries, one for each; none where each is better made when it is written, or
    /// where there is no memory to make them beforehand.
    fn make_lines(&self, alloc: Global, p: &Policy, entries: &[Entry]) -> Option<Vec<Vec<u8>>>
        requires { ready self.now }
        ensures { IfSome result (λ lines.
            AllZip (λ e line. line.items ≡ entry_text p.now e) entries.now lines.items) };
}

/// By turns, on the caller's thread. None is answered again.
#[derive(Drop)]
pub(crate) struct ByTurns {
    found: VerdictCache,
}

impl ByTurns {
    pub(crate) fn new(alloc: Global) -> ByTurns {
        ByTurns {
            found: VerdictCache::new(alloc),
        }
    }
}

impl Way for ByTurns {
    ghost leaves = { λ _ d e. HasServedOn d e };

    fn serve(&self, alloc: Global, desk: Desk) -> Desk {
        turned(alloc, &self.found, desk)
    }

    fn make_lines(&self, _alloc: Global, _p: &Policy, _entries: &[Entry]) -> Option<Vec<Vec<u8>>> {
        None
    }
}

/// As a closure serves them, on threads; long lines are made side by side. (In a method of a trait
/// what starts the threads of lanes would not be proved, so it stands where the closure is made.)
pub(crate) struct OnLanes<'a, R: Threads + Sync, W> {
    pub(crate) rt: &'a R,
    pub(crate) serve: &'a W,
}

impl<R: Threads + Sync, W> Drop for OnLanes<'_, R, W> {
    fn drop(self) {
        let OnLanes { rt: _, serve: _ } = self;
    }
}

impl<R: Threads + Sync, W: Fn(Desk) -> Desk> Way for OnLanes<'_, R, W> {
    ghost use Rattle.std.specs.Thread.{IsSync};
    ghost use Rattle.wf_server.specs.Ways.{IsWay};

    ghost ready = { λ s. IsSync R.row × IsWay (W.pre s.serve.now) (W.post s.serve.now) };

    ghost leaves = { λ s d e. W.post s.serve.now d e };

    fn serve(&self, _alloc: Global, desk: Desk) -> Desk {
        (self.serve)(desk)
    }

    fn make_lines(&self, alloc: Global, p: &Policy, entries: &[Entry]) -> Option<Vec<Vec<u8>>> {
        if !are_long(entries) {
            return None;
        }
        lines_beside(self.rt, alloc, p, entries).ok()
    }
}

// The desk after the jobs of its batch are served by turns.
fn turned(alloc: Global, found: &VerdictCache, mut desk: Desk) -> Desk
    requires lanes { AreOfLanes desk.lanes desk.jobs }
    ensures on { HasServedOn desk result }
    ensures done { IsDone result }
{
    serve_by_turns(alloc, &CachingDecider::new(&PlainDecider, found), &mut desk);
    desk
}
