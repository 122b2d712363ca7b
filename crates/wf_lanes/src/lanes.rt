//! Serving the jobs of a batch, each lane's on a thread of its own.
ghost use Rattle.std.specs.Prelude.{◌≡◌, ◌<◌, ◌≤◌, ◌+◌, ◌-◌, nat_le, ℕ, Some};
ghost use Rattle.std.specs.List.{Contains};
ghost use Rattle.std.specs.Thread.{IsSync};
ghost use Rattle.wf_names.specs.declared.limits.TheConstants.{LANE_LIMIT};
ghost use Rattle.wf_desk.specs.Desks.{AreOfLanes, IsDone};
ghost use Rattle.wf_desk.specs.Schedules.{HasGrown};
ghost use Rattle.wf_desk.specs.Tabled.{fixed_of, tagged_of};
ghost use Rattle.wf_lanes.specs.Workers.{HasJoined, HasMadeAll, HasRoom, IsFirst};
ghost use Rattle.wf_lanes.specs.Workers.{IsIdle};

use crate::gate::Gate;
use crate::server::{LaneServer, Server};
use crate::turns::serve_by_turns;
use std::alloc::Global;
use std::sync::Wait;
use std::thread::{Threads, join};
use turn_table::{Lane, Refused, TurnTable};
use wf_board::Decider;
use wf_desk::{Desk, Taken};
use wf_names::{BATCH_LINE_LIMIT, LANE_LIMIT};

/// For each lane whether it has a job left, or whether its next job has to be searched.
type Busy = [bool; LANE_LIMIT as usize];

/// Serves the jobs of a batch, each lane's on a thread of its own: searches run outside the turns,
/// on numbered snapshots, while other lanes go on; decisions are taken in turns, one at a time. It
/// may wait. What needs no search is served by turns before any thread begins, each lane's jobs up
/// to its first that has to be searched, unless a gate watches. Where one lane alone has jobs left,
/// they are served by turns, with no thread.
pub fn serve_by_lanes<R: Threads + Wait + Sync, V: Decider + Sync, G: Gate + Sync>(
    rt: &R,
    alloc: Global,
    decider: &V,
    gate: &G,
    desk: Desk,
) -> Desk
    requires ready { V.ready decider.now }
    requires some { 0 < desk.lanes }
    requires lanes { AreOfLanes desk.lanes desk.jobs }
    ensures on { HasGrown desk result }
    ensures done { IsDone result }
{
    let mut desk = desk;
    let server = LaneServer {
        rt,
        alloc,
        decider,
        gate,
        tells: tells(desk.rounds()),
    };
    serve_ahead(alloc, decider, gate, &mut desk);
    let mut desk = serve_on_lanes(&server, desk);
    serve_by_turns(alloc, decider, &mut desk);
    desk
}

// Serves jobs by turns, each lane's up to its first that has to be searched, where two lanes have
// some and no gate watches.
fn serve_ahead<V: Decider, G: Gate>(alloc: Global, decider: &V, gate: &G, desk: &mut Desk)
    requires ready { V.ready decider.now }
    ensures { HasGrown desk.old desk.new }
{
    if !gate.watches() && has_two(&busy_lanes(desk)) {
        serve_rounds(alloc, decider, desk);
    }
}

// Serves rounds of jobs, each lane's up to its first that has to be searched.
fn serve_rounds<V: Decider>(alloc: Global, decider: &V, desk: &mut Desk)
    requires ready { V.ready decider.now }
    ensures { HasGrown desk.old desk.new }
{
    let mut waits = [false; LANE_LIMIT as usize];
    'rounds: for _ in 0..BATCH_LINE_LIMIT {
        if !serve_round(alloc, decider, desk, &mut waits) {
            return;
        }
    }
}

// Serves one job of each lane that has one left and does not wait for a search; whether one was
// served. A lane whose job has to be searched waits from then on.
fn serve_round<V: Decider>(alloc: Global, decider: &V, desk: &mut Desk, waits: &mut Busy) -> bool
    requires ready { V.ready decider.now }
    ensures { HasGrown desk.old desk.new }
{
    let mut served = false;
    'round: for lane in 0..desk.lanes() {
        if waits[lane as usize] {
            continue;
        }
        match desk.take_up(alloc, decider, true, lane) {
            Ok(Taken::Served | Taken::Planned) => served = true,
            Ok(Taken::Ended) => {}
            Ok(Taken::Task(_)) | Err(_) => waits[lane as usize] = true,
        }
    }
    served
}

// Serves the jobs that lanes find at a table, if there is memory for one.
fn serve_on_lanes<R: Threads + Wait + Sync, V: Decider + Sync, G: Gate + Sync>(
    server: &LaneServer<R, V, G>,
    desk: Desk,
) -> Desk
    requires ready { V.ready server.now.decider.now }
    requires some { 0 < desk.lanes }
    ensures on { HasGrown desk result }
{
    let busy = busy_lanes(&desk);
    if !has_two(&busy) {
        return desk;
    }
    let lanes = desk.lanes();
    match TurnTable::new(server.alloc, desk, lanes) {
        Ok((table, first)) => {
            let first = run_lanes(server.rt, server, &busy, &table, first, 0, lanes);
            close_whole(table, first)
        }
        Err(Refused { value }) => value,
    }
}

// Closes a table of which each lane that its desk has was made, served and joined.
fn close_whole(table: TurnTable<Desk>, first: Lane<Desk>) -> Desk
    requires first { IsFirst table first }
    requires joined { (n : ℕ) → n < first.made → Contains first.joined n }
    requires whole { HasMadeAll first }
    ensures fixed { Some (fixed_of result) ≡ first.fixed }
    ensures list { tagged_of result ≡ first.seen }
{
    table.close(first)
}

// Whether searches are told to the gate: where a job may be answered again after a lost round.
fn tells(rounds: u8) -> bool
    ensures { result ≡ nat_le 1 rounds }
{
    1 <= rounds
}

// Which lanes have a job left.
fn busy_lanes(desk: &Desk) -> Busy {
    let mut busy = [false; LANE_LIMIT as usize];
    'lanes: for lane in 0..desk.lanes() {
        busy[lane as usize] = 0 < desk.left(lane);
    }
    busy
}

// Whether two lanes are busy.
fn has_two(busy: &Busy) -> bool {
    let mut one = false;
    'lanes: for lane in 0..LANE_LIMIT {
        if busy[lane as usize] {
            if one {
                return true;
            }
            one = true;
        }
    }
    false
}

// Whether a lane is busy, and a later one too. The last busy lane needs no thread of its own.
fn needs_thread(busy: &Busy, lane: u8) -> bool
    requires { lane < LANE_LIMIT }
{
    if !busy[lane as usize] {
        return false;
    }
    'later: for k in lane + 1..LANE_LIMIT {
        if busy[k as usize] {
            return true;
        }
    }
    false
}

// Makes `count` lanes, from the number `next` on, serves them, and joins them into the first lane.
// A lane with jobs is served on a thread of its own, where a later one has jobs too.
fn run_lanes<R: Threads + Sync, W: Server + Sync>(
    rt: &R,
    server: &W,
    busy: &Busy,
    table: &TurnTable<Desk>,
    first: Lane<Desk>,
    next: u8,
    count: u8,
) -> Lane<Desk>
    requires ready { W.ready server.now }
    requires first { IsFirst table.now first }
    requires room { HasRoom first next count }
    requires few { next + count ≤ 8 }
    ensures first { IsFirst table.now result }
    ensures joined { HasJoined first result next count }
{
    let mut first = first;
    if count == 0 {
        return first;
    }
    let lane = make_lane(table, &mut first, next, count);
    if !needs_thread(busy, next) {
        let lane = server.serve(table, lane, next);
        let mut all = run_lanes(rt, server, busy, table, first, next + 1, count - 1);
        table.join(&mut all, lane);
        return all;
    }
    let (lane, mut first) = join(
        rt,
        move || -> Lane<Desk>
            requires ready { W.ready server.now }
            requires idle { IsIdle table.now lane next }
            ensures idle { IsIdle table.entry.now result next }
        { server.serve(table, lane, next) },
        move || -> Lane<Desk>
            requires sync { IsSync R.row × IsSync W.row }
            requires ready { W.ready server.now }
            requires first { IsFirst table.now first }
            requires room { HasRoom first (next + 1) (count - 1) }
            requires few { (0 < count) × (next + count ≤ 8) }
            ensures first { IsFirst table.entry.now result }
            ensures joined { HasJoined first result (next + 1) (count - 1) }
        { run_lanes(rt, server, busy, table, first, next + 1, count - 1) },
    );
    table.join(&mut first, lane);
    first
}

// The next lane of a table.
fn make_lane(table: &TurnTable<Desk>, first: &mut Lane<Desk>, next: u8, count: u8) -> Lane<Desk>
    requires some { 0 < count }
    requires first { IsFirst table.now first.old }
    requires room { HasRoom first.old next count }
    ensures idle { IsIdle table.now result next }
    ensures first { IsFirst table.now first.new }
    ensures room { HasRoom first.new (next + 1) (count - 1) }
    ensures made { first.new ≡ record first.old { made = first.old.made + 1 } }
{
    table.lane(first)
}
