//! Schedules: turns in a given order, on one thread.
ghost use Rattle.std.specs.Prelude.{◌≡◌, ◌<◌, ◌≤◌, ◌+◌, [], length, slice_set, vec_capacity};
ghost use Rattle.std.specs.Prelude.{vec_len, IfOk, None, OnErr};
ghost use Rattle.wf_names.specs.declared.limits.TheConstants.{LANE_LIMIT};
ghost use Rattle.wf_desk.specs.Holding.{CanTurn, HasTurned, standing};
ghost use Rattle.wf_desk.specs.Schedules.{AreEventsOf, HasGoneOn, HasGrown};
ghost use Rattle.wf_desk.specs.Schedules.{HasRunSchedule, held_by, lane_of, mark_of, no_tasks};

use crate::{Desk, Outcome, Task, solve_task};
use basics::List;
use std::alloc::{AllocError, Global};
use wf_board::{Decider, Verdict};
use wf_names::LANE_LIMIT;

/// A turn of a lane.
#[derive(Clone, Copy)]
pub enum Event {
    /// The lane takes the task of its next job, in place of the one that it holds, and a verdict
    /// on it is found.
    Begin(u8),
    /// The lane commits the task that it holds, with its verdict.
    Commit(u8),
    /// The lane's next job is decided inside the turn.
    Serve(u8),
}

/// What an event did.
#[derive(Clone, Copy, PartialEq, Eq)]
pub enum Mark {
    /// The lane holds a task. The number is how many entries there were when it was taken.
    Began(u32),
    /// The lane has no job left; where it was to begin one, it holds no task any more.
    NoJob,
    /// There was no memory for a task, and nothing has changed.
    NoMemory,
    /// The task's entry stands at this place.
    Recorded(u32),
    /// The task was lost.
    Lost,
    /// The task is not for the lane's next job.
    NotNext,
    /// The lane holds no task.
    NoTask,
    /// The entry of the lane's next job stands at this place.
    Served(u32),
}

/// For each event, in order, what it did.
pub type Marks = List<Mark>;

/// A task with the verdict that was found on it.
#[derive(Drop)]
pub struct Solved {
    /// The task.
    pub task: Task,
    /// The verdict.
    pub verdict: Verdict,
}

/// What each lane holds.
type Held = [Option<Solved>; LANE_LIMIT as usize];

impl Desk {
    /// Takes turns in the order of the events, and tells what each of them did. At first no lane
    /// holds a task. Without memory for the marks nothing is done.
    pub fn run_schedule<V: Decider>(
        &mut self,
        alloc: Global,
        decider: &V,
        events: &[Event],
    ) -> Result<Marks, AllocError>
        requires ready { V.ready decider.now }
        requires lanes { AreEventsOf self.old.lanes events.now }
        ensures run { IfOk result (λ marks. HasRunSchedule self.old events.now marks self.new) }
        ensures gone { IfOk result (λ _. HasGoneOn self.old self.new) }
        ensures unchanged { OnErr result (self.new ≡ self.old) }
    {
        let mut marks = Vec::with_capacity(alloc, events.len())?;
        let _before = self.journal();
        run_all(self, alloc, decider, events, &mut marks);
        let _after = self.journal();
        Ok(List::from_vec(marks))
    }
}

/// Takes turns in the order of the events, and adds a mark for each.
fn run_all<V: Decider>(
    desk: &mut Desk,
    alloc: Global,
    decider: &V,
    events: &[Event],
    marks: &mut Vec<Mark>,
)
    requires ready { V.ready decider.now }
    requires lanes { AreEventsOf desk.old.lanes events.now }
    requires none { marks.old.items ≡ [] }
    requires empty { vec_len marks.old ≡ 0 }
    requires room { length events.now ≤ vec_capacity marks.old }
    ensures run { HasRunSchedule desk.old events.now marks.new.items desk.new }
    ensures grown { HasGrown desk.old desk.new }
{
    let mut held = no_tasks();
    'events: for event in events {
        let mark = take_turn(desk, alloc, decider, &mut held, *event);
        marks.push_reserved(mark);
    }
}

fn no_tasks() -> Held
    ensures { result ≡ no_tasks }
{
    [None, None, None, None, None, None, None, None]
}

/// Takes one turn.
fn take_turn<V: Decider>(
    desk: &mut Desk,
    alloc: Global,
    decider: &V,
    held: &mut Held,
    event: Event,
) -> Mark
    requires ready { V.ready decider.now }
    requires can { CanTurn (standing desk.old held.old) (lane_of event) }
    ensures { HasTurned (standing desk.old held.old) event result (standing desk.new held.new) }
{
    match event {
        Event::Begin(lane) => begin(desk, alloc, decider, held, lane),
        Event::Commit(lane) => commit(desk, alloc, decider, held, lane),
        Event::Serve(lane) => serve(desk, alloc, decider, held, lane),
    }
}

/// A lane takes a task, and a verdict on it is found.
fn begin<V: Decider>(desk: &Desk, alloc: Global, decider: &V, held: &mut Held, lane: u8) -> Mark
    requires ready { V.ready decider.now }
    requires can { CanTurn (standing desk.now held.old) lane }
    ensures { HasTurned (standing desk.now held.old) (Event.Begin lane) result
        (standing desk.now held.new) }
{
    let _few = desk.lanes();
    let _sound = desk.journal();
    match desk.begin(alloc, lane) {
        Ok(Some(task)) => {
            let number = task.number;
            let verdict = solve_task(alloc, decider, &task);
            put(held, lane, Some(Solved { task, verdict }));
            Mark::Began(number)
        }
        Ok(None) => {
            put(held, lane, None);
            Mark::NoJob
        }
        Err(_) => Mark::NoMemory,
    }
}

/// Gives a lane a task to hold, or none, in place of the one that it held.
fn put(held: &mut Held, lane: u8, solved: Option<Solved>)
    requires { lane < LANE_LIMIT }
    ensures { held.new ≡ slice_set held.old lane solved }
{
    held[lane as usize] = solved;
}

/// What a lane held, which it holds no more.
fn take_held(held: &mut Held, lane: u8) -> Option<Solved>
    requires { lane < LANE_LIMIT }
    ensures held { result ≡ held_by held.old lane }
    ensures none { held.new ≡ slice_set held.old lane None }
{
    held[lane as usize].take()
}

/// A lane commits the task that it holds.
fn commit<V: Decider>(
    desk: &mut Desk,
    alloc: Global,
    decider: &V,
    held: &mut Held,
    lane: u8,
) -> Mark
    requires ready { V.ready decider.now }
    requires can { CanTurn (standing desk.old held.old) lane }
    ensures { HasTurned (standing desk.old held.old) (Event.Commit lane) result
        (standing desk.new held.new) }
{
    let _few = desk.lanes();
    match take_held(held, lane) {
        Some(Solved { task, verdict }) => mark_of(desk.commit(alloc, decider, &task, verdict)),
        None => Mark::NoTask,
    }
}

fn mark_of(outcome: Outcome) -> Mark
    ensures { result ≡ mark_of outcome }
{
    match outcome {
        Outcome::Recorded(place) => Mark::Recorded(place),
        Outcome::Lost => Mark::Lost,
        Outcome::NotNext => Mark::NotNext,
    }
}

/// A lane's next job is decided inside the turn.
fn serve<V: Decider>(desk: &mut Desk, alloc: Global, decider: &V, held: &Held, lane: u8) -> Mark
    requires ready { V.ready decider.now }
    requires can { CanTurn (standing desk.old held.now) lane }
    ensures { HasTurned (standing desk.old held.now) (Event.Serve lane) result
        (standing desk.new held.now) }
{
    let _ = held;
    if desk.serve_next(alloc, decider, lane) {
        Mark::Served(last_place(desk))
    } else {
        Mark::NoJob
    }
}

/// The place of the last entry.
fn last_place(desk: &Desk) -> u32
    requires { 0 < length desk.now.entries }
    ensures { result + 1 ≡ length desk.now.entries }
{
    let entries = desk.journal().as_slice();
    entries[entries.len() - 1].at
}
