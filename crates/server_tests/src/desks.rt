//! Desks of two lanes: schedules, and commits of tasks whose numbers were changed by hand.
ghost use Rattle.std.specs.Prelude.{◌≡◌, [], IfOk, IsTrue};
ghost use Rattle.wf_desk.specs.Desks.{AreOfLanes, IsDone};
ghost use Rattle.wf_desk.specs.Schedules.{AreEventsOf};

use crate::schedules::{ALL, CLAIMS, S0, S1, Schedule};
use case_views::PlainDecider;
use fixtures::{PAY, STAFFED};
use line_reader::jobs_of;
use std::alloc::{AllocError, Global};
use std::test::Fail;
use wf_board::Verdict;
use wf_desk::{Desk, Event, Mark, Outcome, Task, solve_task};
use wf_names::ROUND_LIMIT;
use wf_talk::{Denial, Job, Reply};

/// What is done at a desk.
#[derive(Clone, Copy)]
enum Scene<'a> {
    /// A schedule.
    Turns(&'a Schedule),
    /// Tasks are committed for which some entries do not count.
    Misses,
    /// A stale edit is checked once more.
    Checked,
}

/// Whether each schedule leaves the marks and the replies that it says.
pub fn tasks_are_served_begun_and_committed(alloc: Global) -> Result<bool, Fail> {
    for row in ALL {
        if !is_right(alloc, row.policy, row.rounds, Scene::Turns(row))? {
            return Ok(false);
        }
    }
    Ok(true)
}

/// Whether entries that do not count lose no task.
pub fn some_entries_lose_no_task(alloc: Global) -> Result<bool, Fail> {
    is_right(alloc, PAY, 2, Scene::Misses)
}

/// Whether a stale edit that is checked once more is decided in its turn.
pub fn a_checked_edit_is_never_lost(alloc: Global) -> Result<bool, Fail> {
    is_right(alloc, STAFFED, 1, Scene::Checked)
}

// Whether all is right at a desk over a policy.
fn is_right(alloc: Global, policy: &str, rounds: u8, scene: Scene<'_>) -> Result<bool, Fail> {
    let mut desk = desk_of(alloc, policy, rounds)?;
    plays(alloc, &mut desk, scene)
}

fn plays(alloc: Global, desk: &mut Desk, scene: Scene<'_>) -> Result<bool, Fail>
    requires { IsDone desk.old }
{
    let played = match scene {
        Scene::Turns(row) => follows(alloc, desk, row),
        Scene::Misses => misses(alloc, desk),
        Scene::Checked => is_decided_in_the_turn(alloc, desk),
    };
    Ok(played?)
}

fn follows(alloc: Global, desk: &mut Desk, row: &Schedule) -> Result<bool, AllocError>
    requires { IsDone desk.old }
{
    Ok(
        load(alloc, desk, row.requests)?
            && takes(alloc, desk, row.turns, row.marks)?
            && has_replies(alloc, desk, row.replies)?,
    )
}

// A desk of two lanes; lost rounds beyond the limit are as many as the limit.
fn desk_of(alloc: Global, policy: &str, rounds: u8) -> Result<Desk, Fail>
    ensures lanes { IfOk result (λ d. d.lanes ≡ 2) }
    ensures entries { IfOk result (λ d. d.entries ≡ []) }
    ensures done { IfOk result (λ d. IsDone d) }
{
    let policy = policy_reader::read(alloc, policy.as_bytes())?;
    Ok(Desk::new(alloc, policy, 2, rounds.min(ROUND_LIMIT))?)
}

// Takes the jobs of request lines as a batch.
fn load(alloc: Global, desk: &mut Desk, requests: &str) -> Result<bool, AllocError>
    requires { IsDone desk.old }
{
    let batch = jobs_of(alloc, requests.as_bytes(), 2)?;
    load_jobs(alloc, desk, batch.jobs.as_slice())
}

fn load_jobs(alloc: Global, desk: &mut Desk, jobs: &[Job]) -> Result<bool, AllocError>
    requires { IsDone desk.old }
{
    let room = desk.lanes() == 2 && desk.journal().len() < 100 && jobs.len() < 100;
    if !room || !are_of_two_lanes(jobs) {
        return Ok(false);
    }
    desk.load_batch(alloc, jobs)?;
    Ok(true)
}

fn are_of_two_lanes(jobs: &[Job]) -> bool
    ensures { IsTrue result → AreOfLanes 2 jobs.now }
{
    match jobs {
        [] => true,
        [job, rest @ ..] => job.lane < 2 && are_of_two_lanes(rest),
    }
}

// Whether a desk takes turns so.
fn takes(alloc: Global, desk: &mut Desk, turns: &[Event], marks: &str) -> Result<bool, AllocError> {
    if desk.lanes() != 2 || !are_of_lanes(turns) {
        return Ok(false);
    }
    let mut told = String::new(alloc);
    for mark in desk.run_schedule(alloc, &PlainDecider, turns)?.as_slice() {
        push_called(alloc, &mut told, mark_called(mark))?;
    }
    Ok(told.as_str() == marks)
}

// What a mark or a reply is called, with the number that it tells.
type Called = (&'static str, Option<u32>);

fn mark_called(mark: &Mark) -> Called {
    match mark {
        Mark::Served(n) => ("served", Some(*n)),
        Mark::Began(n) => ("began", Some(*n)),
        Mark::Recorded(n) => ("recorded", Some(*n)),
        Mark::Lost => ("lost", None),
        Mark::NoJob => ("no job", None),
        Mark::NoTask => ("no task", None),
        Mark::NotNext => ("not next", None),
        Mark::NoMemory => ("no memory", None),
    }
}

// Adds what is called so, behind those before.
fn push_called(alloc: Global, out: &mut String, called: Called) -> Result<(), AllocError> {
    if !out.is_empty() {
        out.push_str(", ")?;
    }
    out.push_str(called.0)?;
    let Some(n) = called.1 else {
        return Ok(());
    };
    let number = format!(in alloc; " {n}")?;
    out.push_str(number.as_str())
}

fn are_of_lanes(events: &[Event]) -> bool
    ensures { IsTrue result → AreEventsOf 2 events.now }
{
    match events {
        [] => true,
        [
            Event::Begin(lane) | Event::Commit(lane) | Event::Serve(lane),
            rest @ ..,
        ] => { *lane < 2 && are_of_lanes(rest) }
    }
}

// Whether the entries reply so, in order.
fn has_replies(alloc: Global, desk: &Desk, replies: &str) -> Result<bool, AllocError> {
    let mut told = String::new(alloc);
    for entry in desk.journal().as_slice() {
        push_called(alloc, &mut told, reply_called(&entry.reply))?;
    }
    Ok(told.as_str() == replies)
}

fn reply_called(reply: &Reply) -> Called {
    match reply {
        Reply::Opened { case, .. } => ("opened", Some(case.0 as u32)),
        Reply::Edited { number } => ("edited", Some(*number)),
        Reply::Again { at, .. } => ("again", Some(*at)),
        Reply::Granted(_) => ("granted", None),
        Reply::Finished { done: false } => ("finished", None),
        Reply::Returned => ("returned", None),
        Reply::Denied(Denial::Stranded { .. }) => ("stranded", None),
        _ => ("none of these", None),
    }
}

// Turns and their marks, how lane 0 commits its next task behind them, and what comes of it.
type Late = (&'static [Event], &'static str, How, Outcome);

// Entries before a lane's last one lose no task, nor do those for which it was lost before.
const MISSES: &[Late] = &[
    (
        &[S0, S0, S0],
        "served 0, served 1, served 2",
        How::After(1),
        Outcome::Recorded(3),
    ),
    (
        &[S1, S1],
        "served 4, served 5",
        How::After(4),
        Outcome::Lost,
    ),
    (&[], "", How::After(4), Outcome::Recorded(6)),
];

fn misses(alloc: Global, desk: &mut Desk) -> Result<bool, AllocError>
    requires { IsDone desk.old }
{
    if !load(alloc, desk, CLAIMS)? {
        return Ok(false);
    }
    for (turns, marks, how, outcome) in MISSES {
        if !takes(alloc, desk, turns, marks)? || commits(alloc, desk, *how)? != *outcome {
            return Ok(false);
        }
    }
    Ok(true)
}

// Lane 0 gives dan a role; lane 1 opens a case.
const EDITING: &str = r#"{"do":"enrol","by":"eve","user":"dan","role":"boss"}
{"do":"open","flow":"pay","lane":1}
"#;

// Where it is checked once more, a stale edit is decided in the turn.
fn is_decided_in_the_turn(alloc: Global, desk: &mut Desk) -> Result<bool, AllocError>
    requires { IsDone desk.old }
{
    Ok(
        load(alloc, desk, EDITING)?
            && commits(alloc, desk, How::Checked)? == Outcome::Recorded(1)
            && has_replies(alloc, desk, "opened 0, edited 1")?,
    )
}

/// How a task is committed.
#[derive(Clone, Copy)]
enum How {
    /// As if it had been taken after this number of entries.
    After(u32),
    /// With its verdict, which is checked once more, behind a turn of lane 1.
    Checked,
}

// Commits the task of the next job of lane 0.
fn commits(alloc: Global, desk: &mut Desk, how: How) -> Result<Outcome, AllocError> {
    if desk.lanes() != 2 {
        return Ok(Outcome::NotNext);
    }
    match desk.begin(alloc, 0)? {
        Some(mut task) => Ok(commits_task(alloc, desk, &mut task, how)),
        None => Ok(Outcome::NotNext),
    }
}

fn commits_task(alloc: Global, desk: &mut Desk, task: &mut Task, how: How) -> Outcome
    requires { desk.old.lanes ≡ 2 }
{
    match how {
        How::Checked => checks(alloc, desk, task),
        How::After(_) if task.lane >= desk.lanes() => Outcome::NotNext,
        How::After(number) => {
            task.number = number;
            desk.commit(alloc, &PlainDecider, task, Verdict::Nothing)
        }
    }
}

fn checks(alloc: Global, desk: &mut Desk, task: &Task) -> Outcome
    requires { desk.old.lanes ≡ 2 }
{
    let verdict = solve_task(alloc, &PlainDecider, task);
    if !desk.serve_next(alloc, &PlainDecider, 1) || task.lane >= desk.lanes() {
        return Outcome::NotNext;
    }
    desk.commit_checked(alloc, &PlainDecider, task, verdict)
}
