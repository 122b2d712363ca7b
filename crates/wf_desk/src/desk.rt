//! The desk, with its calls.
ghost use Rattle.std.specs.Prelude.{◌≡◌, ◌≤◌, ◌<◌, ◌+◌, ◌↔◌, ◌≢◌, nat_le, Bool, true, false, []};
ghost use Rattle.std.specs.Prelude.{drop, length, replicate, OnErr, OnOk, IfOk, IfSome, None, Some};
ghost use Rattle.std.specs.Prelude.{Option, Ok};
ghost use Rattle.wf_names.specs.declared.limits.TheConstants.{BATCH_LINE_LIMIT, LANE_LIMIT};
ghost use Rattle.wf_names.specs.declared.limits.TheConstants.{ROUND_LIMIT};
ghost use Rattle.wf_board.specs.Boards.{book_on, state_on};
ghost use Rattle.wf_board.specs.Laws.States.{opening_state};
ghost use Rattle.wf_board.specs.Deeds.{IsUndecided};
ghost use Rattle.wf_board.specs.Laws.Found.{IsFound};
ghost use Rattle.wf_board.specs.Verdicts.{Decides, IsDecided, IsPlanFor, IsRight};
ghost use Rattle.std.specs.Arc.{arc_value};
ghost use Rattle.wf_board.specs.Laws.Histories.{IsLegal, state_after};
ghost use Rattle.wf_desk.specs.Desks.{AnswersPart, AreOfLanes, HasAdded, HasTakenBatch, IsDone};
ghost use Rattle.wf_desk.specs.Desks.{IsSoundDesk, desk_with, jobs_told, left_of, next_job};
ghost use Rattle.wf_desk.specs.Desks.{no_loss};
ghost use Rattle.wf_desk.specs.Laws.Commits.{HasCommitted, HasCommittedChecked, HasServed};
ghost use Rattle.wf_desk.specs.Laws.Commits.{HasTakenUp};
ghost use Rattle.wf_desk.specs.Laws.Commits.{IsAgain, IsNext, IsRightFor, IsTask, floor_of};
ghost use Rattle.wf_desk.specs.Laws.Commits.{is_change};
ghost use Rattle.wf_desk.specs.Laws.Commits.{is_fresh, is_fresh_or_change, is_last_round, is_lost};
ghost use Rattle.wf_desk.specs.Laws.Commits.{job_of_task, with_loss};
ghost use Rattle.wf_desk.specs.Keeping.{HasCommittedNone, HasLookedAt, HasMissed, HasNext};
ghost use Rattle.wf_desk.specs.Keeping.{LeavesDeed, may_lose};

use crate::docket::{count_of_lane, first_places, go_on, job_here, places_after};
use crate::journal::{add_entry, any_counts, any_of_lane, entries_from, last_counting};
use crate::{Loss, Outcome, Taken, Task};
use constraint_forms::Plan;
use policy_book::Policy;
use std::alloc::{AllocError, Global};
use std::marker::Model;
use std::sync::Arc;
use wf_board::{Board, Decider, Deed, Stepped, Verdict, is_harmless_deed, is_view};
use wf_names::LANE_LIMIT;
use wf_talk::{Ask, Job, Jobs, Journal, Reply, Request};

/// A journal with the board after it, and the jobs that were given, the last batch of which is
/// served lane by lane.
#[derive(Drop)]
pub struct Desk {
    opening: Arc<Policy, Global>,
    lanes: u8,
    rounds: u8,
    board: Board,
    journal: Journal,
    /// All jobs that were given, batch after batch.
    jobs: Jobs,
    /// Where those of the batch begin.
    first: usize,
    start: u32,
    /// How many entries were taken up from an earlier session.
    restored: u32,
    losses: [Loss; LANE_LIMIT as usize],
    /// For each lane the place of its next job among those of the batch.
    places: [u32; LANE_LIMIT as usize],
}

impl Model for Desk {
    ghost use Rattle.std.specs.Arc.{arc_value};
    ghost use Rattle.std.specs.Coded.{codes};
    ghost use Rattle.policy_book.specs.Laws.Shapes.{policy_code};
    ghost use Rattle.refutation_tree.specs.Codes.{kids_code};
    ghost use Rattle.wf_desk.specs.Desks.{DeskShape};
    ghost use Rattle.std.specs.Prelude.{take, drop};
    ghost use Rattle.wf_desk.specs.Keeping.{IsDeskAt};

    ghost Value = { DeskShape };

    ghost coded = { Prim.hlevel (codes, policy_code, kids_code) };

    ghost view = { λ d. record {
      opening = arc_value d.opening;
      lanes = d.lanes;
      rounds =
          d.rounds;
      board = d.board;
      entries = d.journal.entries;
      spare = d.journal.spare;
      earlier = take d.first d.jobs;
      jobs = drop d.first d.jobs;
      start = d.start;
      restored = d.restored;
      losses = d.losses;
    } };

    ghost invariant = { λ d. IsDeskAt
        (record {
          opening = arc_value d.opening;
          lanes = d.lanes;
          rounds = d.rounds;
          board =
              d.board;
          entries = d.journal.entries;
          spare = d.journal.spare;
          earlier = take d.first d.jobs;
          jobs = drop d.first d.jobs;
          start =
              d.start;
          restored = d.restored;
          losses = d.losses;
        }) d.places d.jobs d.first };
}

impl Desk {
    /// A desk for `lanes` lanes, from 1 to 8, at which no job is left. A job that needs a verdict
    /// is answered again after `rounds` lost rounds, up to 8; with none no job is ever lost.
    pub fn new(alloc: Global, policy: Policy, lanes: u8, rounds: u8) -> Result<Desk, AllocError>
        requires some { 0 < lanes }
        requires lanes { lanes ≤ LANE_LIMIT }
        requires rounds { rounds ≤ ROUND_LIMIT }
        ensures begins { IfOk result (λ d. d
            ≡ desk_with policy lanes rounds d.board [] d.spare) }
        ensures state { IfOk result (λ d. state_on d.board ≡ opening_state policy) }
    {
        let opening = Arc::new(alloc, policy)?;
        let board = Board::of(alloc, Arc::try_clone(&opening)?)?;
        Ok(Desk::with_journal(alloc, opening, board, Journal::new(alloc), lanes, rounds))
    }

    /// A desk that goes on from the entries of an earlier session, after which the board stands so;
    /// no job is left at it. There may be fewer than 4,294,967,296 entries.
    pub fn restore(
        alloc: Global,
        policy: Policy,
        board: Board,
        journal: Journal,
        lanes: u8,
        rounds: u8,
    ) -> Result<Desk, AllocError>
        requires some { 0 < lanes }
        requires lanes { lanes ≤ LANE_LIMIT }
        requires rounds { rounds ≤ ROUND_LIMIT }
        requires few { length journal.entries < 4294967296 }
        requires legal { IsLegal (opening_state policy) rounds journal.entries }
        requires state { state_on board ≡ state_after (opening_state policy) journal.entries }
        ensures { IfOk result (λ d. d
            ≡ desk_with policy lanes rounds board journal.entries journal.spare) }
    {
        let opening = Arc::new(alloc, policy)?;
        Ok(Desk::with_journal(alloc, opening, board, journal, lanes, rounds))
    }

    // A desk at which these entries stand already, with the board after them.
    fn with_journal(
        alloc: Global,
        opening: Arc<Policy, Global>,
        board: Board,
        journal: Journal,
        lanes: u8,
        rounds: u8,
    ) -> Desk
        requires lanes { lanes ≤ LANE_LIMIT }
        requires few { length journal.entries < 4294967296 }
        requires legal { IsLegal (opening_state (arc_value opening)) rounds journal.entries }
        requires state { state_on board
            ≡ state_after (opening_state (arc_value opening)) journal.entries }
        ensures { result
            ≡ desk_with (arc_value opening) lanes rounds board journal.entries journal.spare }
    {
        let count = journal.len() as u32;
        Desk {
            opening,
            lanes,
            rounds,
            board,
            journal,
            jobs: Jobs::new(alloc),
            first: 0,
            start: count,
            restored: count,
            losses: no_losses(),
            places: first_places(&[]),
        }
    }

    /// Keeps these jobs before those that are to come, as they were answered before it began.
    pub fn behind(&mut self, jobs: Jobs)
        requires none { jobs_told self.old ≡ [] }
        ensures { self.new ≡ record self.old { earlier = jobs } }
    {
        self.first = jobs.len();
        self.jobs = jobs;
    }

    /// Takes the jobs of the next batch, and makes room for their entries and for the cases that
    /// they may open. Without memory the desk stays as it was.
    pub fn load_batch(&mut self, alloc: Global, jobs: &[Job]) -> Result<(), AllocError>
        requires done { IsDone self.old }
        requires few { length jobs.now ≤ BATCH_LINE_LIMIT }
        requires lanes { AreOfLanes self.old.lanes jobs.now }
        requires small { length self.old.entries + length jobs.now < 4294967296 }
        ensures { HasTakenBatch self.old self.new jobs.now (length self.old.entries) result }
    {
        let start = self.number();
        self.resume_batch(alloc, jobs, start)
    }

    /// Takes the jobs of a batch of which the entries from a place on answer some already, and
    /// makes room as for a whole batch. Without memory the desk stays as it was.
    pub fn resume_batch(&mut self, alloc: Global, jobs: &[Job], from: u32) -> Result<(), AllocError>
        requires done { IsDone self.old }
        requires few { length jobs.now ≤ BATCH_LINE_LIMIT }
        requires lanes { AreOfLanes self.old.lanes jobs.now }
        requires small { from + length jobs.now < 4294967296 }
        requires part { AnswersPart self.old.entries from jobs.now }
        ensures { HasTakenBatch self.old self.new jobs.now from result }
    {
        let _ = alloc;
        self.journal.reserve(jobs.len() as u32)?;
        self.board.reserve(jobs.len() as u16)?;
        let places = places_after(jobs, entries_from(&self.journal, from));
        let first = self.jobs.len();
        self.jobs.push_all(jobs)?;
        self.first = first;
        self.start = from;
        self.losses = no_losses();
        self.places = places;
        Ok(())
    }

    /// The task of a lane's next job, if it has one left.
    pub fn begin(&self, alloc: Global, lane: u8) -> Result<Option<Task>, AllocError>
        requires { lane < self.now.lanes }
        ensures none { IfOk result (λ found. found ≡ None → next_job self.now lane ≡ None) }
        ensures task { IfOk result (λ found. (t : Task) → found ≡ Some t → IsTask self.now lane t) }
        ensures memory { OnErr result (next_job self.now lane ≢ None) }
    {
        if !self.has_next(lane) {
            return Ok(None);
        }
        Ok(Some(self.task_of(alloc, lane)?))
    }

    /// Takes a task's verdict, in a turn. Where nothing that it rests on has changed since, the
    /// verdict decides. Else the task may be lost, and has to be found again; a job that was lost
    /// in all of its rounds is answered again. A task that may not be lost is decided anew.
    pub fn commit<V: Decider>(
        &mut self,
        alloc: Global,
        decider: &V,
        task: &Task,
        verdict: Verdict,
    ) -> Outcome
        requires ready { V.ready decider.now }
        requires lane { task.now.lane < self.old.lanes }
        requires right { IsRightFor self.old task.now verdict }
        ensures { HasCommitted self.old self.new task.now verdict result }
    {
        if !self.is_next(task) {
            return Outcome::NotNext;
        }
        if self.is_fresh(task) {
            return Outcome::Recorded(self.serve(alloc, decider, task.lane, verdict));
        }
        self.miss(alloc, decider, task)
    }

    /// Takes a task's verdict, in a turn, whatever is known of it: a plan or a tree is checked
    /// once more, and decides where it is right now. An edit or a view is always decided anew.
    pub fn commit_checked<V: Decider>(
        &mut self,
        alloc: Global,
        decider: &V,
        task: &Task,
        verdict: Verdict,
    ) -> Outcome
        requires ready { V.ready decider.now }
        requires lane { task.now.lane < self.old.lanes }
        ensures { HasCommittedChecked self.old self.new task.now verdict result }
    {
        if !self.is_next(task) {
            Outcome::NotNext
        } else if self.board.accepts(&task.ask, &verdict) {
            Outcome::Recorded(self.serve(alloc, decider, task.lane, verdict))
        } else {
            self.commit_none(alloc, decider, task)
        }
    }

    /// Decides a lane's next job inside the turn, and tells whether there was one. It is never
    /// answered again.
    pub fn serve_next<V: Decider>(&mut self, alloc: Global, decider: &V, lane: u8) -> bool
        requires ready { V.ready decider.now }
        requires lane { lane < self.old.lanes }
        ensures { HasServed self.old self.new lane result }
    {
        if !self.has_next(lane) {
            return false;
        }
        self.serve(alloc, decider, lane, Verdict::Nothing);
        true
    }

    /// Takes up a lane's next job, in a turn. Where nothing has to be searched it is decided at
    /// once, and with `near` also where a plan is at hand. Else there is its task, or no memory for
    /// one, and nothing changes.
    pub fn take_up<V: Decider>(
        &mut self,
        alloc: Global,
        decider: &V,
        near: bool,
        lane: u8,
    ) -> Result<Taken, AllocError>
        requires ready { V.ready decider.now }
        requires lane { lane < self.old.lanes }
        ensures { HasTakenUp near self.old self.new lane result }
    {
        if !self.has_next(lane) {
            return Ok(Taken::Ended);
        }
        match self.look_at(alloc, lane) {
            None => Ok(Taken::Served),
            Some(deed) => self.take_up_left(alloc, decider, near, lane, deed),
        }
    }

    // Takes up a job of which the deed is left to decide.
    fn take_up_left<V: Decider>(
        &mut self,
        alloc: Global,
        decider: &V,
        near: bool,
        lane: u8,
        deed: Deed,
    ) -> Result<Taken, AllocError>
        requires ready { V.ready decider.now }
        requires lane { lane < self.old.lanes }
        requires left { LeavesDeed self.old lane deed }
        ensures { HasTakenUp near self.old self.new lane result }
    {
        match self.plan_at_hand(decider, near, &deed) {
            Some(plan) => {
                self.serve_plan(lane, deed, plan);
                Ok(Taken::Planned)
            }
            None => self.take_up_deed(alloc, decider, lane, &deed),
        }
    }

    // A plan for a deed that is left to decide, where plans at hand may decide and there is one.
    fn plan_at_hand<V: Decider>(&self, decider: &V, near: bool, deed: &Deed) -> Option<Plan>
        requires ready { V.ready decider.now }
        requires found { IsFound self.now.board.policy self.now.board.cases.rows deed.now }
        ensures plan { IfSome result (IsPlanFor (state_on self.now.board).book (Ok deed.now)) }
        ensures near { IfSome result (λ plan. near ≡ true) }
    {
        if near {
            self.board.near_plan(decider, deed)
        } else {
            None
        }
    }

    // Takes up a job of which the deed is left to decide, with no plan at hand.
    fn take_up_deed<V: Decider>(
        &mut self,
        alloc: Global,
        decider: &V,
        lane: u8,
        deed: &Deed,
    ) -> Result<Taken, AllocError>
        requires ready { V.ready decider.now }
        requires lane { lane < self.old.lanes }
        requires left { LeavesDeed self.old lane deed.now }
        ensures { (near : Bool) → HasTakenUp near self.old self.new lane result }
    {
        if !is_harmless_deed(deed) {
            return Ok(Taken::Task(self.task_of(alloc, lane)?));
        }
        if self.serve_next(alloc, decider, lane) {
            Ok(Taken::Served)
        } else {
            Ok(Taken::Ended)
        }
    }

    // The task of a lane's next job.
    fn task_of(&self, alloc: Global, lane: u8) -> Result<Task, AllocError>
        requires lane { lane < self.now.lanes }
        requires next { HasNext self.now lane }
        ensures { IfOk result (IsTask self.now lane) }
    {
        let job = job_here(batch_of(&self.jobs, self.first), self.places[lane as usize]);
        Ok(Task {
            lane,
            line: job.line,
            ask: job.ask,
            number: self.number(),
            snap: self.board.snap(alloc, &job.ask)?,
        })
    }

    // Answers a lane's next job, if it needs no verdict. Else there is its deed, and nothing
    // changes.
    fn look_at(&mut self, alloc: Global, lane: u8) -> Option<Deed>
        requires lane { lane < self.old.lanes }
        requires next { HasNext self.old lane }
        ensures { (job : Job) → next_job self.old lane ≡ Some job
            → HasLookedAt self.old self.new job result }
    {
        let job = job_here(batch_of(&self.jobs, self.first), self.places[lane as usize]);
        match self.board.step(alloc, &job.ask) {
            Stepped::Undecided(deed) => Some(deed),
            Stepped::Done(reply) => {
                add_entry(&mut self.journal, job, reply);
                go_on(&mut self.places, batch_of(&self.jobs, self.first), job.lane);
                self.losses[job.lane as usize] = no_loss();
                None
            }
        }
    }

    /// How many lanes there are.
    pub fn lanes(&self) -> u8
        ensures count { result ≡ self.now.lanes }
        ensures within { self.now.lanes ≤ LANE_LIMIT }
    {
        self.lanes
    }

    /// After how many lost rounds a request is answered again.
    pub fn rounds(&self) -> u8
        ensures count { result ≡ self.now.rounds }
    {
        self.rounds
    }

    /// How many jobs a lane has left.
    pub fn left(&self, lane: u8) -> u32
        ensures { result ≡ left_of self.now lane }
    {
        if lane < self.lanes {
            count_of_lane(
                &batch_of(&self.jobs, self.first)[self.places[lane as usize] as usize..],
                lane,
            )
        } else {
            0
        }
    }

    /// The entries so far.
    pub fn journal(&self) -> &Journal
        ensures entries { result.now.entries ≡ self.now.entries }
        ensures sound { IsSoundDesk self.now }
    {
        &self.journal
    }

    /// The board after the entries so far.
    pub fn board(&self) -> &Board
        ensures board { result.now ≡ self.now.board }
        ensures sound { IsSoundDesk self.now }
    {
        &self.board
    }

    /// The board and the entries.
    pub fn into_parts(self) -> (Board, Journal)
        ensures board { result.0 ≡ self.board }
        ensures entries { result.1.entries ≡ self.entries }
        ensures sound { IsSoundDesk self }
    {
        (self.board, self.journal)
    }

    /// How many jobs were given.
    pub fn count_told(&self) -> usize
        ensures { result ≡ length (jobs_told self.now) }
    {
        self.jobs.len()
    }

    /// The entries, and all jobs that were given.
    pub fn into_told(self) -> (Journal, Jobs)
        ensures entries { result.0.entries ≡ self.entries }
        ensures jobs { result.1 ≡ jobs_told self }
        ensures sound { IsSoundDesk self }
    {
        (self.journal, self.jobs)
    }

    // Whether a lane has a job left.
    fn has_next(&self, lane: u8) -> bool
        requires { lane < self.now.lanes }
        ensures none { result ≡ false → next_job self.now lane ≡ None }
        ensures some { result ≡ true → HasNext self.now lane }
    {
        (self.places[lane as usize] as usize) < batch_of(&self.jobs, self.first).len()
    }

    // How many entries there are.
    fn number(&self) -> u32
        ensures { result ≡ length self.now.entries }
    {
        self.journal.len() as u32
    }

    // Whether a task is for its lane's next job.
    fn is_next(&self, task: &Task) -> bool
        requires { task.now.lane < self.now.lanes }
        ensures { result ≡ true ↔ IsNext self.now task.now }
    {
        if !self.has_next(task.lane) {
            return false;
        }
        let next = job_here(
            batch_of(&self.jobs, self.first),
            self.places[task.lane as usize],
        );
        is_job_of(next, task)
    }

    // Whether no entry since counts for what a task asks.
    fn is_fresh(&self, task: &Task) -> bool
        ensures fresh { result ≡ is_fresh self.now task.now }
        ensures right { result ≡ true → (v : Verdict) → IsRightFor self.now task.now v
            → IsRight (state_on self.now.board).book task.now.ask v }
    {
        !any_counts(entries_from(&self.journal, task.number), &task.ask)
    }

    // Whether no entry since counts for a task, or it is an edit.
    fn is_fresh_or_change(&self, task: &Task) -> bool
        ensures kept { result ≡ is_fresh_or_change self.now task.now }
        ensures stale { result ≡ false → is_fresh self.now task.now ≡ false }
    {
        self.is_fresh(task) || is_change(&task.ask)
    }

    // Whether a task that is stale is lost, if it needs a verdict.
    fn may_lose(&self, task: &Task) -> bool
        requires { task.now.lane < self.now.lanes }
        ensures { result ≡ may_lose self.now task.now }
    {
        1 <= self.rounds && !is_view(&task.ask) && self.is_past_floor(task)
    }

    // Whether all that a task missed may make it lost.
    fn is_past_floor(&self, task: &Task) -> bool
        requires { task.now.lane < self.now.lanes }
        ensures { result ≡ nat_le (floor_of self.now task.now.lane) task.now.number }
    {
        let before = self.start.max(self.losses[task.lane as usize].end);
        before <= task.number && !any_of_lane(entries_from(&self.journal, task.number), task.lane)
    }

    // Whether one more loss of a lane's next job is the last that it may have.
    fn is_last_round(&self, lane: u8) -> bool
        requires { lane < self.now.lanes }
        ensures { result ≡ is_last_round self.now lane }
    {
        self.rounds as u32 <= self.losses[lane as usize].count as u32 + 1
    }

    // What becomes of a task without a verdict.
    fn commit_none<V: Decider>(&mut self, alloc: Global, decider: &V, task: &Task) -> Outcome
        requires ready { V.ready decider.now }
        requires lane { task.now.lane < self.old.lanes }
        requires next { IsNext self.old task.now }
        ensures { HasCommittedNone self.old self.new task.now result }
    {
        if self.is_fresh_or_change(task) {
            return Outcome::Recorded(self.serve(alloc, decider, task.lane, Verdict::Nothing));
        }
        self.miss(alloc, decider, task)
    }

    // What becomes of a task that is stale.
    fn miss<V: Decider>(&mut self, alloc: Global, decider: &V, task: &Task) -> Outcome
        requires ready { V.ready decider.now }
        requires lane { task.now.lane < self.old.lanes }
        requires next { IsNext self.old task.now }
        requires stale { is_fresh self.old task.now ≡ false }
        ensures { HasMissed self.old self.new task.now result }
    {
        if !self.may_lose(task) {
            return Outcome::Recorded(self.serve(alloc, decider, task.lane, Verdict::Nothing));
        }
        let at = self.number();
        match self.look_at(alloc, task.lane) {
            None => Outcome::Recorded(at),
            Some(_) => self.miss_round(task),
        }
    }

    // What becomes of a task that is lost.
    fn miss_round(&mut self, task: &Task) -> Outcome
        requires lane { task.now.lane < self.old.lanes }
        requires next { IsNext self.old task.now }
        requires stale { is_fresh self.old task.now ≡ false }
        requires lost { is_lost self.old task.now ≡ true }
        ensures { HasMissed self.old self.new task.now result }
    {
        if self.is_last_round(task.lane) {
            Outcome::Recorded(self.record_again(task))
        } else {
            self.lose(task);
            Outcome::Lost
        }
    }

    // Decides a lane's next job, with a verdict if there is one, and adds its entry.
    fn serve<V: Decider>(&mut self, alloc: Global, decider: &V, lane: u8, verdict: Verdict) -> u32
        requires ready { V.ready decider.now }
        requires lane { lane < self.old.lanes }
        requires right { (job : Job) × ((next_job self.old lane ≡ Some job)
            × IsRight (state_on self.old.board).book job.ask verdict) }
        ensures { (job : Job) → next_job self.old lane ≡ Some job
            → HasAdded self.old self.new job result (IsDecided self.old.board job.ask verdict) }
    {
        let job = job_here(batch_of(&self.jobs, self.first), self.places[lane as usize]);
        let reply = self.board.decide(alloc, decider, &job.ask, verdict);
        let at = add_entry(&mut self.journal, job, reply);
        go_on(&mut self.places, batch_of(&self.jobs, self.first), job.lane);
        self.losses[job.lane as usize] = no_loss();
        at
    }

    // Decides a lane's next job by a plan, and adds its entry.
    fn serve_plan(&mut self, lane: u8, deed: Deed, plan: Plan)
        requires lane { lane < self.old.lanes }
        requires left { LeavesDeed self.old lane deed }
        requires plan { IsPlanFor (state_on self.old.board).book (Ok deed) plan }
        ensures { (job : Job) → next_job self.old lane ≡ Some job
            → HasAdded self.old self.new job (length self.old.entries)
            (IsDecided self.old.board job.ask (Verdict.Plan plan)) }
    {
        let job = job_here(batch_of(&self.jobs, self.first), self.places[lane as usize]);
        let reply = self.board.take_plan(&job.ask, deed, plan);
        add_entry(&mut self.journal, job, reply);
        go_on(&mut self.places, batch_of(&self.jobs, self.first), job.lane);
        self.losses[job.lane as usize] = no_loss();
    }

    // Answers a lane's next job again, after its last round.
    fn record_again(&mut self, task: &Task) -> u32
        requires lane { task.now.lane < self.old.lanes }
        requires next { IsNext self.old task.now }
        requires stale { is_fresh self.old task.now ≡ false }
        requires lost { is_lost self.old task.now ≡ true }
        requires last { is_last_round self.old task.now.lane ≡ true }
        ensures { HasAdded self.old self.new (job_of_task task.now) result
            (IsAgain self.old task.now) }
    {
        let job = job_of(task);
        let reply = Reply::Again {
            rounds: self.rounds,
            at: last_counting(&self.journal, &job.ask),
        };
        let at = add_entry(&mut self.journal, &job, reply);
        go_on(&mut self.places, batch_of(&self.jobs, self.first), job.lane);
        self.losses[job.lane as usize] = no_loss();
        at
    }

    // One more loss of a lane's next job.
    fn lose(&mut self, task: &Task)
        requires lane { task.now.lane < self.old.lanes }
        requires next { IsNext self.old task.now }
        requires stale { is_fresh self.old task.now ≡ false }
        requires lost { is_lost self.old task.now ≡ true }
        requires some { is_last_round self.old task.now.lane ≡ false }
        ensures { self.new ≡ with_loss self.old task.now.lane }
    {
        let end = self.number();
        let count = self.losses[task.lane as usize].count + 1;
        self.losses[task.lane as usize] = Loss { count, end };
    }
}

// The jobs of the last batch.
#[tactic(auto, using(crate::proofs::DocketLaws::rest_from))]
fn batch_of(jobs: &Jobs, first: usize) -> &[Job]
    requires { first ≤ length jobs.now }
    ensures { result.now ≡ drop first jobs.now }
{
    &jobs.as_slice()[first..]
}

// Whether this is an edit of the policy.
fn is_change(ask: &Ask) -> bool
    ensures { result ≡ is_change ask.now }
{
    matches!(ask, Ask::Request(Request::Change { .. }))
}

// The job of a task.
fn job_of(task: &Task) -> Job
    ensures { result ≡ job_of_task task.now }
{
    Job {
        lane: task.lane,
        line: task.line,
        ask: task.ask,
    }
}

// Whether a job is that of a task.
fn is_job_of(job: &Job, task: &Task) -> bool
    ensures { result ≡ true ↔ job.now ≡ job_of_task task.now }
{
    *job == job_of(task)
}

fn no_loss() -> Loss
    ensures { result ≡ no_loss }
{
    Loss { count: 0, end: 0 }
}

fn no_losses() -> [Loss; LANE_LIMIT as usize]
    ensures { result ≡ replicate LANE_LIMIT no_loss }
{
    [no_loss(); LANE_LIMIT as usize]
}

/// A verdict on a task, found on its snapshot.
pub fn solve_task<V: Decider>(alloc: Global, decider: &V, task: &Task) -> Verdict
    requires { V.ready decider.now }
    ensures { Decides (book_on task.now.snap) task.now.ask result }
{
    decider.decide(alloc, &task.snap, &task.ask)
}
