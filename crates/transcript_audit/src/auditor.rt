//! The auditor, with its calls.
ghost use Rattle.std.specs.Prelude.{◌≡◌, ◌↔◌, ◌≤◌, ◌-◌, true, length, nat_eq, slice_index_or, IfOk};
ghost use Rattle.std.specs.Prelude.{IfSome, IsErrOf, None, OnOk, Some};
ghost use Rattle.wf_names.specs.declared.limits.TheConstants.{LANE_LIMIT};
ghost use Rattle.line_reader.specs.Laws.{AreInOrder};
ghost use Rattle.wf_board.specs.Boards.{state_on};
ghost use Rattle.wf_board.specs.Laws.Histories.{IsLegal};
ghost use Rattle.wf_board.specs.Laws.States.{opening_state};
ghost use Rattle.wf_desk.specs.Laws.Parts.{FillsPart};
ghost use Rattle.entry_reader.specs.Fault.{not_text};
ghost use Rattle.entry_reader.specs.Laws.Lines.{HasNoReply, HasReply};
ghost use Rattle.entry_reader.specs.Places.{place_of_line};
ghost use Rattle.wf_talk.specs.declared.reply.Reply.TheVariants as reply;
ghost use Rattle.transcript_audit.specs.Auditor.{ComesNext, audit_of, flows_now, next_job};
ghost use Rattle.transcript_audit.specs.Auditor.{place_told, state_now};
ghost use Rattle.transcript_audit.specs.Laws.Outcomes.{EndsAudit, HasTakenLine};
ghost use Rattle.transcript_audit.specs.Keeping.{HasEntered, TellsReply, TriesLine, IsDueIf};
ghost use Rattle.transcript_audit.specs.Keeping.{ReadsLineTo};
ghost use Rattle.transcript_audit.specs.Keeping.{again_in, entry_next};

use crate::again::again_in;
use crate::flaw::{Flaw, flaw_of_text};
use crate::flows::Flows;
use crate::record::Record;
use crate::verdict::verdict_for;
use crate::{AuditFault, AuditKind};
use basics::Fault;
use entry_reader::{NotText, Place, TextFault, guess_place, read_place, read_plain, read_reply};
use policy_book::Policy;
use std::alloc::{AllocError, Global};
use std::marker::Model;
use std::sync::Arc;
use wf_board::{Board, Decider, NotStep, is_view};
use wf_talk::{Ask, Ends, Entry, Job, Jobs, Journal, Reply};

/// An audit of a transcript, line by line.
#[derive(Drop)]
pub struct Auditor {
    record: Record,
    /// The board after the entries so far.
    board: Board,
}

impl Model for Auditor {
    ghost use Rattle.std.specs.Prelude.{◌≡◌};
    ghost use Rattle.std.specs.Coded.{codes};
    ghost use Rattle.policy_book.specs.Laws.Shapes.{policy_code};
    ghost use Rattle.refutation_tree.specs.Codes.{kids_code};
    ghost use Rattle.wf_board.specs.Boards.{state_on};
    ghost use Rattle.transcript_audit.specs.Auditor.{AuditShape, state_now};

    ghost Value = { AuditShape };

    ghost coded = { Prim.hlevel (codes, policy_code, kids_code) };

    ghost view = { λ a. a.record.audit };

    ghost invariant = { λ a. state_on a.board ≡ state_now a.record.audit };
}

impl Auditor {
    /// An audit before the first line: of a session that begins with this policy, has these jobs
    /// with the ends of their batches, and answers a job again after `rounds` lost rounds.
    pub fn new(
        alloc: Global,
        policy: Policy,
        jobs: Jobs,
        ends: Ends,
        rounds: u8,
    ) -> Result<Auditor, AllocError>
        requires order { AreInOrder LANE_LIMIT jobs ends }
        ensures { IfOk result (λ a. a ≡ audit_of policy rounds jobs ends) }
    {
        let opening = Arc::new(alloc, policy)?;
        let board = Board::of(alloc, Arc::try_clone(&opening)?)?;
        Ok(Auditor {
            record: Record::new(alloc, opening, rounds, jobs, ends),
            board,
        })
    }

    /// Takes one line, with its LF if it has one. After a line that is wrong each line is refused
    /// with the fault of that one. For want of memory nothing is changed.
    pub fn line<V: Decider>(
        &mut self,
        alloc: Global,
        decider: &V,
        line: &[u8],
    ) -> Result<(), AuditFault>
        requires ready { V.ready decider.now }
        ensures taken { HasTakenLine self.old self.new line.now result }
        ensures few { OnOk result (length self.new.entries ≤ length self.new.jobs) }
    {
        if let Some(kind) = self.record.fault() {
            return Err(AuditFault::At(self.record.number(), kind));
        }
        match self.take(alloc, decider, line) {
            Ok(()) => {
                let _within = self.record.is_done();
                Ok(())
            }
            Err(Fault::Cause(kind)) => {
                self.record.keep_fault(kind);
                Err(AuditFault::At(self.record.number(), kind))
            }
            Err(Fault::NoMemory) => Err(AuditFault::NoMemory),
        }
    }

    /// Whether the transcript ends well: no line was wrong, and each job has its entry.
    pub fn end(&self) -> Result<(), AuditFault>
        ensures { EndsAudit self.now result }
    {
        match self.record.fault() {
            Some(kind) => Err(AuditFault::At(self.record.number(), kind)),
            None => {
                if self.record.is_done() {
                    Ok(())
                } else {
                    Err(AuditFault::At(self.record.number(), AuditKind::Missing))
                }
            }
        }
    }

    /// The board after the entries so far.
    pub fn board(&self) -> &Board
        ensures { state_on result.now ≡ state_now self.now }
    {
        &self.board
    }

    /// The entries so far.
    pub fn entries(&self) -> &[Entry]
        ensures { result.now ≡ self.now.entries }
    {
        self.record.entries()
    }

    /// The board after the entries so far, the entries, and the jobs with the ends of their
    /// batches.
    pub fn into_parts(self) -> (Board, Journal, Jobs, Ends)
        ensures state { state_on result.0 ≡ state_now self }
        ensures entries { result.1.entries ≡ self.entries }
        ensures jobs { result.2 ≡ self.jobs }
        ensures ends { result.3 ≡ self.batch_ends }
        ensures legal { IsLegal (opening_state self.opening) self.rounds self.entries }
        ensures part { FillsPart self.entries self.jobs self.batch_ends }
    {
        let Auditor { record, board } = self;
        let (journal, jobs, ends) = record.into_parts();
        (board, journal, jobs, ends)
    }

    // Takes one line, where none before was wrong.
    fn take<V: Decider>(&mut self, alloc: Global, decider: &V, line: &[u8]) -> Result<(), Flaw>
        requires ready { V.ready decider.now }
        ensures { TriesLine self.old self.new line.now result }
    {
        let (job, reply) = self.read(alloc, line)?;
        self.enter(alloc, decider, &job, reply)
    }

    // The job that a line answers, and the reply.
    fn read(&self, alloc: Global, line: &[u8]) -> Result<(Job, Reply), Flaw>
        ensures { ReadsLineTo self.now line.now result }
    {
        match self.read_quickly(alloc, line)? {
            Some(found) => Ok(found),
            None => self.read_fully(alloc, line),
        }
    }

    // The same of a line as most are; None says nothing.
    fn read_quickly(&self, alloc: Global, line: &[u8]) -> Result<Option<(Job, Reply)>, AllocError>
        ensures { IfOk result
            (λ o. IfSome o (λ found. TellsReply self.now line.now found.0 found.1)) }
    {
        let Some(place) = guess_place(line) else {
            return Ok(None);
        };
        if !is_ended(line) || place.at != self.record.number() {
            return Ok(None);
        }
        let Some(job) = self.due(&place) else {
            return Ok(None);
        };
        match self.reply_quickly(alloc, &job.ask, place, line)? {
            Some(reply) => Ok(Some((job, reply))),
            None => Ok(None),
        }
    }

    // The same of any line.
    fn read_fully(&self, alloc: Global, line: &[u8]) -> Result<(Job, Reply), Flaw>
        ensures { ReadsLineTo self.now line.now result }
    {
        let place = told_place(alloc, line).map_err(flaw_of_text)?;
        if place.at != self.record.number() {
            return Err(Fault::Cause(AuditKind::At));
        }
        let Some(job) = self.due(&place) else {
            return Err(Fault::Cause(AuditKind::Job));
        };
        let reply = self.reply(alloc, &job.ask, line).map_err(flaw_of_text)?;
        Ok((job, reply))
    }

    // The job at a place, if it is its lane's next one.
    fn due(&self, place: &Place) -> Option<Job>
        ensures { IsDueIf self.now place.now result }
    {
        match self.record.next(place.lane) {
            Some(job) if job.line == place.line => Some(job),
            _ => None,
        }
    }

    // The reply that a line tells.
    fn reply(&self, alloc: Global, ask: &Ask, line: &[u8]) -> Result<Reply, TextFault>
        ensures reply { IfOk result (HasReply (state_now self.now).book.policy
            (flows_now self.now) ask.now line.now) }
        ensures none { IsErrOf result not_text → HasNoReply (state_now self.now).book.policy
            (flows_now self.now) ask.now line.now }
    {
        let flows = Flows {
            cases: self.board.cases(),
        };
        read_reply(alloc, self.board.policy(), &flows, ask, line)
    }

    // The reply that a line tells at a place, of a line as most are; None says nothing.
    fn reply_quickly(
        &self,
        alloc: Global,
        ask: &Ask,
        place: Place,
        line: &[u8],
    ) -> Result<Option<Reply>, AllocError>
        ensures place { IfOk result (λ o. IfSome o (λ r. place_of_line line.now ≡ Some place)) }
        ensures reply { IfOk result (λ o. IfSome o (HasReply (state_now self.now).book.policy
            (flows_now self.now) ask.now line.now)) }
    {
        let flows = Flows {
            cases: self.board.cases(),
        };
        read_plain(alloc, self.board.policy(), &flows, ask, place, line)
    }

    // Takes a reply to a lane's next job, if it is one: `again`, or a step.
    fn enter<V: Decider>(
        &mut self,
        alloc: Global,
        decider: &V,
        job: &Job,
        reply: Reply,
    ) -> Result<(), Flaw>
        requires ready { V.ready decider.now }
        requires next { next_job self.old job.now.lane ≡ Some job.now }
        ensures { HasEntered self.old self.new job.now reply result }
    {
        match again_in(&reply) {
            Some((rounds, at)) => self.enter_again(job, rounds, at),
            None => {
                let _few = self.record.number();
                let verdict = verdict_for(&self.board, alloc, decider, &job.ask, &reply);
                if verdict.is_want() {
                    return Err(Fault::NoMemory);
                }
                self.record.reserve()?;
                match self.board.admit(alloc, &job.ask, &reply, verdict) {
                    Ok(()) => {
                        self.record.add(job, reply);
                        Ok(())
                    }
                    Err(Fault::Cause(NotStep)) => Err(Fault::Cause(AuditKind::Reply)),
                    Err(Fault::NoMemory) => Err(Fault::NoMemory),
                }
            }
        }
    }

    // Takes a reply that is `again`.
    fn enter_again(&mut self, job: &Job, rounds: u8, at: u32) -> Result<(), Flaw>
        requires next { next_job self.old job.now.lane ≡ Some job.now }
        ensures { HasEntered self.old self.new job.now (reply.Again rounds at) result }
    {
        if !self.may_retry(job, rounds, at) {
            return Err(Fault::Cause(AuditKind::Reply));
        }
        self.record.reserve()?;
        self.record.add(job, Reply::Again { rounds, at });
        Ok(())
    }

    // Whether a lane's next job may be answered again so.
    fn may_retry(&self, job: &Job, rounds: u8, at: u32) -> bool
        requires next { next_job self.now job.now.lane ≡ Some job.now }
        ensures { result ≡ true ↔ ComesNext self.now
            (entry_next self.now job.now (reply.Again rounds at)) }
    {
        if rounds != self.record.rounds() {
            return false;
        }
        if rounds == 0 {
            return false;
        }
        if is_view(&job.ask) {
            return false;
        }
        if !self.board.needs(&job.ask) {
            return false;
        }
        self.record.rests(job.lane, &job.ask, rounds, at)
    }
}

// The place that a line tells, where it ends with LF.
fn told_place(alloc: Global, line: &[u8]) -> Result<Place, TextFault>
    ensures place { IfOk result (λ place. place_told line.now ≡ Some place) }
    ensures none { IsErrOf result not_text → place_told line.now ≡ None }
{
    if is_ended(line) {
        read_place(alloc, line)
    } else {
        Err(Fault::Cause(NotText))
    }
}

// Whether a line ends with LF.
fn is_ended(line: &[u8]) -> bool
    ensures { result ≡ nat_eq (slice_index_or line.now (length line.now - 1) 0) 10 }
{
    let len = line.len();
    0 < len && line[len - 1] == b'\n'
}
