//! The record of an audit: the entries that were taken, and where the next one stands.
ghost use Rattle.std.specs.Prelude.{◌≡◌, ◌≤◌, nat_eq, true, length, OnOk, Some};
ghost use Rattle.std.specs.Arc.{arc_value};
ghost use Rattle.wf_names.specs.declared.limits.TheConstants.{LANE_LIMIT, SESSION_LINE_LIMIT};
ghost use Rattle.line_reader.specs.Laws.{AreInOrder};
ghost use Rattle.wf_board.specs.Laws.Histories.{IsLegal};
ghost use Rattle.wf_board.specs.Laws.States.{opening_state};
ghost use Rattle.wf_desk.specs.Laws.Parts.{FillsPart};
ghost use Rattle.transcript_audit.specs.Auditor.{ComesNext, audit_of, next_job, present_jobs};
ghost use Rattle.transcript_audit.specs.Auditor.{present_start, with_entry};
ghost use Rattle.transcript_audit.specs.Keeping.{entry_next, rests_on};
ghost use Rattle.transcript_audit.specs.Laws.Outcomes.{IsWhole};

use crate::AuditKind;
use crate::again::{count, own_start};
use crate::cursor::{Cursor, advance, first, jobs_between};
use policy_book::Policy;
use std::alloc::{AllocError, Global};
use std::marker::Model;
use std::sync::Arc;
use wf_desk::docket::job_at;
use wf_desk::journal::{add_entry, last_counting};
use wf_names::LANE_LIMIT;
use wf_talk::{Ask, Ends, Entry, Job, Jobs, Journal, Reply};

/// The policy at the beginning, the jobs with the ends of their batches, the entries so far, and
/// the kind of the first fault, if there was one.
#[derive(Drop)]
pub(crate) struct Record {
    opening: Arc<Policy, Global>,
    rounds: u8,
    jobs: Jobs,
    ends: Ends,
    journal: Journal,
    fault: Option<AuditKind>,
    cursor: Cursor,
}

impl Model for Record {
    ghost use Rattle.std.specs.Arc.{arc_value};
    ghost use Rattle.std.specs.Coded.{codes};
    ghost use Rattle.policy_book.specs.Laws.Shapes.{policy_code};
    ghost use Rattle.refutation_tree.specs.Codes.{kids_code};
    ghost use Rattle.transcript_audit.specs.Auditor.{audit_of};
    ghost use Rattle.transcript_audit.specs.Keeping.{IsRecord, RecordShape};

    ghost Value = { RecordShape };

    ghost coded = { Prim.hlevel (codes, policy_code, kids_code) };

    ghost view = { λ r. record {
      audit = record (audit_of (arc_value r.opening) r.rounds r.jobs r.ends) {
        entries = r.journal.entries;
        fault = r.fault;
      };
      spare = r.journal.spare;
    } };

    ghost invariant = { λ r. IsRecord
        (record (audit_of (arc_value r.opening) r.rounds r.jobs r.ends) {
          entries = r.journal.entries;
          fault = r.fault;
        }) r.cursor };
}

impl Record {
    /// The record before the first line.
    pub fn new(
        alloc: Global,
        opening: Arc<Policy, Global>,
        rounds: u8,
        jobs: Jobs,
        ends: Ends,
    ) -> Record
        requires order { AreInOrder LANE_LIMIT jobs ends }
        ensures { result.audit ≡ audit_of (arc_value opening) rounds jobs ends }
    {
        let cursor = first(jobs.as_slice(), ends.as_slice(), 0, 0);
        Record {
            opening,
            rounds,
            jobs,
            ends,
            journal: Journal::new(alloc),
            fault: None,
            cursor,
        }
    }

    /// How many entries there are.
    pub fn number(&self) -> u32
        ensures count { result ≡ length self.now.audit.entries }
        ensures few { length self.now.audit.entries ≤ SESSION_LINE_LIMIT }
    {
        self.journal.len() as u32
    }

    /// The entries so far.
    pub fn entries(&self) -> &[Entry]
        ensures { result.now ≡ self.now.audit.entries }
    {
        self.journal.as_slice()
    }

    /// The kind of the first fault, if there was one.
    pub fn fault(&self) -> Option<AuditKind>
        ensures { result ≡ self.now.audit.fault }
    {
        self.fault
    }

    /// Keeps the kind of a fault.
    pub fn keep_fault(&mut self, kind: AuditKind)
        ensures { self.new ≡ record self.old
            { audit = record self.old.audit { fault = Some kind } } }
    {
        self.fault = Some(kind);
    }

    /// After how many lost rounds a request is answered again.
    pub fn rounds(&self) -> u8
        ensures { result ≡ self.now.audit.rounds }
    {
        self.rounds
    }

    /// A lane's next job of the present batch, if it has one left.
    pub fn next(&self, lane: u8) -> Option<Job>
        ensures { result ≡ next_job self.now.audit lane }
    {
        if lane < LANE_LIMIT {
            job_at(self.batch(), self.cursor.places[lane as usize])
        } else {
            None
        }
    }

    // The jobs of the present batch.
    fn batch(&self) -> &[Job]
        ensures { result.now ≡ present_jobs self.now.audit }
    {
        jobs_between(self.jobs.as_slice(), self.cursor.start, self.cursor.end)
    }

    /// Whether each job has its entry.
    pub fn is_done(&self) -> bool
        ensures done { result ≡ nat_eq (length self.now.audit.entries)
            (length self.now.audit.jobs) }
        ensures whole { result ≡ true → IsWhole self.now.audit }
        ensures within { length self.now.audit.entries ≤ length self.now.audit.jobs }
    {
        self.journal.len() == self.jobs.len()
    }

    /// The entries so far, and the jobs with the ends of their batches.
    pub fn into_parts(self) -> (Journal, Jobs, Ends)
        ensures entries { result.0.entries ≡ self.audit.entries }
        ensures jobs { result.1 ≡ self.audit.jobs }
        ensures ends { result.2 ≡ self.audit.batch_ends }
        ensures legal { IsLegal (opening_state self.audit.opening) self.audit.rounds
            self.audit.entries }
        ensures part { FillsPart self.audit.entries self.audit.jobs self.audit.batch_ends }
    {
        (self.journal, self.jobs, self.ends)
    }

    /// Whether `rounds` entries of the batch behind a lane's last one count for what is asked, and
    /// the last of all that count stands at `place`.
    pub fn rests(&self, lane: u8, ask: &Ask, rounds: u8, place: u32) -> bool
        requires { 1 ≤ rounds }
        ensures { result ≡ rests_on self.now.audit.entries (present_start self.now.audit)
            lane ask.now rounds place }
    {
        let entries = self.journal.as_slice();
        let from = own_start(entries, self.cursor.start as usize, lane);
        let found = count(&entries[from..], ask);
        rounds as usize <= found && place == last_counting(&self.journal, ask)
    }

    /// Makes room for one more entry.
    pub fn reserve(&mut self) -> Result<(), AllocError>
        ensures room { OnOk result (1 ≤ self.new.spare) }
        ensures same { self.new.audit ≡ self.old.audit }
    {
        self.journal.reserve(1)
    }

    /// Adds the entry of a lane's next job, where there is room.
    pub fn add(&mut self, job: &Job, reply: Reply)
        requires room { 1 ≤ self.old.spare }
        requires next { ComesNext self.old.audit (entry_next self.old.audit job.now reply) }
        ensures { self.new.audit ≡ with_entry self.old.audit
            (entry_next self.old.audit job.now reply) }
    {
        add_entry(&mut self.journal, job, reply);
        advance(
            &mut self.cursor,
            self.jobs.as_slice(),
            self.ends.as_slice(),
            job.lane,
            self.journal.len(),
        );
    }
}
