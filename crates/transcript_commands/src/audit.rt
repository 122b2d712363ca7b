//! The run of the command.
ghost use Rattle.std.specs.Prelude.{◌≡◌, ◌<◌, ◌≤◌, ℕ, List, Ok, IfErr, IfOk, OnOk};
ghost use Rattle.wf_names.specs.declared.limits.TheConstants.{LANE_LIMIT, POLICY_FILE_LIMIT};
ghost use Rattle.wf_outside.specs.Laws.Outside.{with_bytes};
ghost use Rattle.line_reader.specs.Laws.{AreInOrder, AreNamedJobs};
ghost use Rattle.transcript_audit.specs.Auditor.{audit_of};
ghost use Rattle.transcript_audit.specs.Laws.{AreOfSession};
ghost use Rattle.run_record.specs.Fault.{fault_in, CountsLoads, CountsReadsAlone};
ghost use Rattle.run_record.specs.Fault.{CountsWrites};
ghost use Rattle.run_record.specs.Report.{HasEnded};
ghost use Rattle.run_record.specs.Laws.Run.{run_over};
ghost use Rattle.wf_commands.specs.Load.{EndsTooLong};
ghost use Rattle.transcript_commands.specs.Finding.{finding_text, HasFound};
ghost use Rattle.transcript_commands.specs.Run.{EndsFinding, IsOnLanes};
ghost use Rattle.transcript_commands.specs.Audit.{AuditsPolicy, AuditsRun, ReadsAsAudit};
ghost use Rattle.transcript_commands.specs.Steps.{FailsAs, FindsFile, HasTakenSome};
ghost use Rattle.transcript_commands.specs.Steps.{IsReadEnding};

use crate::auditing::{audit_input, open_audit};
use crate::finding::Finding;
use crate::jobs_file::load_jobs;
use crate::laws::legal_is_exact;
use line_reader::Batch;
use policy_book::Policy;
use run_record::{Outside, Report, RunFault, bare_report};
use std::alloc::Global;
use wf_board::Decider;
use wf_commands::load_policy;
use wf_outside::{Shelf, Sink, Source, put_and_flush};

/// A session of which a transcript is audited: its files, and how it was served.
#[derive(Clone, Copy)]
pub struct AuditedSession<'a> {
    pub policy: &'a str,
    pub requests: &'a str,
    /// How many lanes there were, at least one.
    pub lanes: u8,
    /// After how many lost rounds a request was answered again.
    pub rounds: u8,
}

/// Audits the transcript in the input: whether the session can have written it. Writes what is
/// found.
pub fn run_audit<V: Decider, F: Shelf, S: Source, K: Sink>(
    decider: &V,
    session: AuditedSession,
    outside: &mut Outside<'_, F, S, K>,
) -> Report
    requires ready { V.ready decider.now }
    requires some { 0 < session.lanes }
    requires lanes { session.lanes ≤ LANE_LIMIT }
    ensures ended { HasEnded outside.old outside.new result }
    ensures audits { AuditsRun session.entry.policy.now session.entry.requests.now
        session.entry.lanes session.entry.rounds (
        run_over F.file F.faults S.left S.faults K.held K.faults outside.old outside.new result) }
{
    let alloc = outside.alloc;
    match find(alloc, decider, session, outside.shelf, outside.source) {
        Ok(finding) => match tell(alloc, finding, outside.sink) {
            Ok(()) => bare_report(alloc, finding.ending()),
            Err(fault) => bare_report(alloc, fault),
        },
        Err(fault) => bare_report(alloc, fault),
    }
}

// What the audit finds.
fn find<V: Decider, F: Shelf, S: Source>(
    alloc: Global,
    decider: &V,
    session: AuditedSession,
    shelf: &mut F,
    source: &mut S,
) -> Result<Finding, RunFault>
    requires ready { V.ready decider.now }
    requires lanes { IsOnLanes session.lanes }
    ensures finds { FindsFile (AuditsPolicy (record {
      requests = F.file shelf.old session.entry.requests.now;
      lanes = session.entry.lanes;
      rounds = session.entry.rounds;
    }) (record { before = S.left source.old; after = S.left source.new }))
        (F.file shelf.old session.entry.policy.now) result }
    ensures ends { EndsFinding (F.file shelf.old session.entry.requests.now) result }
    ensures named { EndsTooLong POLICY_FILE_LIMIT (F.file shelf.old session.entry.policy.now)
        (fault_in result) }
    ensures loads { CountsLoads (fault_in result) (F.faults shelf.old) (F.faults shelf.new) }
    ensures reads { CountsReadsAlone (fault_in result) (S.faults source.old) (S.faults source.new) }
    ensures input { ReadsAsAudit (fault_in result) (S.left source.old) (S.left source.new) }
{
    let p = load_policy(alloc, shelf, session.policy)?;
    legal_is_exact();
    match load_jobs(alloc, shelf, session.requests, session.lanes) {
        Ok(batch) => audit_session(alloc, decider, p, batch, session.rounds, source),
        Err(fault) => Err(fault),
    }
}

// What the audit of a session finds, from its policy and its jobs.
fn audit_session<V: Decider, S: Source>(
    alloc: Global,
    decider: &V,
    policy: Policy,
    batch: Batch,
    rounds: u8,
    source: &mut S,
) -> Result<Finding, RunFault>
    requires ready { V.ready decider.now }
    requires order { AreInOrder LANE_LIMIT batch.jobs batch.ends }
    requires named { AreNamedJobs batch.jobs }
    ensures session { AreOfSession policy rounds batch.jobs batch.ends }
    ensures found { IfOk result (λ f. HasFound (audit_of policy rounds batch.jobs batch.ends) f
        (S.left source.old) (S.left source.new)) }
    ensures ending { IfErr result IsReadEnding }
    ensures reads { CountsReadsAlone (fault_in result) (S.faults source.old) (S.faults source.new) }
    ensures input { HasTakenSome (S.left source.old) (S.left source.new) }
{
    match open_audit(alloc, policy, batch, rounds) {
        Ok(mut auditor) => audit_input(alloc, decider, &mut auditor, source),
        Err(_) => Err(RunFault::NoMemory),
    }
}

// Writes what is found, if it is something to write.
fn tell<K: Sink>(alloc: Global, finding: Finding, sink: &mut K) -> Result<(), RunFault>
    ensures told { OnOk result (K.held sink.new
        ≡ with_bytes (K.held sink.old) (finding_text finding)) }
    ensures fails { IfErr result (FailsAs finding (K.held sink.old) (K.held sink.new)) }
    ensures counts { CountsWrites (fault_in result) (K.faults sink.old) (K.faults sink.new) }
{
    if let Finding::TooLong(_) = finding {
        return Ok(());
    }
    let text = finding.text(alloc)?;
    match put_and_flush(sink, text.as_bytes()) {
        Ok(()) => Ok(()),
        Err(_) => Err(RunFault::Write),
    }
}
