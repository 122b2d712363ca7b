//! Auditing the lines of the input.
ghost use Rattle.std.specs.Prelude.{◌≡◌, ◌+◌, ℕ, List, [], Option, None, Some};
ghost use Rattle.std.specs.Prelude.{Ok, Err, IfErr, IfOk};
ghost use Rattle.wf_names.specs.declared.limits.TheConstants.{LANE_LIMIT};
ghost use Rattle.line_reader.specs.Laws.{AreInOrder, AreNamedJobs};
ghost use Rattle.line_reader.specs.Reader.{pending};
ghost use Rattle.run_record.specs.Fault.{fault_in, CountsReadsAlone};
ghost use Rattle.transcript_audit.specs.Auditor.{AuditShape, audit_of};
ghost use Rattle.transcript_audit.specs.Laws.{AreOfSession};
ghost use Rattle.transcript_commands.specs.Finding.{EndsAs, HasFound};
ghost use Rattle.transcript_commands.specs.Lines.{HasReadSome, IsUnread, IsAtLine, ReadsLines};
ghost use Rattle.transcript_commands.specs.Steps.{HasAudited, HasOneMore, HasTakenSome};
ghost use Rattle.transcript_commands.specs.Steps.{IsReadEnding, AuditStepsTo, TakesLine};

use crate::finding::Finding;
use line_reader::{Batch, LineReader, Read};
use policy_book::Policy;
use run_record::RunFault;
use std::alloc::{AllocError, Global};
use transcript_audit::{AuditFault, Auditor, know_session};
use wf_board::Decider;
use wf_names::TRANSCRIPT_LINE_LIMIT;
use wf_outside::Source;

/// How many bytes of the input are taken at once.
const PIECE: usize = 65_536;

/// The audit of a session, before the first line.
pub(crate) fn open_audit(
    alloc: Global,
    policy: Policy,
    batch: Batch,
    rounds: u8,
) -> Result<Auditor, AllocError>
    requires order { AreInOrder LANE_LIMIT batch.jobs batch.ends }
    requires named { AreNamedJobs batch.jobs }
    ensures session { AreOfSession policy rounds batch.jobs batch.ends }
    ensures first { IfOk result (λ a. a ≡ audit_of policy rounds batch.jobs batch.ends) }
{
    let Batch { jobs, ends } = batch;
    know_session(&policy, rounds, &jobs, &ends);
    Auditor::new(alloc, policy, jobs, ends, rounds)
}

/// Audits the transcript in the input.
pub(crate) fn audit_input<V: Decider, S: Source>(
    alloc: Global,
    decider: &V,
    auditor: &mut Auditor,
    source: &mut S,
) -> Result<Finding, RunFault>
    requires ready { V.ready decider.now }
    requires first { IsUnread auditor.old }
    ensures ending { IfErr result IsReadEnding }
    ensures found { IfOk result (λ f. HasFound auditor.old f (S.left source.old)
        (S.left source.new)) }
    ensures counts { CountsReadsAlone (fault_in result) (S.faults source.old)
        (S.faults source.new) }
    ensures taken { HasTakenSome (S.left source.old) (S.left source.new) }
{
    match LineReader::new(alloc, PIECE, TRANSCRIPT_LINE_LIMIT) {
        Ok(mut reader) => audit_lines(alloc, decider, auditor, &mut reader, source),
        Err(_) => Err(RunFault::NoMemory),
    }
}

// Audits line after line.
fn audit_lines<V: Decider, S: Source>(
    alloc: Global,
    decider: &V,
    auditor: &mut Auditor,
    reader: &mut LineReader,
    source: &mut S,
) -> Result<Finding, RunFault>
    requires ready { V.ready decider.now }
    requires first { IsUnread auditor.old }
    requires nothing { pending reader.old ≡ [] }
    requires reader { ReadsLines reader.old }
    ensures found { IfOk result (λ f. HasFound auditor.old f (S.left source.old)
        (S.left source.new)) }
    ensures taken { HasTakenSome (S.left source.old) (S.left source.new) }
    ensures ending { IfErr result IsReadEnding }
    ensures counts { CountsReadsAlone (fault_in result) (S.faults source.old)
        (S.faults source.new) }
{
    let mut number = 0;
    'auditing: loop {
        match audit_line(alloc, decider, auditor, number, reader, source)? {
            None => number += 1,
            Some(finding) => return Ok(finding),
        }
    }
}

// Reads the line with this number and audits it; what is found, if anything is.
fn audit_line<V: Decider, S: Source>(
    alloc: Global,
    decider: &V,
    auditor: &mut Auditor,
    number: u32,
    reader: &mut LineReader,
    source: &mut S,
) -> Result<Option<Finding>, RunFault>
    requires ready { V.ready decider.now }
    requires at { IsAtLine auditor.old number }
    requires reader { ReadsLines reader.old }
    ensures steps { (first : AuditShape) (before : Option (List ℕ)) →
        HasAudited first auditor.old before (S.left source.old) (pending reader.old) →
        AuditStepsTo first auditor.new before (S.left source.new) (pending reader.new) result }
    ensures more { result ≡ Ok None → HasOneMore auditor.old auditor.new }
    ensures read { HasReadSome (fault_in result) (S.left source.old) (S.left source.new)
        (S.faults source.old) (S.faults source.new) }
    ensures ending { IfErr result IsReadEnding }
    ensures reader { ReadsLines reader.new }
{
    match reader.next(source) {
        Read::Line => take_line(alloc, decider, auditor, reader.line()),
        Read::End => Ok(Some(find_end(auditor))),
        Read::Failed => Err(RunFault::Read),
        Read::TooLong => Ok(Some(Finding::TooLong(number))),
        Read::NoMemory => Err(RunFault::NoMemory),
    }
}

// Audits a line; the fault that is found, if it has one.
fn take_line<V: Decider>(
    alloc: Global,
    decider: &V,
    auditor: &mut Auditor,
    line: &[u8],
) -> Result<Option<Finding>, RunFault>
    requires ready { V.ready decider.now }
    requires going { auditor.old.fault ≡ None }
    ensures takes { TakesLine auditor.old auditor.new line.now result }
    ensures more { result ≡ Ok None → HasOneMore auditor.old auditor.new }
{
    match auditor.line(alloc, decider, line) {
        Ok(()) => Ok(None),
        Err(AuditFault::At(n, kind)) => Ok(Some(Finding::Fault(n, kind))),
        Err(AuditFault::NoMemory) => Err(RunFault::NoMemory),
    }
}

// What is found where no line is left. This takes no memory.
fn find_end(auditor: &Auditor) -> Finding
    requires { auditor.now.fault ≡ None }
    ensures { EndsAs auditor.now result }
{
    match auditor.end() {
        Err(AuditFault::At(n, kind)) => Finding::Fault(n, kind),
        _ => Finding::Legal,
    }
}
