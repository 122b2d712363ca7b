//! The run that writes the clauses of a case.
ghost use Rattle.std.specs.Prelude.{◌≡◌, ◌<◌, length, Some, IfErr, IfOk};
ghost use Rattle.wf_names.specs.declared.limits.TheConstants.{LINE_LIMIT, POLICY_FILE_LIMIT};
ghost use Rattle.run_record.specs.Fault.{fault_in, CountsLoads, CountsReadsAlone};
ghost use Rattle.run_record.specs.Report.{nothing_told, told_by, HasEnded};
ghost use Rattle.run_record.specs.Laws.Run.{run_over};
ghost use Rattle.wf_commands.specs.Answer.{IsAnswerEnding, IsCommandEnding};
ghost use Rattle.wf_commands.specs.Load.{EndsTooLong};
ghost use Rattle.wf_commands.specs.Once.{ReadsInput};
ghost use Rattle.wf_commands.specs.CnfAnswers.{ClausesAsked};
ghost use Rattle.wf_commands.specs.Model.{WritesClauses};
ghost use Rattle.wf_commands.specs.CnfSteps.{EncodesAs, EncodesFile, ending_written};

use crate::encoding::{encode, take_case};
use crate::{find_flow, load_policy};
use basics::Fault;
use cnf_export::model_laws::satisfiable_is_completable;
use cnf_export::{Encoder, WriteFault, write_clauses};
use policy_book::{Course, Policy};
use run_record::{Outside, Report, RunFault, bare_report};
use std::alloc::Global;
use wf_outside::{Shelf, Sink, Source};

/// Writes the clauses of the case in the input, for a workflow of the policy in a file. The text is
/// written piece by piece, so that it is never whole in memory.
pub fn run_clauses<F: Shelf, S: Source, K: Sink>(
    policy: &str,
    flow: &str,
    outside: &mut Outside<'_, F, S, K>,
) -> Report
    ensures ended { HasEnded outside.old outside.new result }
    ensures told { told_by result ≡ nothing_told }
    ensures writes { WritesClauses policy.now flow.now (
        run_over F.file F.faults S.left S.faults K.held K.faults outside.old outside.new result) }
{
    let alloc = outside.alloc;
    match find_clauses(alloc, policy, flow, outside.shelf, outside.source) {
        Ok(mut encoder) => {
            let written = write_clauses(alloc, &mut encoder, outside.sink);
            bare_report(alloc, ending_written(&written))
        }
        Err(fault) => bare_report(alloc, fault),
    }
}

// How a run ends whose clauses were written so.
fn ending_written(written: &Result<(), WriteFault>) -> RunFault
    ensures { result ≡ ending_written written.now }
{
    match written {
        Ok(()) => RunFault::Nothing,
        Err(Fault::Cause(_)) => RunFault::Write,
        Err(Fault::NoMemory) => RunFault::NoMemory,
    }
}

// An encoder of the clauses, for the policy in a file.
fn find_clauses<F: Shelf, S: Source>(
    alloc: Global,
    policy: &str,
    flow: &str,
    shelf: &mut F,
    source: &mut S,
) -> Result<Encoder, RunFault>
    ensures clauses { EncodesFile (λ p. ClausesAsked p flow.now (S.left source.old))
        (F.file shelf.old policy.now) result }
    ensures left { IfOk result (λ e. e.left ≡ e.all) }
    ensures ending { IfErr result IsCommandEnding }
    ensures named { EndsTooLong POLICY_FILE_LIMIT (F.file shelf.old policy.now) (fault_in result) }
    ensures loads { CountsLoads (fault_in result) (F.faults shelf.old) (F.faults shelf.new) }
    ensures reads { CountsReadsAlone (fault_in result) (S.faults source.old) (S.faults source.new) }
    ensures input { ReadsInput (Some LINE_LIMIT) (fault_in result) (S.left source.old)
        (S.left source.new) }
{
    match load_policy(alloc, shelf, policy) {
        Ok(p) => clauses_under(alloc, &p, flow, source),
        Err(fault) => Err(fault),
    }
}

// The same under a policy.
fn clauses_under<S: Source>(
    alloc: Global,
    p: &Policy,
    flow: &str,
    source: &mut S,
) -> Result<Encoder, RunFault>
    ensures clauses { EncodesAs (ClausesAsked p.now flow.now (S.left source.old)) result }
    ensures left { IfOk result (λ e. e.left ≡ e.all) }
    ensures ending { IfErr result IsAnswerEnding }
    ensures reads { CountsReadsAlone (fault_in result) (S.faults source.old) (S.faults source.new) }
    ensures input { ReadsInput (Some LINE_LIMIT) (fault_in result) (S.left source.old)
        (S.left source.new) }
{
    let course = Course {
        policy: p,
        number: find_flow(p, flow)?,
    };
    let c = take_case(alloc, &course, source)?;
    satisfiable_is_completable();
    let _ruled = course.rules();
    encode(alloc, &course, &c)
}
