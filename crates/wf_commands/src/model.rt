//! The run that reads a model back.
ghost use Rattle.std.specs.Prelude.{◌≡◌, Some, IfErr};
ghost use Rattle.wf_names.specs.declared.limits.TheConstants.{LINE_LIMIT, POLICY_FILE_LIMIT};
ghost use Rattle.run_record.specs.Fault.{fault_in, CountsLoads, CountsReadsAlone};
ghost use Rattle.run_record.specs.Report.{nothing_told, told_by, HasEnded};
ghost use Rattle.run_record.specs.Laws.Run.{run_over};
ghost use Rattle.wf_commands.specs.Answer.{AnswersAs, AnswersFile, IsCommandEnding};
ghost use Rattle.wf_commands.specs.Load.{EndsTooLong};
ghost use Rattle.wf_commands.specs.Once.{ReadsInput};
ghost use Rattle.wf_commands.specs.CnfAnswers.{ModelAsked};
ghost use Rattle.wf_commands.specs.Model.{EndsWithoutModel, ReadsModelFile};

use crate::cnf_answer::answer_case;
use crate::encoding::take_case;
use crate::model_file::MODEL_FILE_LIMIT;
use crate::{Answer, find_flow, load_file, load_policy};
use policy_book::{Course, Policy};
use run_record::{Outside, Report, RunFault, bare_report};
use std::alloc::Global;
use wf_outside::{Shelf, Sink, Source, put_and_flush};

/// Reads the model in a file, for the case in the input and a workflow of the policy in another
/// file, and writes the plan that it says, or the first clause that it does not satisfy.
pub fn run_model<F: Shelf, S: Source, K: Sink>(
    policy: &str,
    flow: &str,
    model: &str,
    outside: &mut Outside<'_, F, S, K>,
) -> Report
    ensures ended { HasEnded outside.old outside.new result }
    ensures told { told_by result ≡ nothing_told }
    ensures reads { ReadsModelFile policy.now flow.now model.now (
        run_over F.file F.faults S.left S.faults K.held K.faults outside.old outside.new result) }
{
    let alloc = outside.alloc;
    match find_reading(alloc, policy, flow, model, outside.shelf, outside.source) {
        Ok(answer) => match put_and_flush(outside.sink, answer.text.as_slice()) {
            Ok(()) => bare_report(alloc, answer.ending()),
            Err(_) => bare_report(alloc, RunFault::Write),
        },
        Err(fault) => bare_report(alloc, fault),
    }
}

// What the model says, for the policy in a file.
fn find_reading<F: Shelf, S: Source>(
    alloc: Global,
    policy: &str,
    flow: &str,
    model: &str,
    shelf: &mut F,
    source: &mut S,
) -> Result<Answer, RunFault>
    ensures answer { AnswersFile
        (λ p. ModelAsked p flow.now (F.file shelf.old model.now) (S.left source.old))
        (F.file shelf.old policy.now) result }
    ensures ending { IfErr result IsCommandEnding }
    ensures named { EndsTooLong POLICY_FILE_LIMIT (F.file shelf.old policy.now) (fault_in result) }
    ensures without { EndsWithoutModel (F.file shelf.old model.now) (fault_in result) }
    ensures loads { CountsLoads (fault_in result) (F.faults shelf.old) (F.faults shelf.new) }
    ensures reads { CountsReadsAlone (fault_in result) (S.faults source.old) (S.faults source.new) }
    ensures input { ReadsInput (Some LINE_LIMIT) (fault_in result) (S.left source.old)
        (S.left source.new) }
{
    match load_policy(alloc, shelf, policy) {
        Ok(p) => read_under(alloc, &p, flow, model, shelf, source),
        Err(fault) => Err(fault),
    }
}

// The same under a policy.
fn read_under<F: Shelf, S: Source>(
    alloc: Global,
    p: &Policy,
    flow: &str,
    model: &str,
    shelf: &mut F,
    source: &mut S,
) -> Result<Answer, RunFault>
    ensures answer { AnswersAs
        (ModelAsked p.now flow.now (F.file shelf.old model.now) (S.left source.old)) result }
    ensures ending { IfErr result IsCommandEnding }
    ensures without { EndsWithoutModel (F.file shelf.old model.now) (fault_in result) }
    ensures loads { CountsLoads (fault_in result) (F.faults shelf.old) (F.faults shelf.new) }
    ensures reads { CountsReadsAlone (fault_in result) (S.faults source.old) (S.faults source.new) }
    ensures input { ReadsInput (Some LINE_LIMIT) (fault_in result) (S.left source.old)
        (S.left source.new) }
{
    let course = Course {
        policy: p,
        number: find_flow(p, flow)?,
    };
    let text = load_file(alloc, shelf, model, MODEL_FILE_LIMIT)?;
    let c = take_case(alloc, &course, source)?;
    answer_case(alloc, &course, &c, text.as_bytes())
}
