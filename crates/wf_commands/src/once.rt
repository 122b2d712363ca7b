//! The way of every command that answers once: the policy is loaded, the command answers, and the
//! answer is written.
ghost use Rattle.std.specs.Prelude.{◌≡◌, None, IfErr};
ghost use Rattle.wf_names.specs.declared.limits.TheConstants.{POLICY_FILE_LIMIT};
ghost use Rattle.run_record.specs.Fault.{fault_in, CountsLoads, CountsReadsAlone};
ghost use Rattle.run_record.specs.Report.{HasEnded};
ghost use Rattle.run_record.specs.Laws.Run.{LeavesSource, run_over};
ghost use Rattle.wf_commands.specs.Answer.{AnswersFile, IsCommandEnding};
ghost use Rattle.wf_commands.specs.Load.{EndsTooLong};
ghost use Rattle.wf_commands.specs.Once.{ReadsInput, RunsOnce};

use crate::answer::{Answer, Answers};
use crate::load::load_policy;
use run_record::{Outside, Report, RunFault, bare_report};
use std::alloc::Global;
use wf_outside::{Shelf, Sink, Source, put_and_flush};

/// Runs a command that answers once about the policy in a file, and writes its answer.
pub fn answer_once<A: Answers, F: Shelf, S: Source, K: Sink>(
    policy: &str,
    command: &A,
    outside: &mut Outside<'_, F, S, K>,
) -> Report
    ensures ended { HasEnded outside.old outside.new result }
    ensures answers { RunsOnce (A.limit command.now) policy.now (A.answers command.now) (
        run_over F.file F.faults S.left S.faults K.held K.faults outside.old outside.new result) }
    ensures untouched { A.limit command.now ≡ None → LeavesSource outside.old outside.new }
{
    let alloc = outside.alloc;
    match find_answer(alloc, policy, command, outside.shelf, outside.source) {
        Ok(answer) => match put_and_flush(outside.sink, answer.text.as_slice()) {
            Ok(()) => bare_report(alloc, answer.ending()),
            Err(_) => bare_report(alloc, RunFault::Write),
        },
        Err(fault) => bare_report(alloc, fault),
    }
}

// The answer of a command about the policy in a file.
fn find_answer<A: Answers, F: Shelf, S: Source>(
    alloc: Global,
    policy: &str,
    command: &A,
    shelf: &mut F,
    source: &mut S,
) -> Result<Answer, RunFault>
    ensures answer { AnswersFile (A.answers command.now (S.left source.old))
        (F.file shelf.old policy.now) result }
    ensures ending { IfErr result IsCommandEnding }
    ensures named { EndsTooLong POLICY_FILE_LIMIT (F.file shelf.old policy.now) (fault_in result) }
    ensures loads { CountsLoads (fault_in result) (F.faults shelf.old) (F.faults shelf.new) }
    ensures reads { CountsReadsAlone (fault_in result) (S.faults source.old) (S.faults source.new) }
    ensures input { ReadsInput (A.limit command.now) (fault_in result) (S.left source.old)
        (S.left source.new) }
    ensures untouched { A.limit command.now ≡ None → source.new ≡ source.old }
{
    match load_policy(alloc, shelf, policy) {
        Ok(p) => command.answer(alloc, &p, source),
        Err(fault) => Err(fault),
    }
}
