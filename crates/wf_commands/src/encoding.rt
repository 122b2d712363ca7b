//! The case in the input, and its clauses.
ghost use Rattle.std.specs.Prelude.{◌≡◌, ◌<◌, ◌≤◌, length, Some, Err, IfErr, IfOk, IfSome};
ghost use Rattle.wf_names.specs.declared.limits.TheConstants.{LINE_LIMIT};
ghost use Rattle.policy_book.specs.Course.{problem_in};
ghost use Rattle.policy_book.specs.Policies.{problem_of};
ghost use Rattle.cnf_export.specs.Laws.Encodings.{literals, variables_of};
ghost use Rattle.cnf_export.specs.declared.tally.TheConstants.{LITERAL_LIMIT};
ghost use Rattle.run_record.specs.Fault.{fault_in, CountsReadsAlone};
ghost use Rattle.wf_commands.specs.Once.{ReadsInput};
ghost use Rattle.wf_commands.specs.Cases.{IsCaseOf};
ghost use Rattle.wf_commands.specs.CnfAnswers.{clauses_for};
ghost use Rattle.wf_commands.specs.CnfSteps.{GivesCase, GivesEncoder, IsCaseEnding, IsLateEnding};
ghost use Rattle.wf_commands.specs.CnfSteps.{IsReadingEnding, ReadsCase};

use crate::case::{Case, read_case};
use crate::{InputError, take_input};
use basics::Fault;
use cnf_export::{Encoder, TooLarge};
use policy_book::Course;
use run_record::RunFault;
use std::alloc::Global;
use wf_names::LINE_LIMIT;
use wf_outside::Source;

/// The case of a workflow that the input is.
pub(crate) fn take_case<S: Source>(
    alloc: Global,
    course: &Course,
    source: &mut S,
) -> Result<Case, RunFault>
    ensures case { IfSome (S.left source.old)
        (λ input. GivesCase course.now.policy.now course.now.number input result) }
    ensures sound { IfOk result (IsCaseOf (problem_in course.now)) }
    ensures ending { IfErr result IsCaseEnding }
    ensures reads { CountsReadsAlone (fault_in result) (S.faults source.old) (S.faults source.new) }
    ensures taken { ReadsInput (Some LINE_LIMIT) (fault_in result) (S.left source.old)
        (S.left source.new) }
{
    match take_input(alloc, source, LINE_LIMIT) {
        Ok(input) => case_in(alloc, course, input.as_bytes()),
        Err(fault) => Err(fault),
    }
}

// The same of an input that is there.
fn case_in(alloc: Global, course: &Course, input: &[u8]) -> Result<Case, RunFault>
    ensures case { ReadsCase course.now.policy.now course.now.number input.now result }
    ensures sound { IfOk result (IsCaseOf (problem_in course.now)) }
    ensures ending { IfErr result IsReadingEnding }
{
    match read_case(alloc, course, input) {
        Ok(c) => Ok(c),
        Err(InputError::Fault(fault)) => Err(RunFault::BadInput(fault)),
        Err(InputError::NoMemory) => Err(RunFault::NoMemory),
    }
}

/// An encoder of the clauses of a case.
pub(crate) fn encode(alloc: Global, course: &Course, c: &Case) -> Result<Encoder, RunFault>
    requires sound { IsCaseOf (problem_in course.now) c.now }
    ensures encoder { GivesEncoder course.now.policy.now course.now.number c.now result }
    ensures left { IfOk result (λ e. e.left ≡ e.all) }
    ensures ending { IfErr result IsLateEnding }
{
    match Encoder::new(
        alloc,
        course.policy,
        course.number,
        &c.assigned,
        &c.finished,
    ) {
        Ok(encoder) => Ok(encoder),
        Err(Fault::Cause(TooLarge)) => Err(RunFault::TooLarge),
        Err(Fault::NoMemory) => Err(RunFault::NoMemory),
    }
}

/// How many variables the clauses of a case have.
pub(crate) fn count_variables(alloc: Global, course: &Course, c: &Case) -> Result<u32, RunFault>
    requires sound { IsCaseOf (problem_in course.now) c.now }
    ensures count { let p = course.now.policy.now in let f = course.now.number in
        IfOk result (λ n. (literals (clauses_for p f c.now) ≤ LITERAL_LIMIT)
        × (n ≡ variables_of (problem_of p f))) }
    ensures refused { IfErr result (λ fault.
        GivesEncoder course.now.policy.now course.now.number c.now (Err fault)) }
    ensures ending { IfErr result IsLateEnding }
{
    match encode(alloc, course, c) {
        Ok(encoder) => Ok(encoder.variables()),
        Err(fault) => Err(fault),
    }
}
