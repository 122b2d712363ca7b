//! The command `plan`: it judges the plan in the input.
ghost use Rattle.std.specs.Prelude.{◌≡◌, ◌<◌, ℕ, [], length, slice_index_or, string_bytes, Some};
ghost use Rattle.std.specs.Prelude.{IfOk, IfErr};
ghost use Rattle.wf_names.specs.declared.limits.TheConstants.{LINE_LIMIT};
ghost use Rattle.constraint_forms.specs.Assign.{planned};
ghost use Rattle.policy_book.specs.Course.{problem_in};
ghost use Rattle.policy_book.specs.Policies.{flow_at};
ghost use Rattle.wf_commands.specs.Answer.{ending_with};
ghost use Rattle.wf_commands.specs.Plan.{Judges, JudgesInput, fault_line};
ghost use Rattle.wf_commands.specs.Judging.{JudgesAs, IsJudgedEnding};

use crate::answer::{Answer, Answers};
use crate::given::{find_flow, take_input};
use crate::input::{InputError, read_plan};
use certificate_check::{PlanFault, check_plan};
use policy_book::{Assign, Course, Plan, Policy, StepSet};
use run_record::RunFault;
use std::alloc::{AllocError, Global};
use wf_names::{LINE_LIMIT, NameTable};
use wf_outside::Source;

/// `plan`: is the plan in the input valid for this workflow?
#[derive(Clone, Copy)]
pub struct PlanCommand<'a> {
    pub flow: &'a str,
}

impl Answers for PlanCommand<'_> {
    ghost limit = { λ _. Some LINE_LIMIT };

    ghost answers = { λ command told p. JudgesInput p command.flow.now told };

    fn answer<S: Source>(
        &self,
        alloc: Global,
        p: &Policy,
        source: &mut S,
    ) -> Result<Answer, RunFault> {
        let course = Course {
            policy: p,
            number: find_flow(p, self.flow)?,
        };
        let input = take_input(alloc, source, LINE_LIMIT)?;
        judge(alloc, &course, input.as_bytes())
    }
}

// Reads an input as a plan, and judges it.
fn judge(alloc: Global, course: &Course, input: &[u8]) -> Result<Answer, RunFault>
    ensures judged { JudgesAs course.now.policy.now course.now.number input.now result }
    ensures ending { IfErr result IsJudgedEnding }
{
    match read_plan(
        alloc,
        course.policy,
        course.flow().steps().len() as u8,
        input,
    ) {
        Ok(plan) => Ok(judge_plan(alloc, course, &plan)?),
        Err(InputError::Fault(fault)) => Err(RunFault::BadInput(fault)),
        Err(InputError::NoMemory) => Err(RunFault::NoMemory),
    }
}

// Judges a plan from nothing.
fn judge_plan(alloc: Global, course: &Course, plan: &Plan) -> Result<Answer, AllocError>
    requires whole { length plan.now ≡ (problem_in course.now).steps }
    requires users { (s : ℕ) → s < length plan.now
        → planned plan.now s < (problem_in course.now).users }
    ensures { IfOk result (λ answer. Judges course.now.policy.now course.now.number plan.now
        (ending_with answer.found) answer.text.items) }
{
    match check_plan(
        course.policy,
        course.number,
        &Assign::empty(),
        &StepSet::empty(),
        plan,
    ) {
        Ok(()) => Ok(Answer {
            found: false,
            text: String::from_str(alloc, "valid\n")?.into_bytes(),
        }),
        Err(fault) => Ok(Answer {
            found: true,
            text: fault_text(alloc, course, fault)?.into_bytes(),
        }),
    }
}

// The line that names the first fault of a plan.
fn fault_text(alloc: Global, course: &Course, fault: PlanFault) -> Result<String, AllocError>
    ensures { IfOk result (λ text. string_bytes text
        ≡ fault_line (flow_at course.now.policy.now course.now.number).flow.steps fault) }
{
    match fault {
        PlanFault::Moved(_) => Ok(String::new(alloc)),
        PlanFault::Role(s) => {
            let step = name_text(alloc, course.flow().steps(), s.0 as u16)?;
            format!(in alloc; "role {step}\n")
        }
        PlanFault::Rule(k) => format!(in alloc; "rule {k}\n"),
    }
}

/// The name with a number; the empty text where there is none.
pub fn name_text(alloc: Global, names: &NameTable, n: u16) -> Result<String, AllocError>
    ensures { IfOk result (λ text. string_bytes text ≡ slice_index_or names.now.names n []) }
{
    if n < names.len() {
        String::from_str(alloc, names.name(n).as_str())
    } else {
        Ok(String::new(alloc))
    }
}
