//! What a model says, as it is written.
ghost use Rattle.std.specs.Prelude.{◌≡◌, ◌<◌, ◌≤◌, ◌++◌, length, codes, string_bytes, IfErr, IfOk};
ghost use Rattle.serde_json.specs.View.{view};
ghost use Rattle.serde_json.specs.Written.{compact_text};
ghost use Rattle.policy_book.specs.Course.{problem_in};
ghost use Rattle.cnf_export.specs.Laws.Encodings.{variables_of};
ghost use Rattle.cnf_export.specs.Saying.{has_variable};
ghost use Rattle.wire_json.specs.Entries.{named, plan_data};
ghost use Rattle.wf_commands.specs.Answer.{AnswersAs, ending_with};
ghost use Rattle.wf_commands.specs.CnfAnswers.{clause_number_line, plan_array_line};
ghost use Rattle.wf_commands.specs.CnfAnswers.{ReadsModel, TellsOutcome};
ghost use Rattle.wf_commands.specs.CnfAnswers.{TellsReading, UnlessLarge};
ghost use Rattle.wf_commands.specs.Cases.{IsCaseOf};
ghost use Rattle.wf_commands.specs.CnfSteps.{GivesModel, IsLateEnding};

use crate::case::Case;
use crate::encoding::count_variables;
use crate::model_file::MODEL_FILE_LIMIT;
use crate::{Answer, name_text};
use basics::Fault;
use cnf_export::{Model, ModelFault, Reading, TooLarge, plan_of, read_model};
use policy_book::{Course, Plan, Policy};
use run_record::{InputFault, RunFault};
use serde_json::Value;
use std::alloc::{AllocError, Global};
use wf_names::{NameTable, StepId};

/// What the model in a text says of a case.
pub(crate) fn answer_case(
    alloc: Global,
    course: &Course,
    c: &Case,
    text: &[u8],
) -> Result<Answer, RunFault>
    requires sound { IsCaseOf (problem_in course.now) c.now }
    requires short { length text.now ≤ MODEL_FILE_LIMIT }
    ensures answer { let p = course.now.policy.now in let f = course.now.number in
        AnswersAs (UnlessLarge p f c.now (ReadsModel p f text.now c.now)) result }
    ensures ending { IfErr result IsLateEnding }
{
    let variables = count_variables(alloc, course, c)?;
    let m = model_in(alloc, text, variables)?;
    answer_model(alloc, course, c, &m)
}

// The model that a text says, of `variables` variables.
fn model_in(alloc: Global, text: &[u8], variables: u32) -> Result<Model, RunFault>
    requires { length text.now ≤ MODEL_FILE_LIMIT }
    ensures model { GivesModel variables text.now result }
    ensures ending { IfErr result IsLateEnding }
{
    match read_model(alloc, text, variables) {
        Ok(m) => Ok(m),
        Err(ModelFault::Word(k)) => Err(RunFault::BadInput(InputFault::Model(k as u32))),
        Err(ModelFault::NoMemory) => Err(RunFault::NoMemory),
    }
}

// What a model says of a case.
fn answer_model(alloc: Global, course: &Course, c: &Case, m: &Model) -> Result<Answer, RunFault>
    requires sound { IsCaseOf (problem_in course.now) c.now }
    ensures answer { let p = course.now.policy.now in let f = course.now.number in
        AnswersAs (UnlessLarge p f c.now (TellsReading p f c.now (has_variable m.now))) result }
    ensures ending { IfErr result IsLateEnding }
{
    match plan_of(
        alloc,
        course.policy,
        course.number,
        &c.assigned,
        &c.finished,
        m,
    ) {
        Ok(reading) => Ok(answer_with(alloc, course.policy, &reading)?),
        Err(Fault::Cause(TooLarge)) => Err(RunFault::TooLarge),
        Err(Fault::NoMemory) => Err(RunFault::NoMemory),
    }
}

// The answer with what a model says.
fn answer_with(alloc: Global, p: &Policy, reading: &Reading) -> Result<Answer, AllocError>
    ensures { IfOk result (λ answer.
        TellsOutcome p.now.roster.users reading.now (ending_with answer.found) answer.text.items) }
{
    match reading {
        Reading::Plan(plan) => Ok(Answer {
            found: false,
            text: plan_text(alloc, p.roster().users(), plan)?.into_bytes(),
        }),
        Reading::Clause(k) => Ok(Answer {
            found: true,
            text: clause_text(alloc, *k)?.into_bytes(),
        }),
    }
}

// The line that names a clause.
fn clause_text(alloc: Global, k: u32) -> Result<String, AllocError>
    ensures { IfOk result (λ text. string_bytes text ≡ clause_number_line k) }
{
    format!(in alloc; "clause {k}\n")
}

// The line of a plan.
fn plan_text(alloc: Global, users: &NameTable, plan: &Plan) -> Result<String, AllocError>
    ensures { IfOk result (λ text. string_bytes text ≡ plan_array_line users.now.names plan.now) }
{
    let mut text = plan_array(alloc, users, plan)?;
    text.push_str("\n")?;
    Ok(text)
}

// The same without its line end.
fn plan_array(alloc: Global, users: &NameTable, plan: &Plan) -> Result<String, AllocError>
    ensures { IfOk result (λ text. string_bytes text
        ≡ compact_text (plan_data users.now.names plan.now)) }
{
    let value = plan_value(alloc, users, plan)?;
    let text = value.to_string(alloc)?;
    Ok(text)
}

// The JSON array of the names of a plan's users.
fn plan_value(alloc: Global, users: &NameTable, plan: &Plan) -> Result<Value, AllocError>
    ensures { IfOk result (λ v. view v ≡ plan_data users.now.names plan.now) }
{
    let mut values = Vec::new(alloc);
    'users: for s in 0..plan.len() {
        values.push(name_value(alloc, users, plan.at(StepId(s)).0)?)?;
    }
    Ok(Value::Array(values))
}

// The name with a number, as JSON.
fn name_value(alloc: Global, names: &NameTable, n: u16) -> Result<Value, AllocError>
    ensures { IfOk result (λ v. view v ≡ named names.now.names n) }
{
    Ok(Value::String(name_text(alloc, names, n)?))
}
