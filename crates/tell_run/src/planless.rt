//! The workflows of a policy that cannot be done.
ghost use Rattle.std.specs.Prelude.{◌≡◌, ◌||◌, length, true, false, IfOk};
ghost use Rattle.tell_run.specs.Policy.{CanAllBeDone};
ghost use Rattle.tell_run.specs.Why.{CanBeDone};

use plain_words::{flow_name, text_of};
use policy_book::{Course, Policy};
use rule_core::{Why, why_at_start};
use std::alloc::{AllocError, Global};
use wf_names::FlowId;

/// Adds a line, behind this front, for each workflow that cannot be done; whether there is one.
pub(crate) fn push_planless(
    alloc: Global,
    out: &mut String,
    front: &str,
    p: &Policy,
) -> Result<bool, AllocError>
    ensures { IfOk result (λ some. some ≡ false → CanAllBeDone p.now (length p.now.flows)) }
{
    let mut some = false;
    'flows: for f in 0..p.flows().len() {
        let course = Course {
            policy: p,
            number: FlowId(f as u8),
        };
        let lacks = push_lacking(alloc, out, front, &course)?;
        some = either(some, lacks);
    }
    Ok(some)
}

/// Whether one of two things is so.
pub(crate) fn either(a: bool, b: bool) -> bool
    ensures { result ≡ (a || b) }
{
    a || b
}

// Adds the line of a workflow, where it has no plan; whether it has none.
fn push_lacking(
    alloc: Global,
    out: &mut String,
    front: &str,
    course: &Course,
) -> Result<bool, AllocError>
    ensures { IfOk result (λ lacks. lacks ≡ false
        → CanBeDone course.now.policy.now course.now.number) }
{
    if can_be_done(alloc, course)? {
        return Ok(false);
    }
    push_line(alloc, out, front, course)?;
    Ok(true)
}

// Whether a workflow has a valid plan.
fn can_be_done(alloc: Global, course: &Course) -> Result<bool, AllocError>
    ensures { IfOk result (λ can. can ≡ true
        → CanBeDone course.now.policy.now course.now.number) }
{
    match why_at_start(alloc, course)? {
        Why::Plan(_) => Ok(true),
        _ => Ok(false),
    }
}

fn push_line(
    alloc: Global,
    out: &mut String,
    front: &str,
    course: &Course,
) -> Result<(), AllocError> {
    let name = flow_name(course);
    let flow = text_of(&name);
    let line = format!(in alloc;
        "{front}workflow {flow}: it has no plan; wftell why tells more\n"
    )?;
    out.push_str(line.as_str())
}
