//! The state of a case, read from the input.
ghost use Rattle.std.specs.Prelude.{◌≡◌, ◌<◌, ◌≤◌, ◌+◌, ℕ, List, length, Some, IfErr, IfOk};
ghost use Rattle.std.specs.List.{list_all};
ghost use Rattle.serde_json.specs.View.{view, items_view};
ghost use Rattle.basics.specs.Laws.Reading.{Gives, each};
ghost use Rattle.wf_names.specs.declared.limits.TheConstants.{STEP_LIMIT};
ghost use Rattle.policy_book.specs.Course.{problem_in};
ghost use Rattle.wire_json.specs.Values.{value_of};
ghost use Rattle.run_record.specs.declared.fault.InputFault.TheVariants.{NoUser};
ghost use Rattle.wf_commands.specs.Input.{input_fault, listed_items, IsOfInput};
ghost use Rattle.wf_commands.specs.Cases.{case_of_array, case_of_input, is_said, next_said};
ghost use Rattle.wf_commands.specs.Cases.{no_case, with_said, IsCaseOf, IsCaseSoFar, IsOfUsers};

use crate::said::said_in;
use crate::{InputError, json_of};
use constraint_forms::{Assign, StepSet};
use policy_book::{Course, Policy};
use run_record::InputFault;
use serde_json::Value;
use std::alloc::Global;
use wf_names::{StepId, StepState};

/// The state of a case, as it is said from the first step on.
#[derive(Clone, Copy)]
pub(crate) struct Case {
    /// How many steps were said.
    pub(crate) said: u8,
    /// Who holds or has finished which steps.
    pub(crate) assigned: Assign,
    /// The steps that are finished.
    pub(crate) finished: StepSet,
}

/// The case of a workflow that an input is.
pub(crate) fn read_case(alloc: Global, course: &Course, input: &[u8]) -> Result<Case, InputError>
    ensures case { Gives input_fault (λ c. c) result
        (case_of_input course.now.policy.now (problem_in course.now).steps input.now) }
    ensures fault { IfErr result IsOfInput }
    ensures sound { IfOk result (IsCaseOf (problem_in course.now)) }
{
    let steps = course.flow().steps().len();
    if input.is_empty() {
        return Ok(first_case());
    }
    read_array(alloc, course.policy, steps as u8, input)
}

// A case of which no step was said: all are free.
fn first_case() -> Case
    ensures case { result ≡ no_case }
    ensures sound { IsCaseSoFar 0 result }
{
    Case {
        said: 0,
        assigned: Assign::empty(),
        finished: StepSet::empty(),
    }
}

// The case that an array is for a workflow with `steps` steps.
#[tactic(auto, unfolding(crate::specs::Cases::case_of_array))]
fn read_array(alloc: Global, p: &Policy, steps: u8, input: &[u8]) -> Result<Case, InputError>
    requires { steps ≤ STEP_LIMIT }
    ensures case { Gives input_fault (λ c. c) result (case_of_array p.now steps input.now) }
    ensures fault { IfErr result IsOfInput }
    ensures said { IfOk result (λ c. c.said ≡ steps) }
    ensures sound { IfOk result (IsCaseSoFar (length p.now.roster.users)) }
{
    let value = json_of(alloc, input)?;
    read_steps(p, steps, &value)
}

// The same of an input that is this value.
#[tactic(auto, using(crate::proofs::Values::count), unfolding(crate::specs::Cases::case_of_array))]
fn read_steps(p: &Policy, steps: u8, value: &Value) -> Result<Case, InputError>
    requires { steps ≤ STEP_LIMIT }
    ensures case { (input : List ℕ) → value_of input ≡ Some (view value.now) →
        Gives input_fault (λ c. c) result (case_of_array p.now steps input) }
    ensures fault { IfErr result IsOfInput }
    ensures said { IfOk result (λ c. c.said ≡ steps) }
    ensures sound { IfOk result (IsCaseSoFar (length p.now.roster.users)) }
{
    let Some(items) = value.as_array() else {
        return Err(InputError::Fault(InputFault::Syntax));
    };
    if !are_said(p, items) {
        return Err(InputError::Fault(InputFault::Syntax));
    }
    if items.len() != steps as usize {
        return Err(InputError::Fault(InputFault::Length));
    }
    match read_states(p, items) {
        Ok(c) => Ok(c),
        Err(place) => Err(InputError::Fault(InputFault::NoUser(place as u32))),
    }
}

// Whether each item says something of a step.
fn are_said(p: &Policy, items: &[Value]) -> bool
    ensures { result ≡ list_all (is_said p.now) (listed_items (items_view items.now)) }
{
    'items: for item in items {
        if said_in(p, item).is_none() {
            return false;
        }
    }
    true
}

// The case that the items say, or the place of the first one whose user is not known.
fn read_states(p: &Policy, items: &[Value]) -> Result<Case, u8>
    requires { length items.now ≤ STEP_LIMIT }
    ensures case { Gives (λ place. Some (NoUser place)) (λ c. c) result
        (each (next_said p.now) no_case (listed_items (items_view items.now))) }
    ensures said { IfOk result (λ c. c.said ≡ length items.now) }
    ensures sound { IfOk result (IsCaseSoFar (length p.now.roster.users)) }
{
    let mut c = first_case();
    'items: for item in items {
        c = read_state(p, &c, item)?;
    }
    Ok(c)
}

// The case with what an item says of its next step.
#[tactic(auto, unfolding(crate::specs::Cases::next_said))]
fn read_state(p: &Policy, c: &Case, item: &Value) -> Result<Case, u8>
    requires room { c.now.said < STEP_LIMIT }
    requires sound { IsCaseSoFar (length p.now.roster.users) c.now }
    ensures case { Gives (λ place. Some (NoUser place)) (λ c. c) result
        (next_said p.now c.now (view item.now)) }
    ensures said { IfOk result (λ d. d.said ≡ c.now.said + 1) }
    ensures sound { IfOk result (IsCaseSoFar (length p.now.roster.users)) }
{
    match said_in(p, item) {
        Some(Some(state)) => Ok(with_said(c, state)),
        _ => Err(c.said),
    }
}

// The case with the state of its next step.
fn with_said(c: &Case, state: StepState) -> Case
    requires { c.now.said < STEP_LIMIT }
    ensures case { result ≡ with_said c.now state }
{
    let s = StepId(c.said);
    let (assigned, finished) = match state {
        StepState::Free => (c.assigned, c.finished),
        StepState::Held(u) => (c.assigned.with(s, u), c.finished),
        StepState::Finished(u) => (c.assigned.with(s, u), c.finished.with(s)),
    };
    Case {
        said: c.said + 1,
        assigned,
        finished,
    }
}
