//! The input as JSON, the users whom it names, and the input of `plan` read as a plan.
ghost use Rattle.std.specs.Prelude.{◌≡◌, ◌<◌, ◌≤◌, ◌^◌, ◌==◌, ℕ, List, [], ◌∷◌, ◌++◌, length};
ghost use Rattle.std.specs.Prelude.{option_and_then, Some, IfErr, IfOk, IfSome, OnOk};
ghost use Rattle.std.specs.List.{list_all};
ghost use Rattle.serde_json.specs.View.{view, items_view};
ghost use Rattle.serde_json.specs.Find.{as_str};
ghost use Rattle.basics.specs.Laws.Reading.{Gives, or_fault, each};
ghost use Rattle.wf_names.specs.declared.limits.TheConstants.{STEP_LIMIT};
ghost use Rattle.policy_book.specs.Policies.{flow_at};
ghost use Rattle.wire_json.specs.Values.{value_of};
ghost use Rattle.run_record.specs.declared.fault.InputFault.TheVariants.{Syntax};
ghost use Rattle.wf_commands.specs.Input.{plan_of_input, number_named, next_in_plan, is_text};
ghost use Rattle.wf_commands.specs.Input.{listed_items, input_fault, AreAmong, HasOneMoreUser};
ghost use Rattle.wf_commands.specs.Input.{IsOfInput};

use policy_book::{Plan, Policy};
use run_record::InputFault;
use serde_json::Value;
use std::alloc::Global;
use wf_names::{Name, UserId};
use wire_json::read_value;

/// Why an input was not read.
#[derive(Clone, Copy)]
pub enum InputError {
    /// It has this fault.
    Fault(InputFault),
    /// There was no memory.
    NoMemory,
}

/// The plan that an input is for a workflow.
#[tactic(auto, unfolding(crate::specs::Input::plan_of_input))]
pub(crate) fn read_plan(
    alloc: Global,
    p: &Policy,
    steps: u8,
    input: &[u8],
) -> Result<Plan, InputError>
    requires { steps ≤ STEP_LIMIT }
    ensures plan { Gives input_fault (λ plan. plan) result (plan_of_input p.now steps input.now) }
    ensures whole { IfOk result (λ plan. length plan ≡ steps) }
    ensures fault { IfErr result IsOfInput }
    ensures users { IfOk result (λ plan. AreAmong (length p.now.roster.users) plan) }
{
    let value = json_of(alloc, input)?;
    read_names(alloc, p, steps, &value)
}

// The same of an input that is this value.
#[tactic(auto, using(crate::proofs::Values::count), unfolding(crate::specs::Input::plan_of_input))]
fn read_names(alloc: Global, p: &Policy, steps: u8, value: &Value) -> Result<Plan, InputError>
    requires { steps ≤ STEP_LIMIT }
    ensures plan { (input : List ℕ) → value_of input ≡ Some (view value.now) →
        Gives input_fault (λ plan. plan) result (plan_of_input p.now steps input) }
    ensures whole { IfOk result (λ plan. length plan ≡ steps) }
    ensures fault { IfErr result IsOfInput }
    ensures users { IfOk result (λ plan. AreAmong (length p.now.roster.users) plan) }
{
    let Some(items) = value.as_array() else {
        return Err(InputError::Fault(InputFault::Syntax));
    };
    if !are_texts(items) {
        return Err(InputError::Fault(InputFault::Syntax));
    }
    if items.len() != steps as usize {
        return Err(InputError::Fault(InputFault::Length));
    }
    let users = read_users(alloc, p, items)?;
    Ok(Plan::of(&users))
}

/// The JSON value of the input.
pub fn json_of(alloc: Global, input: &[u8]) -> Result<Value, InputError>
    ensures value { Gives input_fault view result (or_fault (value_of input.now) Syntax) }
    ensures fault { IfErr result IsOfInput }
{
    match read_value(alloc, input) {
        Ok(Some(value)) => Ok(value),
        Ok(None) => Err(InputError::Fault(InputFault::Syntax)),
        Err(_) => Err(InputError::NoMemory),
    }
}

// Whether each item is a text.
fn are_texts(items: &[Value]) -> bool
    ensures { result ≡ list_all is_text (listed_items (items_view items.now)) }
{
    'texts: for item in items {
        if item.as_str().is_none() {
            return false;
        }
    }
    true
}

// The users that the items name.
fn read_users(alloc: Global, p: &Policy, items: &[Value]) -> Result<Vec<UserId>, InputError>
    requires { length items.now ≤ STEP_LIMIT }
    ensures users { Gives input_fault (λ users. users.items) result
        (each (next_in_plan p.now) [] (listed_items (items_view items.now))) }
    ensures whole { IfOk result (λ users. length users.items ≡ length items.now) }
    ensures fault { IfErr result IsOfInput }
    ensures known { IfOk result (λ users. AreAmong (length p.now.roster.users) users.items) }
{
    let mut users = Vec::new(alloc);
    'users: for item in items {
        read_user(p, &mut users, item)?;
    }
    Ok(users)
}

// The user that an item names, behind those before.
#[tactic(auto, unfolding(crate::specs::Input::next_in_plan))]
fn read_user(p: &Policy, users: &mut Vec<UserId>, item: &Value) -> Result<(), InputError>
    requires { length users.old.items < 2 ^ 32 }
    ensures user { Gives input_fault (λ _. users.new.items) result
        (next_in_plan p.now users.old.items (view item.now)) }
    ensures fault { IfErr result IsOfInput }
    ensures pushed { OnOk result
        (HasOneMoreUser (length p.now.roster.users) users.old.items users.new.items) }
{
    match user_of(p, item) {
        Some(u) => match users.push(u) {
            Ok(()) => Ok(()),
            Err(_) => Err(InputError::NoMemory),
        },
        None => Err(InputError::Fault(InputFault::NoUser(users.len() as u32))),
    }
}

// The user that an item names, if it is a text and names one.
fn user_of(p: &Policy, item: &Value) -> Option<UserId>
    ensures user { result ≡
        option_and_then (number_named p.now.roster.users) (as_str (view item.now)) }
    ensures known { IfSome result (λ u. u < length p.now.roster.users) }
{
    match item.as_str() {
        Some(text) => find_user(p, text),
        None => None,
    }
}

/// The user of a name, if the text is one.
pub fn find_user(p: &Policy, text: &str) -> Option<UserId>
    ensures user { result ≡ number_named p.now.roster.users text.now }
    ensures known { IfSome result (λ u. u < length p.now.roster.users) }
{
    match Name::read(text) {
        Some(name) => match p.roster().users().find(&name) {
            Some(number) => Some(UserId(number)),
            None => None,
        },
        None => None,
    }
}
