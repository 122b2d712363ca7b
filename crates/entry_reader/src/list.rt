//! Lists of users, roles and states.
ghost use Rattle.std.specs.Prelude.{◌≡◌, ◌≤◌, IfOk, Option, length, option_and_then};
ghost use Rattle.wf_names.specs.declared.limits.TheConstants.{STEP_LIMIT};
ghost use Rattle.std.specs.Fn.{FnReturnsAt};
ghost use Rattle.serde_json.specs.Data.{Data};
ghost use Rattle.serde_json.specs.View.{view, items_view};
ghost use Rattle.serde_json.specs.Find.{as_array};
ghost use Rattle.entry_reader.specs.Reads.{Reads, ReadsBy};
ghost use Rattle.entry_reader.specs.Values as read;
ghost use Rattle.entry_reader.specs.Told as told;

use crate::denial::step_by;
use crate::parts::{case_number_of, pair_of, role_of, seen_of, user_of};
use crate::{NotText, TextFault};
use basics::{Fault, List};
use policy_book::{Plan, Policy};
use serde_json::Value;
use std::alloc::Global;
use wf_names::STEP_LIMIT;
use wf_talk::{CaseList, FlowOf, RoleList, States, WorkItem, WorkList};

/// The plan at the key plan.
pub(crate) fn plan_of(alloc: Global, p: &Policy, value: &Value) -> Result<Plan, TextFault>
    ensures { Reads (λ plan. plan) result (told.plan_read p.now (view value.now)) }
{
    let users = few_of(alloc, value, "plan", |item| user_of(p, item))?;
    Ok(Plan::of(users.as_slice()))
}

/// The states at the key steps.
pub(crate) fn states_of(alloc: Global, p: &Policy, value: &Value) -> Result<States, TextFault>
    ensures { Reads (λ states. states) result (told.states_read p.now (view value.now)) }
{
    let states = few_of(alloc, value, "steps", |item| seen_of(p, item))?;
    Ok(States::of(states.as_slice()))
}

/// Roles.
pub(crate) fn roles_of(alloc: Global, p: &Policy, value: &Value) -> Result<RoleList, TextFault>
    ensures { Reads (λ roles. roles) result (told.roles_read p.now (view value.now)) }
{
    each_of(alloc, value, |item| role_of(p, item))
}

/// A work list.
pub(crate) fn work_of<F: FlowOf>(
    alloc: Global,
    p: &Policy,
    cases: &F,
    value: &Value,
) -> Result<WorkList, TextFault>
    ensures { Reads (λ items. items) result
        (told.work_read p.now (F.FlowOf.flows cases.now) (view value.now)) }
{
    each_of(alloc, value, |item| item_of(p, cases, item))
}

/// Numbers of cases.
pub(crate) fn cases_of(alloc: Global, value: &Value) -> Result<CaseList, TextFault>
    ensures { Reads (λ cases. cases) result (told.cases_read (view value.now)) }
{
    each_of(alloc, value, |item| case_number_of(item))
}

// What is read of each item of an array at a key, of as many as a workflow may have steps.
fn few_of<T: Drop, F: Fn(&Value) -> Option<T>>(
    alloc: Global,
    value: &Value,
    key: &str,
    reader: F,
) -> Result<List<T>, TextFault>
    requires { F.IsAlwaysCallable reader }
    ensures read { (f : Data → Option T) → ReadsBy (FnReturnsAt F.Fn reader) f
        → Reads (λ xs. xs) result (read.at_key (read.few_read f) key.now (view value.now)) }
    ensures few { IfOk result (λ xs. length xs ≤ STEP_LIMIT) }
{
    let items = value.get(key).ok_or(Fault::Cause(NotText))?;
    let list = each_of(alloc, items, reader)?;
    if list.len() > STEP_LIMIT {
        return Err(Fault::Cause(NotText));
    }
    Ok(list)
}

// The items of an array.
fn items_of(value: &Value) -> Result<&[Value], TextFault>
    ensures { Reads (λ items. items_view items.now) result (as_array (view value.now)) }
{
    let items = value.as_array().ok_or(Fault::Cause(NotText))?;
    Ok(items)
}

// What is read of each item of an array.
#[tactic(auto, using(crate::proofs::Uses::each_item))]
fn each_of<T: Drop, F: Fn(&Value) -> Option<T>>(
    alloc: Global,
    value: &Value,
    reader: F,
) -> Result<List<T>, TextFault>
    requires { F.IsAlwaysCallable reader }
    ensures { (f : Data → Option T) → ReadsBy (FnReturnsAt F.Fn reader) f
        → Reads (λ xs. xs) result
        (option_and_then (read.each_read f) (as_array (view value.now))) }
{
    let mut list = List::new(alloc);
    let items = items_of(value)?;
    'items: for item in items {
        let read = reader(item).ok_or(Fault::Cause(NotText))?;
        list.push(read)?;
    }
    Ok(list)
}

// A step of a work list, of the workflow of its case.
fn item_of<F: FlowOf>(p: &Policy, cases: &F, value: &Value) -> Option<WorkItem>
    ensures { result ≡ told.item_read p.now (F.FlowOf.flows cases.now) (view value.now) }
{
    let (case, step) = pair_of(value)?;
    let case = case_number_of(case)?;
    let (flow, step) = step_by(p, cases.flow_of(case), step)?;
    Some(WorkItem { case, flow, step })
}
