//! Reads the steps, the order and the permissions of a workflow. Their faults carry the
//! workflow's number.
ghost use Rattle.std.specs.Prelude.{◌≡◌, ◌<◌, ◌≤◌, ℕ, length, slice_index_or, IfOk, OnOk, true};
ghost use Rattle.std.specs.Prelude.{[]};
ghost use Rattle.std.specs.FinSet as set;
ghost use Rattle.toml.specs.View.{view, items_view, table_view};
ghost use Rattle.wf_names.specs.declared.limits.TheConstants.{ROLE_LIMIT, STEP_LIMIT};
ghost use Rattle.workflow_schema.specs.Flows.{is_count};
ghost use Rattle.policy_book.specs.Laws.Facts.{PermitsRolesBelow};
ghost use Rattle.policy_reader.specs.Bounds.{AreBelow};
ghost use Rattle.policy_reader.specs.Kept.{HasPermitted, IsCycleOrMemory};
ghost use Rattle.policy_reader.specs.Faults.{fault_of, fault_about};
ghost use Rattle.policy_reader.specs.declared.fault.ReadFault.TheVariants.{Policy, NoMemory};
ghost use Rattle.policy_reader.specs.declared.fault.PolicyKind.TheVariants as kind;
ghost use Rattle.policy_reader.specs.Parts as parts;
ghost use Rattle.policy_reader.specs.Parts.{items as part_items};
ghost use Rattle.policy_reader.specs.declared.fault.PolicyPart.TheVariants.{Flows};
ghost use Rattle.policy_reader.specs.Flows as spec;
ghost use Rattle.policy_reader.specs.Laws.Grammars.{today};
ghost use Rattle.basics.specs.Laws.Reading.{Gives, each};

use crate::fault::{PolicyKind, PolicyPart, ReadFault, refuse_text};
use crate::pairs::read_pairs;
use crate::parts::{array_of, find, items_at, named_of, next_name, number_of, table_at, twice};
use std::alloc::Global;
use toml::Value;
use toml::value::Table;
use wf_names::{NameTable, RoleId, STEP_LIMIT, StepId};
use workflow_schema::laws::order_is_chained;
use workflow_schema::{Flow, FlowFault, StepPairs};

/// Reads the steps of a workflow.
#[tactic(auto, unfolding(crate::specs::Flows::steps_named), using(crate::proofs::Counts::counted))]
pub(crate) fn read_steps(alloc: Global, table: &Table, flow: u32) -> Result<NameTable, ReadFault>
    ensures read { Gives fault_of (λ t. t.names) result
        (spec.steps_named today flow (table_view table.now)) }
    ensures counted { IfOk result (λ t. is_count (length t.names) ≡ true) }
{
    let items = items_at(STEP_LIMIT, table, "steps", PolicyPart::Flows, flow)?;
    all_steps(alloc, items, flow)
}

fn all_steps(alloc: Global, items: &[Value], flow: u32) -> Result<NameTable, ReadFault>
    requires few { length items.now ≤ STEP_LIMIT }
    ensures read { Gives fault_of (λ t. t.names) result
        (each (parts.next_name Flows flow) [] (part_items (items_view items.now))) }
    ensures count { IfOk result (λ t. length t.names ≡ length items.now) }
{
    let mut steps = NameTable::new(alloc, STEP_LIMIT as u16)?;
    'items: for value in items {
        if let Err(fault) = next_name(&mut steps, value, PolicyPart::Flows, flow) {
            return Err(fault);
        }
    }
    Ok(steps)
}

/// Reads the pairs of a workflow's order.
#[tactic(auto, unfolding(crate::specs::Flows::order_pairs, crate::specs::Flows::order_in))]
pub(crate) fn read_order(
    steps: &NameTable,
    table: &Table,
    flow: u32,
) -> Result<StepPairs, ReadFault>
    requires { is_count (length steps.now.names) ≡ true }
    ensures read { Gives fault_of (λ pairs. pairs) result
        (spec.order_pairs flow steps.now.names (table_view table.now)) }
    ensures within { IfOk result (AreBelow (length steps.now.names)) }
{
    let Some(value) = find(table, "order") else {
        return Ok(StepPairs::new());
    };
    let items = array_of(value, PolicyPart::Flows, flow)?;
    read_pairs(StepPairs::new(), steps, items, PolicyPart::Flows, flow)
}

/// Makes the workflow of these steps and this order, which permits nothing yet, where no step is
/// before itself.
#[tactic(auto, unfolding(crate::specs::Flows::no_cycle))]
pub(crate) fn make_flow(
    alloc: Global,
    steps: &NameTable,
    order: &StepPairs,
    flow: u32,
) -> Result<Flow, ReadFault>
    requires counted { is_count (length steps.now.names) ≡ true }
    requires within { AreBelow (length steps.now.names) order.now }
    ensures cycle { Gives fault_of (λ _. tt) result (spec.no_cycle flow steps.now.names order.now) }
    ensures made { IfOk result (λ f. f ≡ record
        { steps = steps.now.names; order = order.now; permits = set.empty }) }
{
    order_is_chained();
    let names = steps.copy()?;
    match Flow::ordered_by(alloc, names, order) {
        Ok(made) => Ok(made),
        Err(fault) => Err(flow_fault(steps, fault, flow)),
    }
}

fn flow_fault(steps: &NameTable, fault: FlowFault, flow: u32) -> ReadFault
    requires known { IsCycleOrMemory fault }
    requires within { (s : ℕ) → fault ≡ FlowFault.Cycle s → s < length steps.now.names }
    ensures cycle { (s : ℕ) → fault ≡ FlowFault.Cycle s
        → result ≡ Policy (fault_about kind.Cycle Flows flow
        (slice_index_or steps.now.names s [])) }
    ensures memory { fault ≡ FlowFault.NoMemory → result ≡ NoMemory }
{
    match fault {
        FlowFault::Cycle(s) => {
            let name = steps.name(s.0 as u16);
            refuse_text(PolicyKind::Cycle, PolicyPart::Flows, flow, name.as_str())
        }
        FlowFault::NoMemory => ReadFault::NoMemory,
        _ => unreachable!(),
    }
}

/// The roles of a policy, to which the steps of the workflow with a number are permitted.
#[derive(Clone, Copy)]
pub(crate) struct Roles<'p> {
    /// The names of the roles.
    pub names: &'p NameTable,
    /// The number of the workflow.
    pub flow: u32,
    ghost few: { length names.now.names ≤ ROLE_LIMIT },
}

/// Permits a step to the next role.
#[tactic(auto, unfolding(crate::specs::Flows::next_permitted, crate::specs::Parts::once))]
fn next_permitted(made: &mut Flow, roles: &Roles, s: StepId, value: &Value) -> Result<(), ReadFault>
    requires step { s < length made.old.steps }
    requires roles { PermitsRolesBelow (length roles.now.names.now.names) made.old }
    ensures read { Gives fault_of (λ _. made.new) result (spec.next_permitted roles.now.flow
        roles.now.names.now.names s made.old (view value.now)) }
    ensures kept { OnOk result (HasPermitted (length roles.now.names.now.names)
        made.old made.new) }
{
    let role = named_of(roles.names, value, PolicyPart::Flows, roles.flow)?;
    if made.permit(RoleId(role as u8), s) {
        Ok(())
    } else {
        Err(twice(value, PolicyPart::Flows, roles.flow))
    }
}

fn all_permitted(
    made: &mut Flow,
    roles: &Roles,
    s: StepId,
    items: &[Value],
) -> Result<(), ReadFault>
    requires step { s < length made.old.steps }
    requires roles { PermitsRolesBelow (length roles.now.names.now.names) made.old }
    ensures read { Gives fault_of (λ _. made.new) result
        (each (spec.next_permitted roles.now.flow roles.now.names.now.names s) made.old
        (part_items (items_view items.now))) }
    ensures kept { OnOk result (HasPermitted (length roles.now.names.now.names)
        made.old made.new) }
{
    'items: for value in items {
        if let Err(fault) = next_permitted(made, roles, s, value) {
            return Err(fault);
        }
    }
    Ok(())
}

/// Permits the next step to its roles.
#[tactic(auto, unfolding(crate::specs::Flows::next_permit))]
fn next_permit(made: &mut Flow, roles: &Roles, key: &str, value: &Value) -> Result<(), ReadFault>
    requires roles { PermitsRolesBelow (length roles.now.names.now.names) made.old }
    ensures read { Gives fault_of (λ _. made.new) result (spec.next_permit roles.now.flow
        roles.now.names.now.names made.old (key.now, view value.now)) }
    ensures kept { OnOk result (HasPermitted (length roles.now.names.now.names)
        made.old made.new) }
{
    let number = number_of(made.steps(), key, PolicyPart::Flows, roles.flow)?;
    let items = array_of(value, PolicyPart::Flows, roles.flow)?;
    all_permitted(made, roles, StepId(number as u8), items)
}

/// Reads the permissions of a workflow.
#[tactic(auto, unfolding(crate::specs::Flows::permits_of))]
pub(crate) fn read_permits(made: &mut Flow, roles: &Roles, table: &Table) -> Result<(), ReadFault>
    requires roles { PermitsRolesBelow (length roles.now.names.now.names) made.old }
    ensures read { Gives fault_of (λ _. made.new) result (spec.permits_of roles.now.flow
        roles.now.names.now.names made.old (table_view table.now)) }
    ensures kept { OnOk result (HasPermitted (length roles.now.names.now.names)
        made.old made.new) }
{
    let permits = table_at(table, "permit", PolicyPart::Flows, roles.flow)?;
    'entries: for (key, value) in permits {
        if let Err(fault) = next_permit(made, roles, key.as_str(), value) {
            return Err(fault);
        }
    }
    Ok(())
}
