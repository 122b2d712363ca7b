//! Reads the workflows of a policy file. Their faults carry the workflow's number.
ghost use Rattle.std.specs.Prelude.{◌≡◌, ◌<◌, ◌≤◌, ◌++◌, ◌∷◌, [], length, is_some, IfErr, IfOk};
ghost use Rattle.std.specs.Prelude.{OnOk, false, true};
ghost use Rattle.toml.specs.View.{view, table_view};
ghost use Rattle.wf_names.specs.declared.limits.TheConstants.{FLOW_LIMIT, RULE_LIMIT};
ghost use Rattle.wf_names.specs.Table.{place_of};
ghost use Rattle.policy_book.specs.Laws.Facts.{AreSoundRules, PermitsRolesBelow};
ghost use Rattle.std.specs.FinSet as set;
ghost use Rattle.workflow_schema.specs.Flows.{is_count};
ghost use Rattle.policy_reader.specs.Kept.{HasPermitted, IsBare, IsGrown};
ghost use Rattle.policy_reader.specs.Laws.Printable.{IsPrintable};
ghost use Rattle.policy_reader.specs.Faults.{fault_of};
ghost use Rattle.policy_reader.specs.Flows as spec;
ghost use Rattle.policy_reader.specs.Laws.Grammars.{today};
ghost use Rattle.policy_reader.specs.declared.fault.ReadFault.TheVariants.{NoMemory};
ghost use Rattle.basics.specs.Laws.Reading.{Gives};

use crate::fault::{PolicyPart, ReadFault};
use crate::format::Format;
use crate::parts::{entries_at, name_of, no_others, table_of};
use crate::rules::{Scope, read_rules};
use crate::workflows::{Roles, make_flow, read_order, read_permits, read_steps};
use constraint_forms::Rules;
use policy_book::Policy;
use std::alloc::Global;
use toml::Value;
use toml::value::Table;
use wf_names::{FLOW_LIMIT, Name, NameFault};
use workflow_schema::Flow;

/// Reads the steps of a workflow, their order and who may perform them.
#[tactic(auto, unfolding(crate::specs::Flows::flow_in, crate::specs::Flows::ordered_in))]
fn flow_of(alloc: Global, roles: &Roles, table: &Table) -> Result<Flow, ReadFault>
    ensures read { Gives fault_of (λ f. f) result
        (spec.flow_in today roles.now.flow roles.now.names.now.names (table_view table.now)) }
    ensures roles { IfOk result (PermitsRolesBelow (length roles.now.names.now.names)) }
    ensures counted { IfOk result (λ f. is_count (length f.steps) ≡ true) }
{
    let steps = read_steps(alloc, table, roles.flow)?;
    let order = read_order(&steps, table, roles.flow)?;
    match make_flow(alloc, &steps, &order, roles.flow) {
        Ok(made) => with_permits(made, roles, table),
        Err(fault) => Err(fault),
    }
}

/// Reads who may perform the steps of a workflow that permits nothing yet.
fn with_permits(mut made: Flow, roles: &Roles, table: &Table) -> Result<Flow, ReadFault>
    requires bare { made.permits ≡ set.empty }
    ensures read { Gives fault_of (λ f. f) result (spec.permits_of roles.now.flow
        roles.now.names.now.names made (table_view table.now)) }
    ensures kept { IfOk result (HasPermitted (length roles.now.names.now.names) made) }
{
    match read_permits(&mut made, roles, table) {
        Ok(()) => Ok(made),
        Err(fault) => Err(fault),
    }
}

/// Reads the workflow in a table and adds it under its name.
#[tactic(auto, unfolding(crate::specs::Flows::workflow_in))]
fn add_workflow(
    alloc: Global,
    format: Format,
    policy: &mut Policy,
    name: Name,
    table: &Table,
) -> Result<(), ReadFault>
    requires fresh { is_some (place_of policy.old.flow_names name) ≡ false }
    requires room { length policy.old.flows < FLOW_LIMIT }
    ensures read { Gives fault_of (λ _. policy.new) result
        (spec.with_workflow policy.old name
        (spec.workflow_in today format policy.old (table_view table.now))) }
    ensures names { OnOk result (policy.new.flow_names ≡ policy.old.flow_names ++ name ∷ []) }
    ensures grown { OnOk result (IsGrown policy.old policy.new) }
{
    let number = policy.flows().len() as u32;
    no_others(
        table,
        &["order", "permit", "rules", "steps"],
        PolicyPart::Flows,
        number,
    )?;
    let roles = &Roles {
        names: policy.roster().roles(),
        flow: number,
    };
    match flow_of(alloc, roles, table) {
        Ok(made) => add_ruled(alloc, format, policy, name, made, table, number),
        Err(fault) => Err(fault),
    }
}

/// Reads the rules of a workflow and adds it with them under its name.
#[tactic(auto, unfolding(crate::specs::Flows::ruled_in))]
fn add_ruled(
    alloc: Global,
    format: Format,
    policy: &mut Policy,
    name: Name,
    made: Flow,
    table: &Table,
    number: u32,
) -> Result<(), ReadFault>
    requires fresh { is_some (place_of policy.old.flow_names name) ≡ false }
    requires room { length policy.old.flows < FLOW_LIMIT }
    requires roles { PermitsRolesBelow (length policy.old.roster.roles) made }
    requires counted { is_count (length made.steps) ≡ true }
    ensures read { Gives fault_of (λ _. policy.new) result
        (spec.with_workflow policy.old name
        (spec.ruled_in format policy.old number made (table_view table.now))) }
    ensures names { OnOk result (policy.new.flow_names ≡ policy.old.flow_names ++ name ∷ []) }
    ensures grown { OnOk result (IsGrown policy.old policy.new) }
{
    let scope = &Scope {
        relations: policy.relations(),
        steps: made.steps(),
        flow: number,
    };
    match read_rules(alloc, format, table, scope) {
        Ok(rules) => push_workflow(policy, name, made, rules),
        Err(fault) => Err(fault),
    }
}

#[tactic(auto, using(crate::proofs::Grown::grown_push))]
fn push_workflow(policy: &mut Policy, name: Name, made: Flow, rules: Rules) -> Result<(), ReadFault>
    requires fresh { is_some (place_of policy.old.flow_names name) ≡ false }
    requires room { length policy.old.flows < FLOW_LIMIT }
    requires roles { PermitsRolesBelow (length policy.old.roster.roles) made }
    requires few { length rules ≤ RULE_LIMIT }
    requires ruled { AreSoundRules (length made.steps) (length policy.old.relations) rules }
    ensures added { OnOk result (policy.new ≡ record policy.old {
      flow_names = policy.old.flow_names ++ name ∷ [];
      flows = policy.old.flows ++ record { flow = made; rules = rules; retired = false } ∷ [];
    }) }
    ensures grown { OnOk result (IsGrown policy.old policy.new) }
    ensures memory { IfErr result (λ e. e ≡ NoMemory) }
{
    match policy.add_flow(name, made, rules) {
        Ok(_) => Ok(()),
        Err(NameFault::NoMemory) => Err(ReadFault::NoMemory),
        Err(_) => unreachable!(),
    }
}

/// Reads the next workflow.
#[tactic(auto, unfolding(crate::specs::Flows::next_flow))]
fn next_flow(
    alloc: Global,
    format: Format,
    policy: &mut Policy,
    key: &str,
    value: &Value,
) -> Result<(), ReadFault>
    requires fresh { is_some (place_of policy.old.flow_names key.now) ≡ false }
    requires room { length policy.old.flow_names < FLOW_LIMIT }
    ensures read { Gives fault_of (λ _. policy.new) result
        (spec.next_flow today format policy.old (key.now, view value.now)) }
    ensures names { OnOk result (policy.new.flow_names ≡ policy.old.flow_names ++ key.now ∷ []) }
    ensures grown { OnOk result (IsGrown policy.old policy.new) }
{
    let number = policy.flows().len() as u32;
    let name = name_of(key, PolicyPart::Flows, number)?;
    let table = table_of(value, PolicyPart::Flows, number)?;
    add_workflow(alloc, format, policy, name, table)
}

/// Reads the workflows into a policy that has none.
#[tactic(auto, unfolding(crate::specs::Flows::flows_in))]
pub(crate) fn read_flows(
    alloc: Global,
    format: Format,
    policy: &mut Policy,
    file: &Table,
) -> Result<(), ReadFault>
    requires bare { IsBare policy.old }
    ensures read { Gives fault_of (λ _. policy.new) result
        (spec.flows_in today format policy.old (table_view file.now)) }
    ensures printable { OnOk result (IsPrintable policy.new) }
{
    let flows = entries_at(FLOW_LIMIT as usize, file, "flows", PolicyPart::Flows, 0)?;
    'entries: for (key, value) in flows {
        if let Err(fault) = next_flow(alloc, format, policy, key.as_str(), value) {
            return Err(fault);
        }
    }
    Ok(())
}
