//! Writes the workflows.
ghost use Rattle.std.specs.Prelude.{◌≡◌, ◌<◌, ◌≤◌, ◌+◌, ◌++◌, ◌∷◌, [], ℕ, length, map, true, IfOk};
ghost use Rattle.std.specs.Prelude.{OnOk, codes};
ghost use Rattle.std.specs.FinSet as set;
ghost use Rattle.policy_book.specs.Laws.Facts.{AreSoundRules, IsSoundRule};
ghost use Rattle.policy_book.specs.Policies.{flow_at};
ghost use Rattle.wf_names.specs.declared.limits.TheConstants.{ROLE_LIMIT, STEP_LIMIT};
ghost use Rattle.constraint_forms.specs.Assign.{is_member};
ghost use Rattle.toml.specs.Data.{no_members};
ghost use Rattle.toml.specs.View.{view, table_view};
ghost use Rattle.wf_names.specs.Table.{AreNames};
ghost use Rattle.policy_reader.specs.Documents as spec;
ghost use Rattle.policy_reader.specs.Named.{HasFlags, HaveFlags, IsNamedWorkflow};

use crate::Form;
use crate::printed_parts::{push, push_name, push_pair, put, put_name, put_names, put_word};
use crate::printed_rosters::put_related;
use crate::written::form_of;
use constraint_forms::{Rule, Rules, StepSet};
use policy_book::Policy;
use std::alloc::{AllocError, Global};
use toml::Value;
use toml::value::Table;
use user_relations::Relations;
use wf_names::{FlowId, Name, NameTable, RelId, RoleId, StepId};
use workflow_schema::Flow;

/// Appends the pairs of a step with each that comes right after it.
#[tactic(auto, using(crate::proofs::Writing::row_more, crate::proofs::Writing::row_skip))]
fn push_row(alloc: Global, values: &mut Vec<Value>, flow: &Flow, s: u16) -> Result<(), AllocError>
    requires { s < length flow.now.steps }
    ensures { OnOk result (map view values.new.items ≡ map view values.old.items
        ++ map (spec.pair_data flow.now.steps)
        (spec.row s (length flow.now.steps) flow.now.order)) }
{
    'steps: for t in 0..flow.steps().len() {
        if flow.ordered(StepId(s as u8), StepId(t as u8))
            && push_pair(alloc, values, flow.steps(), (s, t)).is_err()
        {
            return Err(AllocError);
        }
    }
    Ok(())
}

/// An array of the pairs of a workflow's order.
#[tactic(auto, using(crate::proofs::Writing::rows_more))]
fn order_value(alloc: Global, flow: &Flow) -> Result<Value, AllocError>
    ensures { IfOk result (λ v. view v ≡ spec.pairs_data flow.now.steps flow.now.order) }
{
    let mut values = Vec::new(alloc);
    'steps: for s in 0..flow.steps().len() {
        if push_row(alloc, &mut values, flow, s).is_err() {
            return Err(AllocError);
        }
    }
    Ok(Value::Array(values))
}

/// An array of the roles that a step is permitted to.
#[tactic(auto, using(crate::proofs::Writing::chosen_more, crate::proofs::Writing::chosen_skip))]
fn permitted_value(
    alloc: Global,
    roles: &NameTable,
    flow: &Flow,
    s: StepId,
) -> Result<Value, AllocError>
    requires { length roles.now.names ≤ ROLE_LIMIT }
    ensures { IfOk result (λ v. view v ≡ spec.names_where roles.now.names
        (λ r. set.contains flow.now.permits (r, s))) }
{
    let mut values = Vec::new(alloc);
    'roles: for r in 0..roles.len() {
        if flow.permits(RoleId(r as u8), s) && push_name(alloc, &mut values, roles, r).is_err() {
            return Err(AllocError);
        }
    }
    Ok(Value::Array(values))
}

#[tactic(auto, using(crate::proofs::Writing::name_found))]
fn put_permit(
    alloc: Global,
    table: &mut Table,
    roles: &NameTable,
    flow: &Flow,
    s: StepId,
) -> Result<(), AllocError>
    requires roles { length roles.now.names ≤ ROLE_LIMIT }
    requires step { s < length flow.now.steps }
    ensures { OnOk result (table_view table.new
        ≡ spec.with_member (spec.permit_entry roles.now.names flow.now s).0
        (spec.permit_entry roles.now.names flow.now s).1 (table_view table.old)) }
{
    let permitted = permitted_value(alloc, roles, flow, s)?;
    let name = flow.steps().name(s.0 as u16);
    put(alloc, table, name.as_str(), permitted)
}

/// A table of the steps with the roles that they are permitted to.
#[tactic(auto, using(crate::proofs::Writing::table_more))]
fn permits_value(alloc: Global, roles: &NameTable, flow: &Flow) -> Result<Value, AllocError>
    requires { length roles.now.names ≤ ROLE_LIMIT }
    ensures { IfOk result (λ v. view v ≡ spec.permits_data roles.now.names flow.now) }
{
    let mut table = Table::new(alloc);
    'steps: for s in 0..flow.steps().len() {
        if put_permit(alloc, &mut table, roles, flow, StepId(s as u8)).is_err() {
            return Err(AllocError);
        }
    }
    Ok(Value::Table(table))
}

/// An array of the steps of a group.
#[tactic(auto, using(crate::proofs::Writing::chosen_more, crate::proofs::Writing::chosen_skip))]
fn group_value(alloc: Global, steps: &NameTable, group: &StepSet) -> Result<Value, AllocError>
    requires { length steps.now.names ≤ STEP_LIMIT }
    ensures value { IfOk result (λ v. view v
        ≡ spec.names_where steps.now.names (is_member group.now)) }
    ensures flags { length group.now ≡ STEP_LIMIT }
{
    let limit = group.limit();
    prove!(steps.len() as usize <= limit);
    let mut values = Vec::new(alloc);
    'steps: for s in 0..steps.len() {
        if group.has(StepId(s as u8)) && push_name(alloc, &mut values, steps, s).is_err() {
            return Err(AllocError);
        }
    }
    Ok(Value::Array(values))
}

fn put_group(
    alloc: Global,
    table: &mut Table,
    steps: &NameTable,
    group: &StepSet,
) -> Result<(), AllocError>
    requires { length steps.now.names ≤ STEP_LIMIT }
    ensures put { OnOk result (table_view table.new ≡ spec.with_member (codes "group")
        (spec.names_where steps.now.names (is_member group.now)) (table_view table.old)) }
    ensures flags { length group.now ≡ STEP_LIMIT }
{
    let group = group_value(alloc, steps, group)?;
    put(alloc, table, "group", group)
}

#[tactic(auto, unfolding(crate::specs::Documents::rule_members))]
fn put_pair(
    alloc: Global,
    table: &mut Table,
    relations: &Relations,
    steps: &NameTable,
    rho: RelId,
    first: StepId,
    second: StepId,
) -> Result<(), AllocError>
    requires none { table_view table.old ≡ no_members }
    requires relation { rho < length relations.now + 2 }
    requires first { first < length steps.now.names }
    requires second { second < length steps.now.names }
    ensures { OnOk result (table_view table.new
        ≡ spec.rule_members relations.now steps.now.names (Rule.Pair rho first second)) }
{
    put_name(alloc, table, "second", steps, second.0 as u16)?;
    put_related(alloc, table, "relation", relations, rho)?;
    put_word(alloc, table, "form", Form::Pair.word())?;
    put_name(alloc, table, "first", steps, first.0 as u16)
}

/// A rule over a group of steps.
#[derive(Clone, Copy)]
struct Grouped {
    form: Form,
    rho: RelId,
    group: StepSet,
    step: StepId,
}

#[tactic(auto, unfolding(crate::specs::Documents::grouped_members))]
fn put_grouped(
    alloc: Global,
    table: &mut Table,
    relations: &Relations,
    steps: &NameTable,
    rule: Grouped,
) -> Result<(), AllocError>
    requires none { table_view table.old ≡ no_members }
    requires few { length steps.now.names ≤ STEP_LIMIT }
    requires relation { rule.rho < length relations.now + 2 }
    requires step { rule.step < length steps.now.names }
    ensures table { OnOk result (table_view table.new
        ≡ spec.grouped_members rule.form relations.now steps.now.names rule.rho rule.group
        rule.step) }
    ensures flags { OnOk result (length rule.group ≡ STEP_LIMIT) }
{
    put_name(alloc, table, "step", steps, rule.step.0 as u16)?;
    put_related(alloc, table, "relation", relations, rule.rho)?;
    put_group(alloc, table, steps, &rule.group)?;
    put_word(alloc, table, "form", rule.form.word())
}

#[tactic(auto, unfolding(crate::specs::Documents::counting_members))]
fn put_counting(
    alloc: Global,
    table: &mut Table,
    form: Form,
    steps: &NameTable,
    limit: u8,
    group: &StepSet,
) -> Result<(), AllocError>
    requires none { table_view table.old ≡ no_members }
    requires few { length steps.now.names ≤ STEP_LIMIT }
    ensures table { OnOk result (table_view table.new
        ≡ spec.counting_members form steps.now.names limit group.now) }
    ensures flags { OnOk result (length group.now ≡ STEP_LIMIT) }
{
    put(alloc, table, "limit", Value::Integer(limit as i64))?;
    put_group(alloc, table, steps, group)?;
    put_word(alloc, table, "form", form.word())
}

/// Fills an empty table with a rule.
#[tactic(auto, unfolding(crate::specs::Documents::rule_members))]
fn put_rule(
    alloc: Global,
    table: &mut Table,
    relations: &Relations,
    steps: &NameTable,
    rule: &Rule,
) -> Result<(), AllocError>
    requires none { table_view table.old ≡ no_members }
    requires few { length steps.now.names ≤ STEP_LIMIT }
    requires sound { IsSoundRule (length steps.now.names) (length relations.now) rule.now }
    ensures table { OnOk result (table_view table.new
        ≡ spec.rule_members relations.now steps.now.names rule.now) }
    ensures flags { OnOk result (HasFlags rule.now) }
{
    match *rule {
        Rule::Pair { rho, first, second } => {
            put_pair(alloc, table, relations, steps, rho, first, second)
        }
        Rule::SomeOf { rho, group, step }
        | Rule::AllOf { rho, group, step }
        | Rule::SomeTo { rho, step, group }
        | Rule::AllTo { rho, step, group } => {
            let rule = Grouped {
                form: form_of(rule),
                rho,
                group,
                step,
            };
            put_grouped(alloc, table, relations, steps, rule)
        }
        Rule::AtMost { limit, group } | Rule::AtLeast { limit, group } => {
            put_counting(alloc, table, form_of(rule), steps, limit, &group)
        }
    }
}

/// An array of the rules of a workflow.
fn rules_value(
    alloc: Global,
    relations: &Relations,
    steps: &NameTable,
    rules: &Rules,
) -> Result<Value, AllocError>
    requires few { length steps.now.names ≤ STEP_LIMIT }
    requires sound { AreSoundRules (length steps.now.names) (length relations.now) rules.now }
    ensures value { IfOk result (λ v. view v
        ≡ spec.rules_data relations.now steps.now.names rules.now) }
    ensures flags { IfOk result (λ _. HaveFlags rules.now) }
{
    let mut values = Vec::new(alloc);
    'rules: for k in 0..rules.len() {
        push_rule(alloc, &mut values, relations, steps, rules.get(k))?;
    }
    Ok(Value::Array(values))
}

fn push_rule(
    alloc: Global,
    values: &mut Vec<Value>,
    relations: &Relations,
    steps: &NameTable,
    rule: &Rule,
) -> Result<(), AllocError>
    requires few { length steps.now.names ≤ STEP_LIMIT }
    requires sound { IsSoundRule (length steps.now.names) (length relations.now) rule.now }
    ensures pushed { OnOk result (map view values.new.items
        ≡ map view values.old.items ++ spec.rule_data relations.now steps.now.names rule.now ∷ []) }
    ensures flags { OnOk result (HasFlags rule.now) }
{
    let mut table = Table::new(alloc);
    put_rule(alloc, &mut table, relations, steps, rule)?;
    push(values, Value::Table(table))
}

/// Fills an empty table with the workflow with a number.
#[tactic(auto, unfolding(crate::specs::Documents::workflow_members))]
fn put_workflow(
    alloc: Global,
    table: &mut Table,
    policy: &Policy,
    f: FlowId,
) -> Result<(), AllocError>
    requires none { table_view table.old ≡ no_members }
    requires flow { f < length policy.now.flows }
    ensures table { OnOk result (table_view table.new
        ≡ spec.workflow_members policy.now.roster.roles policy.now.relations
        (flow_at policy.now f)) }
    ensures named { OnOk result (IsNamedWorkflow (flow_at policy.now f)) }
{
    let flow = policy.flow(f);
    let steps = flow.steps();
    let relations = policy.relations();
    put_names(alloc, table, "steps", steps)?;
    let rules = rules_value(alloc, relations, steps, policy.rules(f))?;
    put(alloc, table, "rules", rules)?;
    let permits = permits_value(alloc, policy.roster().roles(), flow)?;
    put(alloc, table, "permit", permits)?;
    let order = order_value(alloc, flow)?;
    put(alloc, table, "order", order)
}

/// The name of a workflow.
#[tactic(auto, using(crate::proofs::Writing::name_found))]
fn flow_name(policy: &Policy, f: FlowId) -> Name
    requires { f < length policy.now.flows }
    ensures { result ≡ spec.name_at policy.now.flow_names f }
{
    policy.flows().name(f.0 as u16)
}

fn put_flow(alloc: Global, table: &mut Table, policy: &Policy, f: FlowId) -> Result<(), AllocError>
    requires { f < length policy.now.flows }
    ensures named { OnOk result (IsNamedWorkflow (flow_at policy.now f)) }
    ensures put { OnOk result (table_view table.new
        ≡ spec.with_member (spec.flow_entry policy.now f).0 (spec.flow_entry policy.now f).1
        (table_view table.old)) }
{
    let mut workflow = Table::new(alloc);
    put_workflow(alloc, &mut workflow, policy, f)?;
    let name = flow_name(policy, f);
    put(alloc, table, name.as_str(), Value::Table(workflow))
}

/// A table of the workflows.
#[tactic(auto, using(crate::proofs::Writing::table_more, crate::proofs::Writing::one_further))]
pub(crate) fn flows_value(alloc: Global, policy: &Policy) -> Result<Value, AllocError>
    ensures value { IfOk result (λ v. view v ≡ spec.flows_data policy.now) }
    ensures names { AreNames policy.now.flow_names }
    ensures named { IfOk result (λ _. (f : ℕ) → f < length policy.now.flows
        → IsNamedWorkflow (flow_at policy.now f)) }
{
    let mut table = Table::new(alloc);
    'flows: for f in 0..policy.flows().len() {
        if put_flow(alloc, &mut table, policy, FlowId(f as u8)).is_err() {
            return Err(AllocError);
        }
    }
    Ok(Value::Table(table))
}
