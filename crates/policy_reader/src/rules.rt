//! Reads the rules of a workflow. Their faults carry the workflow's number.
ghost use Rattle.std.specs.Prelude.{◌≡◌, ◌<◌, ◌≤◌, ◌+◌, ◌++◌, ◌∷◌, length, IfErr, map, IfOk};
ghost use Rattle.std.specs.Prelude.{IfSome, OnOk, IsTrue, true, []};
ghost use Rattle.toml.specs.View.{view, items_view, table_view};
ghost use Rattle.wf_names.specs.declared.limits.TheConstants.{STEP_LIMIT, RULE_LIMIT};
ghost use Rattle.constraint_forms.specs.Rules.{any_from};
ghost use Rattle.constraint_forms.specs.Assign.{no_steps};
ghost use Rattle.policy_book.specs.Laws.Facts.{IsSoundRule, AreSoundRules, IsWithinGroup};
ghost use Rattle.policy_reader.specs.Faults.{fault_of};
ghost use Rattle.policy_reader.specs.declared.fault.ReadFault.TheVariants.{NoMemory};
ghost use Rattle.policy_reader.specs.Kept.{HasStepsBelow};
ghost use Rattle.policy_reader.specs.Parts.{items as part_items};
ghost use Rattle.policy_reader.specs.Rules as spec;
ghost use Rattle.basics.specs.Laws.Reading.{Gives, each};

use crate::fault::{PolicyKind, PolicyPart, ReadFault, refuse, refuse_text};
use crate::form::Form;
use crate::format::Format;
use crate::parts::{
    array_of, at_least_one, at_most, find, named_of, no_others, table_of, text_of, twice, value_at,
};
use constraint_forms::{Rule, Rules, StepSet};
use std::alloc::Global;
use toml::Value;
use toml::value::Table;
use user_relations::Relations;
use wf_names::{Name, NameTable, RULE_LIMIT, RelId, StepId};

/// What a rule of the workflow with a number may name.
#[derive(Clone, Copy)]
pub(crate) struct Scope<'p> {
    /// The relations of the policy.
    pub relations: &'p Relations,
    /// The steps of the workflow.
    pub steps: &'p NameTable,
    /// The number of the workflow.
    pub flow: u32,
    ghost few: { length steps.now.names ≤ STEP_LIMIT },
}

/// The relation that is named in a table.
#[tactic(auto, unfolding(crate::specs::Rules::relation_at, crate::specs::Parts::number_in))]
fn relation_at(table: &Table, scope: &Scope) -> Result<RelId, ReadFault>
    ensures read { Gives fault_of (λ rho. rho) result
        (spec.relation_at scope.now.flow scope.now.relations.now (table_view table.now)) }
    ensures within { IfOk result (λ rho. rho < length scope.now.relations.now + 2) }
{
    let value = value_at(table, "relation", PolicyPart::Flows, scope.flow)?;
    let text = text_of(value, PolicyPart::Flows, scope.flow)?;
    let Some(name) = Name::read(text) else {
        return Err(refuse(PolicyKind::Unknown, PolicyPart::Flows, scope.flow));
    };
    match scope.relations.find(&name) {
        Some(rho) => Ok(rho),
        None => Err(refuse_text(PolicyKind::Unknown, PolicyPart::Flows, scope.flow, text)),
    }
}

/// The step that is named at a key.
#[tactic(auto, unfolding(crate::specs::Rules::step_at, crate::specs::Rules::step_in))]
fn step_at(table: &Table, key: &str, scope: &Scope) -> Result<StepId, ReadFault>
    ensures read { Gives fault_of (λ s. s) result
        (spec.step_at scope.now.flow scope.now.steps.now.names key.now (table_view table.now)) }
    ensures within { IfOk result (λ s. s < length scope.now.steps.now.names) }
{
    let value = value_at(table, key, PolicyPart::Flows, scope.flow)?;
    let number = named_of(scope.steps, value, PolicyPart::Flows, scope.flow)?;
    Ok(StepId(number as u8))
}

/// A group with the next step in it.
#[tactic(auto, unfolding(crate::specs::Rules::next_member, crate::specs::Parts::once))]
fn next_member(group: StepSet, value: &Value, scope: &Scope) -> Result<StepSet, ReadFault>
    requires within { HasStepsBelow (length scope.now.steps.now.names) group }
    ensures read { Gives fault_of (λ g. g) result
        (spec.next_member scope.now.flow scope.now.steps.now.names group (view value.now)) }
    ensures within { IfOk result (HasStepsBelow (length scope.now.steps.now.names)) }
    ensures some { IfOk result (λ g. IsTrue (any_from 0 g (λ _. true))) }
{
    let number = named_of(scope.steps, value, PolicyPart::Flows, scope.flow)?;
    let step = StepId(number as u8);
    if group.has(step) {
        return Err(twice(value, PolicyPart::Flows, scope.flow));
    }
    Ok(group.with(step))
}

/// The group in a table.
#[tactic(auto, unfolding(crate::specs::Rules::group_at, crate::specs::Rules::group_in))]
fn group_at(table: &Table, scope: &Scope) -> Result<StepSet, ReadFault>
    ensures read { Gives fault_of (λ g. g) result
        (spec.group_at scope.now.flow scope.now.steps.now.names (table_view table.now)) }
    ensures within { IfOk result (HasStepsBelow (length scope.now.steps.now.names)) }
    ensures some { IfOk result (λ g. IsTrue (any_from 0 g (λ _. true))) }
{
    let value = value_at(table, "group", PolicyPart::Flows, scope.flow)?;
    let items = array_of(value, PolicyPart::Flows, scope.flow)?;
    at_least_one(items.len(), PolicyPart::Flows, scope.flow)?;
    all_members(items, scope)
}

fn all_members(items: &[Value], scope: &Scope) -> Result<StepSet, ReadFault>
    requires some { 0 < length items.now }
    ensures read { Gives fault_of (λ g. g) result
        (each (spec.next_member scope.now.flow scope.now.steps.now.names) no_steps
        (part_items (items_view items.now))) }
    ensures within { IfOk result (HasStepsBelow (length scope.now.steps.now.names)) }
    ensures some { IfOk result (λ g. IsTrue (any_from 0 g (λ _. true))) }
{
    let mut group = StepSet::empty();
    'items: for value in items {
        match next_member(group, value, scope) {
            Ok(more) => group = more,
            Err(fault) => return Err(fault),
        }
    }
    Ok(group)
}

/// Whether a rule of a form has a relation and two further keys, and no others.
#[tactic(auto, unfolding(crate::specs::Rules::keys_in, crate::specs::Rules::key_in))]
fn check_keys(
    form: Form,
    first: &str,
    second: &str,
    table: &Table,
    flow: u32,
) -> Result<(), ReadFault>
    ensures { Gives fault_of (λ u. u) result
        (spec.keys_in form first.now second.now flow (table_view table.now)) }
{
    value_at(table, "relation", PolicyPart::Flows, flow)?;
    value_at(table, first, PolicyPart::Flows, flow)?;
    value_at(table, second, PolicyPart::Flows, flow)?;
    no_others(table, form.keys(), PolicyPart::Flows, flow)
}

/// The rule over two steps in a table.
#[tactic(auto, unfolding(crate::specs::Rules::pair_in))]
fn pair_of(table: &Table, scope: &Scope) -> Result<Rule, ReadFault>
    ensures read { Gives fault_of (λ r. r) result (spec.pair_in scope.now.flow
        scope.now.relations.now scope.now.steps.now.names (table_view table.now)) }
    ensures sound { IfOk result (IsSoundRule (length scope.now.steps.now.names)
        (length scope.now.relations.now)) }
{
    check_keys(Form::Pair, "first", "second", table, scope.flow)?;
    let rho = relation_at(table, scope)?;
    let first = step_at(table, "first", scope)?;
    match step_at(table, "second", scope) {
        Ok(second) => Ok(Rule::Pair { rho, first, second }),
        Err(fault) => Err(fault),
    }
}

/// What a rule over a group of steps has.
#[derive(Clone, Copy)]
struct Grouped {
    rho: RelId,
    group: StepSet,
    step: StepId,
}

/// The relation, the group of steps and the step in a table.
#[tactic(auto, unfolding(crate::specs::Rules::grouped_in))]
fn grouped_of(form: Form, table: &Table, scope: &Scope) -> Result<Grouped, ReadFault>
    ensures read { Gives fault_of (λ g. (g.rho, (g.group, g.step))) result (spec.grouped_in form
        scope.now.flow scope.now.relations.now scope.now.steps.now.names (table_view table.now)) }
    ensures relation { IfOk result (λ g. g.rho < length scope.now.relations.now + 2) }
    ensures step { IfOk result (λ g. g.step < length scope.now.steps.now.names) }
    ensures within { IfOk result (λ g. HasStepsBelow (length scope.now.steps.now.names) g.group) }
    ensures some { IfOk result (λ g. IsTrue (any_from 0 g.group (λ _. true))) }
{
    check_keys(form, "group", "step", table, scope.flow)?;
    let rho = relation_at(table, scope)?;
    let step = step_at(table, "step", scope)?;
    match group_at(table, scope) {
        Ok(group) => Ok(Grouped { rho, group, step }),
        Err(fault) => Err(fault),
    }
}

/// What a rule over the number of users of a group has.
#[derive(Clone, Copy)]
struct Counting {
    limit: u8,
    group: StepSet,
}

/// Whether a rule of a form has a group and a number of users, and no other keys.
#[tactic(auto, unfolding(crate::specs::Rules::counting_keys_in, crate::specs::Rules::key_in))]
fn check_counting_keys(form: Form, table: &Table, flow: u32) -> Result<(), ReadFault>
    ensures { Gives fault_of (λ u. u) result
        (spec.counting_keys_in form flow (table_view table.now)) }
{
    value_at(table, "group", PolicyPart::Flows, flow)?;
    value_at(table, "limit", PolicyPart::Flows, flow)?;
    no_others(table, form.keys(), PolicyPart::Flows, flow)
}

/// The number of users and the group of steps in a table.
#[tactic(auto, unfolding(crate::specs::Rules::counting_in))]
fn counting_of(form: Form, table: &Table, scope: &Scope) -> Result<Counting, ReadFault>
    ensures read { Gives fault_of (λ g. (g.limit, g.group)) result (spec.counting_in form
        scope.now.flow scope.now.steps.now.names (table_view table.now)) }
    ensures within { IfOk result (λ g. HasStepsBelow (length scope.now.steps.now.names) g.group) }
    ensures number { IfOk result (λ g. IsWithinGroup g.limit g.group) }
{
    check_counting_keys(form, table, scope.flow)?;
    let group = group_at(table, scope)?;
    match limit_at(table, group.count(), scope.flow) {
        Ok(limit) => Ok(Counting { limit, group }),
        Err(fault) => Err(fault),
    }
}

/// The number of users in a table, from 1 to another number.
#[tactic(auto, unfolding(crate::specs::Rules::limit_at, crate::specs::Rules::limit_in))]
fn limit_at(table: &Table, most: u8, flow: u32) -> Result<u8, ReadFault>
    ensures read { Gives fault_of (λ n. n) result
        (spec.limit_at flow most (table_view table.now)) }
    ensures within { IfOk result (λ n. (0 < n) × (n ≤ most)) }
{
    let value = value_at(table, "limit", PolicyPart::Flows, flow)?;
    let Some(number) = value.as_integer() else {
        return Err(refuse(PolicyKind::Shape, PolicyPart::Flows, flow));
    };
    match number_up_to(most, number) {
        Some(limit) => Ok(limit),
        None => Err(refuse(PolicyKind::Range, PolicyPart::Flows, flow)),
    }
}

// A number from 1 to another.
fn number_up_to(most: u8, number: i64) -> Option<u8>
    ensures is { result ≡ spec.number_up_to most number }
    ensures within { IfSome result (λ n. (0 < n) × (n ≤ most)) }
{
    if 1 <= number && number <= most as i64 {
        Some(number as u8)
    } else {
        None
    }
}

/// The rule of a form in a table.
#[tactic(auto, unfolding(crate::specs::Rules::rule_of_form))]
fn rule_of_form(form: Form, table: &Table, scope: &Scope) -> Result<Rule, ReadFault>
    ensures read { Gives fault_of (λ r. r) result (spec.rule_of_form form scope.now.flow
        scope.now.relations.now scope.now.steps.now.names (table_view table.now)) }
    ensures sound { IfOk result (IsSoundRule (length scope.now.steps.now.names)
        (length scope.now.relations.now)) }
{
    match form {
        Form::Pair => pair_of(table, scope),
        Form::SomeOf | Form::AllOf | Form::SomeTo | Form::AllTo => {
            match grouped_of(form, table, scope) {
                Ok(Grouped { rho, group, step }) => Ok(match form {
                    Form::SomeOf => Rule::SomeOf { rho, group, step },
                    Form::AllOf => Rule::AllOf { rho, group, step },
                    Form::SomeTo => Rule::SomeTo { rho, step, group },
                    _ => Rule::AllTo { rho, step, group },
                }),
                Err(fault) => Err(fault),
            }
        }
        Form::AtMost | Form::AtLeast => match counting_of(form, table, scope) {
            Ok(Counting { limit, group }) => Ok(match form {
                Form::AtMost => Rule::AtMost { limit, group },
                _ => Rule::AtLeast { limit, group },
            }),
            Err(fault) => Err(fault),
        },
    }
}

/// The form that a value names.
#[tactic(auto, unfolding(crate::specs::Rules::form_in))]
fn form_of(format: Format, value: &Value, flow: u32) -> Result<Form, ReadFault>
    ensures { Gives fault_of (λ f. f) result (spec.form_in format flow (view value.now)) }
{
    let Some(word) = value.as_str() else {
        return Err(refuse(PolicyKind::Form, PolicyPart::Flows, flow));
    };
    match Form::read(format, word) {
        Some(form) => Ok(form),
        None => Err(refuse(PolicyKind::Form, PolicyPart::Flows, flow)),
    }
}

/// Adds the rule that the next value gives.
#[tactic(auto, unfolding(crate::specs::Rules::next_rule, crate::specs::Rules::rule_in))]
fn next_rule(
    format: Format,
    rules: &mut Rules,
    value: &Value,
    scope: &Scope,
) -> Result<(), ReadFault>
    requires sound { AreSoundRules (length scope.now.steps.now.names)
        (length scope.now.relations.now) rules.old }
    ensures read { Gives fault_of (λ _. rules.new) result (spec.next_rule format scope.now.flow
        scope.now.relations.now scope.now.steps.now.names rules.old (view value.now)) }
    ensures sound { OnOk result (AreSoundRules (length scope.now.steps.now.names)
        (length scope.now.relations.now) rules.new) }
    ensures count { OnOk result (length rules.new ≡ length rules.old + 1) }
{
    let table = table_of(value, PolicyPart::Flows, scope.flow)?;
    let form = value_at(table, "form", PolicyPart::Flows, scope.flow)?;
    let form = form_of(format, form, scope.flow)?;
    match rule_of_form(form, table, scope) {
        Ok(rule) => push_rule(rules, rule),
        Err(fault) => Err(fault),
    }
}

fn push_rule(rules: &mut Rules, rule: Rule) -> Result<(), ReadFault>
    ensures ok { OnOk result (rules.new ≡ rules.old ++ rule ∷ []) }
    ensures memory { IfErr result (λ e. e ≡ NoMemory) }
{
    match rules.add(&rule) {
        Ok(()) => Ok(()),
        Err(_) => Err(ReadFault::NoMemory),
    }
}

fn all_rules(
    alloc: Global,
    format: Format,
    items: &[Value],
    scope: &Scope,
) -> Result<Rules, ReadFault>
    ensures read { Gives fault_of (λ r. r) result
        (each (spec.next_rule format scope.now.flow scope.now.relations.now
        scope.now.steps.now.names) [] (part_items (items_view items.now))) }
    ensures sound { IfOk result (AreSoundRules (length scope.now.steps.now.names)
        (length scope.now.relations.now)) }
    ensures count { IfOk result (λ r. length r ≤ length items.now) }
{
    let mut rules = Rules::new(alloc);
    'items: for value in items {
        if let Err(fault) = next_rule(format, &mut rules, value, scope) {
            return Err(fault);
        }
    }
    Ok(rules)
}

/// Reads the rules of a workflow's table.
#[tactic(auto, unfolding(crate::specs::Rules::rules_of, crate::specs::Rules::rules_in))]
pub(crate) fn read_rules(
    alloc: Global,
    format: Format,
    table: &Table,
    scope: &Scope,
) -> Result<Rules, ReadFault>
    ensures read { Gives fault_of (λ r. r) result (spec.rules_of format scope.now.flow
        scope.now.relations.now scope.now.steps.now.names (table_view table.now)) }
    ensures sound { IfOk result (AreSoundRules (length scope.now.steps.now.names)
        (length scope.now.relations.now)) }
    ensures few { IfOk result (λ r. length r ≤ RULE_LIMIT) }
{
    let Some(value) = find(table, "rules") else {
        return Ok(Rules::new(alloc));
    };
    let items = array_of(value, PolicyPart::Flows, scope.flow)?;
    at_most(RULE_LIMIT, items.len(), PolicyPart::Flows, scope.flow)?;
    all_rules(alloc, format, items, scope)
}
