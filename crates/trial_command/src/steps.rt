//! The workflow of a trial, and its rules.
ghost use Rattle.std.specs.Prelude.{◌≡◌, ◌<◌, ◌+◌, ◌%◌, map, IfOk};
ghost use Rattle.wf_names.specs.declared.limits.TheConstants.{STEP_LIMIT};
ghost use Rattle.constraint_forms.specs.declared.rule.Rule.TheVariants.{Pair};
ghost use Rattle.std.specs.List.{range_with_len};
ghost use Rattle.trial_command.specs.Named.{step_name};
ghost use Rattle.trial_command.specs.Policy.{both, trial_flow, trial_rules};

use crate::named;
use crate::people::ROLES;
use crate::related::{APART, PEER};
use constraint_forms::{Rule, Rules, StepSet};
use std::alloc::{AllocError, Global};
use wf_names::{NameTable, RelId, RoleId, StepId};
use workflow_schema::{Flow, FlowFault};

/// How many steps the workflow has.
pub(crate) const STEPS: u8 = 12;

/// The steps, each before the next, with the roles that are permitted for them.
pub(crate) fn flow_of(alloc: Global) -> Result<Flow, AllocError>
    ensures { IfOk result (λ f. f ≡ trial_flow) }
{
    let steps = step_table(alloc)?;
    let order = order(alloc)?;
    let permits = permits(alloc)?;
    build(alloc, steps, &order, &permits)
}

// The workflow of these steps.
#[tactic(auto, using(crate::proofs::FlowFacts::once_each))]
fn build(
    alloc: Global,
    steps: NameTable,
    order: &[(StepId, StepId)],
    permits: &[(RoleId, StepId)],
) -> Result<Flow, AllocError>
    requires steps { steps.names ≡ map step_name (range_with_len 0 12) }
    requires order { order.now ≡ map (λ k. (k, k + 1)) (range_with_len 0 11) }
    requires permits { permits.now ≡ map (λ k. (k % 5, k)) (range_with_len 0 12) }
    ensures { IfOk result (λ f. f ≡ trial_flow) }
{
    match Flow::build(alloc, steps, order, permits) {
        Ok(flow) => Ok(flow),
        Err(FlowFault::NoMemory) => Err(AllocError),
        Err(FlowFault::TooMany) => unreachable!(),
        Err(FlowFault::Twice) => unreachable!(),
        Err(FlowFault::Cycle(_)) => unreachable!(),
    }
}

// The names of the steps.
#[tactic(auto, using(crate::proofs::NameForms::step_names))]
fn step_table(alloc: Global) -> Result<NameTable, AllocError>
    ensures { IfOk result (λ t. t.names ≡ map step_name (range_with_len 0 12)) }
{
    let mut steps = NameTable::new(alloc, STEPS as u16)?;
    'steps: for s in 0..STEPS {
        named::add_name(&mut steps, named::step_name(StepId(s)))?;
    }
    Ok(steps)
}

// Each step with the next.
fn order(alloc: Global) -> Result<Vec<(StepId, StepId)>, AllocError>
    ensures { IfOk result (λ v. v.items ≡ map (λ k. (k, k + 1)) (range_with_len 0 11)) }
{
    let mut order = Vec::new(alloc);
    'steps: for s in 0..STEPS - 1 {
        order.push((StepId(s), StepId(s + 1)))?;
    }
    Ok(order)
}

// The role that is permitted for each step.
fn permits(alloc: Global) -> Result<Vec<(RoleId, StepId)>, AllocError>
    ensures { IfOk result (λ v. v.items ≡ map (λ k. (k % 5, k)) (range_with_len 0 12)) }
{
    let mut permits = Vec::new(alloc);
    'steps: for s in 0..STEPS {
        permits.push((RoleId(s % ROLES), StepId(s)))?;
    }
    Ok(permits)
}

/// The rules.
#[tactic(auto, using(crate::proofs::FlowFacts::more), unfolding(crate::specs::Policy::trial_rules))]
pub(crate) fn rules_of(alloc: Global) -> Result<Rules, AllocError>
    ensures { IfOk result (λ r. r ≡ trial_rules) }
{
    let mut rules = Rules::new(alloc);
    'steps: for s in 0..STEPS - 1 {
        rules.add(&pair(RelId::OTHER, s, s + 1))?;
    }
    rules.add(&Rule::AllOf {
        rho: APART,
        group: both(0, 1),
        step: StepId(4),
    })?;
    rules.add(&Rule::SomeOf {
        rho: PEER,
        group: both(2, 3),
        step: StepId(6),
    })?;
    rules.add(&pair(RelId::OTHER, 0, 11))?;
    rules.add(&pair(PEER, 5, 8))?;
    Ok(rules)
}

fn pair(rho: RelId, first: u8, second: u8) -> Rule
    ensures { result ≡ Pair rho first second }
{
    Rule::Pair {
        rho,
        first: StepId(first),
        second: StepId(second),
    }
}

fn both(first: u8, second: u8) -> StepSet
    requires first { first < STEP_LIMIT }
    requires second { second < STEP_LIMIT }
    ensures { result ≡ both first second }
{
    StepSet::empty().with(StepId(first)).with(StepId(second))
}
