//! The groups of clauses of a workflow.
ghost use Rattle.std.specs.Prelude.{◌≡◌, ◌≤◌, ◌<◌, ◌+◌, ◌*◌, ◌++◌, [], ◌∷◌, length, map, true};
ghost use Rattle.std.specs.Prelude.{OnOk, IfOk};
ghost use Rattle.std.specs.List.{flat_map};
ghost use Rattle.wf_names.specs.declared.limits.TheConstants.{RULE_LIMIT, STEP_LIMIT};
ghost use Rattle.cnf_export.specs.Laws.Encodings.{blocks, count_groups, groups, members, numbers};
ghost use Rattle.cnf_export.specs.Laws.Encodings.{rule_groups, rules_blocks, step_blocks};
ghost use Rattle.cnf_export.specs.Laws.Encodings.{step_groups};
ghost use Rattle.cnf_export.specs.Terms.{pair_group_at};

use crate::counting::height;
use crate::group::Group;
use constraint_forms::{Rule, Rules, StepSet};
use std::alloc::{AllocError, Global};
use wf_names::{RULE_LIMIT, RelId, STEP_LIMIT, StepId};

/// The groups of a workflow with `steps` steps and these rules.
pub(crate) fn groups_of(alloc: Global, steps: u8, rules: &Rules) -> Result<Vec<Group>, AllocError>
    requires steps { steps ≤ STEP_LIMIT }
    requires rules { length rules.now ≤ RULE_LIMIT }
    ensures { IfOk result (λ made. made.items ≡ groups steps rules.now) }
{
    let mut made = Vec::new(alloc);
    add_steps(&mut made, steps)?;
    let mut block = steps as u16 + steps as u16;
    'rules: for k in 0..rules.len() {
        add_rule(&mut made, block, rules.get(k))?;
        block += blocks_of(rules.get(k));
    }
    Ok(made)
}

/// How many blocks of one variable for each user there are.
pub(crate) fn all_blocks(steps: u8, rules: &Rules) -> u16
    requires steps { steps ≤ STEP_LIMIT }
    requires rules { length rules.now ≤ RULE_LIMIT }
    ensures value { result ≡ step_blocks steps + rules_blocks rules.now }
{
    let mut block = steps as u16 + steps as u16;
    'rules: for k in 0..rules.len() {
        block += blocks_of(rules.get(k));
    }
    block
}

fn add_steps(made: &mut Vec<Group>, steps: u8) -> Result<(), AllocError>
    ensures { OnOk result (made.new.items
        ≡ made.old.items ++ flat_map step_groups (numbers 0 steps)) }
{
    'steps: for s in 0..steps {
        add_step(made, StepId(s))?;
    }
    Ok(())
}

fn add_step(made: &mut Vec<Group>, s: StepId) -> Result<(), AllocError>
    ensures { OnOk result (made.new.items ≡ made.old.items ++ step_groups s) }
{
    made.push(Group::Outside(s))?;
    made.push(Group::Someone(s))?;
    made.push(Group::Once(s))?;
    Ok(())
}

fn add_rule(made: &mut Vec<Group>, block: u16, rule: &Rule) -> Result<(), AllocError>
    ensures { OnOk result (made.new.items ≡ made.old.items ++ rule_groups block rule.now) }
{
    match *rule {
        Rule::Pair { rho, first, second } => add_group(made, Group::Pair { rho, first, second }),
        Rule::SomeOf { rho, group, step } => {
            add_group(
                made,
                Group::SomeOf {
                    rho,
                    back: false,
                    group,
                    step,
                },
            )
        }
        Rule::AllOf { rho, group, step } => add_pairs(made, false, rho, &group, step),
        Rule::SomeTo { rho, step, group } => {
            add_group(
                made,
                Group::SomeOf {
                    rho,
                    back: true,
                    group,
                    step,
                },
            )
        }
        Rule::AllTo { rho, step, group } => add_pairs(made, true, rho, &group, step),
        Rule::AtMost { limit, group } => add_count(made, block, true, limit, group),
        Rule::AtLeast { limit, group } => add_count(made, block, false, limit, group),
    }
}

fn add_group(made: &mut Vec<Group>, g: Group) -> Result<(), AllocError>
    ensures { OnOk result (made.new.items ≡ made.old.items ++ g ∷ []) }
{
    made.push(g)?;
    Ok(())
}

// Each member with the step, or the other way round.
fn add_pairs(
    made: &mut Vec<Group>,
    back: bool,
    rho: RelId,
    group: &StepSet,
    step: StepId,
) -> Result<(), AllocError>
    ensures { OnOk result (made.new.items
        ≡ made.old.items ++ map (pair_group_at back rho step) (members group.now)) }
{
    let limit = group.limit();
    'members: for x in 0..limit {
        if group.has(StepId(x as u8)) {
            add_group(made, pair_of(back, rho, StepId(x as u8), step))?;
        }
    }
    Ok(())
}

fn pair_of(back: bool, rho: RelId, x: StepId, step: StepId) -> Group
    ensures { result ≡ pair_group_at back rho step x }
{
    if back {
        Group::Pair {
            rho,
            first: step,
            second: x,
        }
    } else {
        Group::Pair {
            rho,
            first: x,
            second: step,
        }
    }
}

fn add_count(
    made: &mut Vec<Group>,
    block: u16,
    most: bool,
    limit: u8,
    group: StepSet,
) -> Result<(), AllocError>
    ensures { OnOk result (made.new.items ≡ made.old.items ++ count_groups block most limit group) }
{
    made.push(Group::Taking { block, group })?;
    made.push(Group::Counting { block, most, limit })?;
    made.push(Group::Ending { block, most, limit })?;
    Ok(())
}

// How many blocks a rule has of its own.
fn blocks_of(rule: &Rule) -> u16
    ensures value { result ≡ blocks rule.now }
    ensures few { result ≤ 257 }
{
    match *rule {
        Rule::Pair { .. } => 0,
        Rule::SomeOf { .. } => 0,
        Rule::AllOf { .. } => 0,
        Rule::SomeTo { .. } => 0,
        Rule::AllTo { .. } => 0,
        Rule::AtMost { limit, .. } => 1 + height(true, limit),
        Rule::AtLeast { limit, .. } => 1 + height(false, limit),
    }
}
