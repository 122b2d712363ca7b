//! The rule that a fault of a workflow is in, for which the reader is asked again with fewer rules:
//! it reads the rules in order, so the fault goes with the rule that has it.

use policy_reader::{PolicyFault, PolicyPart, ReadFault, read};
use std::alloc::{AllocError, Global};
use toml::ser::Error;
use toml::{Table, Value};
use wf_names::RULE_LIMIT;

/// The number of the rule that has this fault of a workflow, counted from 1; 0 where no rule has
/// it.
pub(crate) fn faulty_rule(
    alloc: Global,
    text: &str,
    flow: &str,
    fault: &PolicyFault,
) -> Result<usize, AllocError> {
    if flow.is_empty() || !matches!(fault.table, PolicyPart::Flows) {
        return Ok(0);
    }
    match toml::table_from_str(alloc, text) {
        Ok(mut table) => last_rule(alloc, &mut table, flow, fault),
        Err(_) => Ok(0),
    }
}

// Takes out rules from the last one on, until the fault is gone; of a list that is far too long
// none is told.
fn last_rule(
    alloc: Global,
    table: &mut Table,
    flow: &str,
    fault: &PolicyFault,
) -> Result<usize, AllocError> {
    for _ in 0..=RULE_LIMIT {
        let left = match pop_rule(table, flow) {
            Some(left) => left,
            None => return Ok(0),
        };
        if !is_still(alloc, table, fault)? {
            return Ok(left.saturating_add(1));
        }
    }
    Ok(0)
}

// Takes out the last rule of a workflow; how many are left.
fn pop_rule(table: &mut Table, flow: &str) -> Option<usize> {
    pop_in(table.get_mut("flows")?.get_mut(flow)?)
}

fn pop_in(flow: &mut Value) -> Option<usize> {
    match flow.get_mut("rules") {
        Some(Value::Array(rules)) => {
            let left = rules.len().checked_sub(1)?;
            rules.truncate(left);
            Some(left)
        }
        _ => None,
    }
}

// Whether a policy file has this fault.
fn is_still(alloc: Global, table: &Table, fault: &PolicyFault) -> Result<bool, AllocError> {
    match toml::table_to_string(alloc, table) {
        Ok(text) => is_faulty(alloc, text.as_str(), fault),
        Err(Error::OutOfMemory) => Err(AllocError),
        Err(Error::DateInvalid) => Ok(true),
    }
}

fn is_faulty(alloc: Global, text: &str, fault: &PolicyFault) -> Result<bool, AllocError> {
    match read(alloc, text.as_bytes()).err() {
        None => Ok(false),
        Some(ReadFault::Policy(now)) => Ok(is_same(&now, fault)),
        Some(ReadFault::NoMemory) => Err(AllocError),
    }
}

fn is_same(one: &PolicyFault, other: &PolicyFault) -> bool {
    one.kind.word() == other.kind.word()
        && one.table.word() == other.table.word()
        && one.index == other.index
        && one.name == other.name
}
