//! Names, and lists of names, as texts.

use crate::texts::say;
use constraint_forms::StepSet;
use policy_book::{Course, Policy};
use std::alloc::{AllocError, Global};
use wf_names::{FlowId, Name, NameTable, StepId, UserId, UserSet};

/// Of more users than this only some are named.
const MOST_NAMED: u32 = 12;

/// How many are named of more.
const NAMED: u32 = 10;

/// The name with a number, if there is one.
pub fn name_of(names: &NameTable, n: u16) -> Option<Name> {
    if n < names.len() {
        Some(names.name(n))
    } else {
        None
    }
}

/// The name of a workflow, if it has one.
pub fn flow_name(course: &Course) -> Option<Name> {
    name_of(course.policy.flows(), course.number.0 as u16)
}

/// The name of a step of a workflow, if there is one.
pub fn step_name(course: &Course, s: StepId) -> Option<Name> {
    name_of(course.flow().steps(), s.0 as u16)
}

/// A name as text; the empty text where there is none.
pub fn text_of(name: &Option<Name>) -> &str {
    match name {
        Some(name) => name.as_str(),
        None => "",
    }
}

/// The name with a number; the empty text where there is none.
pub fn name_text(alloc: Global, names: &NameTable, n: u16) -> Result<String, AllocError> {
    String::from_str(alloc, text_of(&name_of(names, n)))
}

/// The name of a workflow.
pub fn flow_text(alloc: Global, p: &Policy, f: FlowId) -> Result<String, AllocError> {
    name_text(alloc, p.flows(), f.0 as u16)
}

/// The names of a set's steps, the last one behind this word.
pub fn group_text(
    alloc: Global,
    course: &Course,
    group: &StepSet,
    last: &str,
) -> Result<String, AllocError> {
    let mut text = String::new(alloc);
    let mut place = 0u32;
    let steps = course.flow().steps();
    for s in 0..steps.len().min(256) {
        if group.has(StepId(s as u8)) {
            push_item(&mut text, place, group.count() as u32, last, steps, s)?;
            place = place.saturating_add(1);
        }
    }
    Ok(text)
}

/// The names of the steps `some`.
pub fn steps_text(alloc: Global, course: &Course, some: &[StepId]) -> Result<String, AllocError> {
    let mut text = String::new(alloc);
    let mut place = 0u32;
    let count = some.len().min(256) as u32;
    let steps = course.flow().steps();
    for s in some {
        push_item(&mut text, place, count, "and", steps, s.0 as u16)?;
        place = place.saturating_add(1);
    }
    Ok(text)
}

/// The names of a set's users; of many the first ones, and how many others there are.
pub fn users_text(alloc: Global, p: &Policy, users: &UserSet) -> Result<String, AllocError> {
    let count = users.count();
    if count <= MOST_NAMED {
        return first_users(alloc, p.roster().users(), users, count);
    }
    let first = first_users(alloc, p.roster().users(), users, NAMED)?;
    format!(in alloc; "{first} and {} others", count - NAMED)
}

// The names of a number of a set's users.
fn first_users(
    alloc: Global,
    names: &NameTable,
    users: &UserSet,
    shown: u32,
) -> Result<String, AllocError> {
    let mut text = String::new(alloc);
    let mut place = 0u32;
    for u in 0..names.len() {
        if users.has(UserId(u)) && place < shown {
            push_item(&mut text, place, users.count(), "and", names, u)?;
            place = place.saturating_add(1);
        }
    }
    Ok(text)
}

/// A number of things, as `1 step` and `2 steps`.
pub fn counted(alloc: Global, count: u64, what: &str) -> Result<String, AllocError> {
    let end = if count == 1 { "" } else { "s" };
    format!(in alloc; "{count} {what}{end}")
}

// Adds a name of a list, behind what stands before it.
fn push_item(
    text: &mut String,
    place: u32,
    count: u32,
    last: &str,
    names: &NameTable,
    n: u16,
) -> Result<(), AllocError> {
    push_gap(text, place, count, last)?;
    text.push_str(text_of(&name_of(names, n)))
}

/// Adds what stands before the item at `place`, of `count` items.
pub fn push_gap(text: &mut String, place: u32, count: u32, last: &str) -> Result<(), AllocError> {
    if place == 0 {
        return Ok(());
    }
    if place.saturating_add(1) < count {
        return text.push_str(", ");
    }
    say(text, &[" ", last, " "])
}
