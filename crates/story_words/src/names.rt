//! Names and numbers, and lists of them, added to a text.

use crate::held::is_flow;
use plain_words::{push_gap, say};
use policy_book::{Course, Policy};
use std::alloc::{AllocError, Global};
use wf_names::{FlowId, NameTable, RoleId, StepId, UserId, UserSet};
use wf_talk::RoleList;

/// Of a list of more than this only some are told.
pub(crate) const MOST_NAMED: u32 = 12;

/// How many are told of more.
pub(crate) const NAMED: u32 = 10;

/// Adds a number.
pub(crate) fn push_number(out: &mut String, n: u64) -> Result<(), AllocError> {
    write!(out, "{n}")
}

/// Adds the name with a number, where there is one.
pub(crate) fn push_name(out: &mut String, names: &NameTable, n: u16) -> Result<(), AllocError> {
    if n < names.len() {
        out.push_str(names.name(n).as_str())?;
    }
    Ok(())
}

/// Adds the name of a user.
pub(crate) fn push_user(out: &mut String, p: &Policy, u: UserId) -> Result<(), AllocError> {
    push_name(out, p.roster().users(), u.0)
}

/// Adds the name of a step, where the policy has the workflow.
pub(crate) fn push_step(
    out: &mut String,
    p: &Policy,
    f: FlowId,
    s: StepId,
) -> Result<(), AllocError> {
    if is_flow(p, f) {
        push_name(out, p.flow(f).steps(), s.0 as u16)?;
    }
    Ok(())
}

/// Adds the names of all steps of a workflow.
pub(crate) fn push_steps(out: &mut String, steps: &NameTable) -> Result<(), AllocError> {
    for s in 0..steps.len() {
        push_gap(out, s as u32, steps.len() as u32, "and")?;
        push_name(out, steps, s)?;
    }
    Ok(())
}

/// Adds the names of a set's users, this word before the last one; of many the first ones, and how
/// many others there are.
pub(crate) fn push_users(
    out: &mut String,
    p: &Policy,
    users: &UserSet,
    last: &str,
) -> Result<(), AllocError> {
    let count = users.count();
    let shown = shown_of(count);
    let mut from = 0u32;
    for place in 0..shown {
        if let Some(u) = users.next(from) {
            push_gap(out, place, count, last)?;
            push_user(out, p, u)?;
            from = u.0 as u32 + 1;
        }
    }
    push_others(out, shown, count, last)
}

/// How many of `count` are told.
pub(crate) fn shown_of(count: u32) -> u32 {
    if count > MOST_NAMED { NAMED } else { count }
}

/// Adds how many others there are, where not all of `count` are shown.
pub(crate) fn push_others(
    out: &mut String,
    shown: u32,
    count: u32,
    last: &str,
) -> Result<(), AllocError> {
    if count <= shown {
        return Ok(());
    }
    write!(out, " {last} {} others", count - shown)
}

/// The roles that a step is permitted to.
pub(crate) fn roles_of(alloc: Global, course: &Course, s: StepId) -> Result<RoleList, AllocError> {
    let mut roles = RoleList::new(alloc);
    for r in 0..course.policy.roster().roles().len().min(256) {
        if course.flow().permits(RoleId(r as u8), s) {
            roles.push(RoleId(r as u8))?;
        }
    }
    Ok(roles)
}

/// Adds the names of the roles.
pub(crate) fn push_roles(out: &mut String, p: &Policy, roles: &[RoleId]) -> Result<(), AllocError> {
    let count = roles.len().min(256) as u32;
    let mut place = 0u32;
    for r in roles {
        push_gap(out, place, count, "and")?;
        push_name(out, p.roster().roles(), r.0 as u16)?;
        place = place.saturating_add(1);
    }
    Ok(())
}

/// Adds a word for rules, and their numbers.
pub(crate) fn push_rules(out: &mut String, word: &str, rules: &[u8]) -> Result<(), AllocError> {
    let count = rules.len().min(256) as u32;
    let mut place = 0u32;
    say(out, &[word, if count == 1 { " " } else { "s " }])?;
    for k in rules {
        push_gap(out, place, count, "and")?;
        push_number(out, *k as u64)?;
        place = place.saturating_add(1);
    }
    Ok(())
}
