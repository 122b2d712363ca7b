//! Where a case stands, as a table.

use crate::held::is_flow;
use crate::names::{push_roles, push_users, roles_of};
use crate::past::{Deed, push_which};
use case_record::Case;
use plain_words::{name_of, say, step_name, text_of};
use policy_book::{Course, Policy};
use std::alloc::AllocError;
use wf_names::{CaseId, NameTable, RoleId, StepId, StepState, UserId};
use wf_talk::Entry;

// A case with its number and its workflow, and the entries up to where it stands so.
#[derive(Clone, Copy)]
struct Table<'a> {
    course: Course<'a>,
    case: &'a Case,
    number: CaseId,
    entries: &'a [Entry],
}

/// Adds a line for each step of a case: its number, its name, and where it stands or who may do it.
pub fn push_case<'a>(
    out: &mut String,
    p: &'a Policy,
    case: &'a Case,
    number: CaseId,
    entries: &'a [Entry],
) -> Result<(), AllocError> {
    if !is_flow(p, case.flow()) {
        return Ok(());
    }
    let table = Table {
        course: Course {
            policy: p,
            number: case.flow(),
        },
        case,
        number,
        entries,
    };
    for s in 0..case.steps() {
        push_step_line(out, &table, StepId(s))?;
    }
    Ok(())
}

fn push_step_line(out: &mut String, table: &Table<'_>, s: StepId) -> Result<(), AllocError> {
    let width = widest(table.course.flow().steps());
    let name = step_name(&table.course, s);
    push_front(out, table.case.steps(), s, text_of(&name), width)?;
    push_state(out, table, s, text_of(&name))?;
    out.push_str("\n")
}

// Adds the number and the name of a step, as wide as the other lines of the table.
fn push_front(
    out: &mut String,
    count: u8,
    s: StepId,
    name: &str,
    width: usize,
) -> Result<(), AllocError> {
    let blanks = if s.0 < 10 && count > 10 { "   " } else { "  " };
    write!(out, "{blanks}{} {name:width$}  ", s.0)
}

// Adds where a step of this name stands.
fn push_state(
    out: &mut String,
    table: &Table<'_>,
    s: StepId,
    name: &str,
) -> Result<(), AllocError> {
    match table.case.state(s) {
        StepState::Free => push_free(out, &table.course, s),
        StepState::Held(user) => push_by(out, table, "held by ", user, Deed::Grant(name)),
        StepState::Finished(user) => push_by(out, table, "finished by ", user, Deed::Finish(name)),
    }
}

// Adds who has or had a step, and by which entry.
fn push_by(
    out: &mut String,
    table: &Table<'_>,
    front: &str,
    user: UserId,
    deed: Deed<'_>,
) -> Result<(), AllocError> {
    let user = name_of(table.course.policy.roster().users(), user.0);
    say(out, &[front, text_of(&user)])?;
    push_which(out, table.entries, table.number, deed)
}

// The length of the longest of the names.
fn widest(names: &NameTable) -> usize {
    let mut width = 0usize;
    for n in 0..names.len() {
        width = width.max(names.name(n).as_str().len());
    }
    width
}

// Adds who may do a free step.
fn push_free(out: &mut String, course: &Course, s: StepId) -> Result<(), AllocError> {
    let roles = roles_of(*out.allocator(), course, s)?;
    match roles.as_slice() {
        [] => out.push_str("free, permitted to no role"),
        some => push_permitted(out, course, s, some),
    }
}

// Adds that these roles are permitted for a free step, and who has one of them.
fn push_permitted(
    out: &mut String,
    course: &Course,
    s: StepId,
    roles: &[RoleId],
) -> Result<(), AllocError> {
    out.push_str("free, permitted to ")?;
    push_roles(out, course.policy, roles)?;
    out.push_str(": ")?;
    let users = course.authorised_users(s);
    if users.count() == 0 {
        return out.push_str("nobody");
    }
    push_users(out, course.policy, &users, "and")
}
