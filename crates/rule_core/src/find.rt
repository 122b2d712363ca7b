//! The search for steps that want different users, of whom there are too few.
ghost use Rattle.std.specs.Prelude.{◌≡◌, ℕ, ◌<◌, ◌≤◌, true, length, IfOk, IfSome};
ghost use Rattle.wf_names.specs.declared.limits.TheConstants.{STEP_LIMIT};
ghost use Rattle.policy_book.specs.Course.{problem_in};
ghost use Rattle.policy_book.specs.Laws.Twins.{is_one_of};
ghost use Rattle.rule_core.specs.Crowds.{IsCrowd};

use crate::crowd::{StepList, are_parted, is_crowd};
use policy_book::{Assign, Course, Policy};
use std::alloc::{AllocError, Global};
use wf_names::{StepId, UserId, UserSet};

// Of each step the steps that are parted from it, as bits, and who has or may get it.
#[derive(Drop)]
struct Table {
    parted: Vec<u32>,
    takers: Vec<UserSet>,
}

/// Steps that are a crowd, where some are found.
pub(crate) fn find_crowd(
    alloc: Global,
    course: &Course,
    a: &Assign,
) -> Result<Option<StepList>, AllocError>
    ensures { IfOk result (λ found. IfSome found (IsCrowd (problem_in course.now) a.now)) }
{
    let table = table_of(alloc, course, a)?;
    let count = step_count(course);
    let scarce = scarce_steps(&table, count);
    'sets: for bits in 1..1u32 << count {
        if bits & scarce == bits && is_crowded(&table, count, bits) {
            let steps = steps_in(alloc, count, bits)?;
            if is_crowd(course, a, &steps) {
                return Ok(Some(steps));
            }
        }
    }
    Ok(None)
}

fn step_count(course: &Course) -> u8
    ensures count { result ≡ (problem_in course.now).steps }
    ensures few { result ≤ STEP_LIMIT }
{
    course.flow().steps().len() as u8
}

fn table_of(alloc: Global, course: &Course, a: &Assign) -> Result<Table, AllocError> {
    let mut table = Table {
        parted: Vec::new(alloc),
        takers: Vec::new(alloc),
    };
    'steps: for s in 0..step_count(course) {
        table.parted.push(parted_from(course, StepId(s)))?;
        table.takers.push(takers_of(course, a, StepId(s)))?;
    }
    Ok(table)
}

fn parted_from(course: &Course, s: StepId) -> u32 {
    let mut bits = 0u32;
    'steps: for t in 0..step_count(course) {
        if are_parted(course, s, StepId(t)) {
            bits |= 1 << t;
        }
    }
    bits
}

fn takers_of(course: &Course, a: &Assign, s: StepId) -> UserSet {
    match a.at(s) {
        Some(u) => just(course.policy, u),
        None => course.authorised_users(s),
    }
}

fn just(p: &Policy, u: UserId) -> UserSet {
    let mut users = UserSet::empty();
    if u.0 < p.roster().users().len() {
        users.insert(u);
    }
    users
}

// The steps that fewer users have or may get than there are steps: no other is of a crowd.
fn scarce_steps(table: &Table, count: u8) -> u32
    requires { count ≤ STEP_LIMIT }
{
    let mut bits = 0u32;
    'steps: for s in 0..count {
        match table.takers.get(s as usize) {
            Some(takers) if takers.count() < count as u32 => bits |= 1 << s,
            _ => {}
        }
    }
    bits
}

// Whether the steps whose bits are set are parted, and those who have or may get them are fewer.
fn is_crowded(table: &Table, count: u8, bits: u32) -> bool
    requires { count ≤ STEP_LIMIT }
{
    let mut users = UserSet::empty();
    'steps: for s in 0..count {
        if bits >> s & 1 == 0 {
            continue;
        }
        if !joins(table, s, bits, &mut users) || users.count() >= bits.count_ones() {
            return false;
        }
    }
    true
}

fn joins(table: &Table, s: u8, bits: u32, users: &mut UserSet) -> bool
    requires { s < STEP_LIMIT }
{
    let others = bits & !(1 << s);
    match (table.parted.get(s as usize), table.takers.get(s as usize)) {
        (Some(parted), Some(takers)) => {
            users.join(takers);
            parted & others == others
        }
        _ => false,
    }
}

fn steps_in(alloc: Global, count: u8, bits: u32) -> Result<StepList, AllocError>
    requires { count ≤ STEP_LIMIT }
    ensures { IfOk result (λ steps. (s : ℕ) → is_one_of steps s ≡ true → s < count) }
{
    let mut steps = StepList::new(alloc);
    'steps: for s in 0..count {
        if bits >> s & 1 == 1 {
            steps.push(StepId(s))?;
        }
    }
    Ok(steps)
}
