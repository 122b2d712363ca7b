//! What the search finds, beside one that tries all assignments.

use crate::fixture::{FLOW, Look, is_right_in_trio};
use certificate_check::{check_tree, is_valid_plan};
use constraint_forms::{Assign, Plan, StepSet};
use plain_words::say;
use policy_book::Policy;
use std::alloc::{AllocError, Global};
use std::test::Fail;
use wf_names::UserId;
use wsp_solver::{Outcome, solve};

const OTHER_AB: &str = r#"{ form = "pair", relation = "other", first = "a", second = "b" }"#;

const OTHER_BC: &str = r#"{ form = "pair", relation = "other", first = "b", second = "c" }"#;

const OTHER_AC: &str = r#"{ form = "pair", relation = "other", first = "a", second = "c" }"#;

const SAME_AC: &str = r#"{ form = "pair", relation = "same", first = "a", second = "c" }"#;

const SAME_BC: &str = r#"{ form = "pair", relation = "same", first = "b", second = "c" }"#;

const ANY: &str = r#"{ form = "some", relation = "mentor", group = ["a", "b"], step = "c" }"#;

const ANY_TO: &str = r#"{ form = "some_to", relation = "mentor", group = ["a", "b"], step = "c" }"#;

const ALL: &str = r#"{ form = "all", relation = "mentor", group = ["a", "b"], step = "c" }"#;

const ALL_TO: &str = r#"{ form = "all_to", relation = "mentor", group = ["a", "b"], step = "c" }"#;

const A_OF_B: &str = r#"{ form = "all", relation = "mentor", group = ["a"], step = "b" }"#;

const TWO_OR_MORE: &str = r#"{ form = "at_least", limit = 2, group = ["a", "b", "c"] }"#;

const THREE: &str = r#"{ form = "at_least", limit = 3, group = ["a", "b", "c"] }"#;

const TWO_OR_ONE: &str = r#"{ form = "at_most", limit = 2, group = ["a", "b", "c"] }"#;

const ONE: &str = r#"{ form = "at_most", limit = 1, group = ["a", "b", "c"] }"#;

/// One user for the first and the third step by one rule, and two by the other.
pub(crate) const SAME_AND_OTHER: [&str; 2] = [SAME_AC, OTHER_AC];

// Rules, and whether there is a valid plan.
const ROWS: &[(&[&str], bool)] = &[
    (&[OTHER_AB, OTHER_BC, OTHER_AC], true),
    (&SAME_AND_OTHER, false),
    (&[ANY], true),
    (&[ANY, SAME_AC, SAME_BC], false),
    (&[ALL], true),
    (&[ALL, OTHER_AB], false),
    (&[ANY_TO], true),
    (&[ANY_TO, ANY], false),
    (&[ALL_TO], true),
    (&[ALL_TO, OTHER_AB], false),
    (&[TWO_OR_MORE, TWO_OR_ONE], true),
    (&[THREE, SAME_AC], false),
    (&[ONE, A_OF_B], false),
];

/// Whether the search finds a plan exactly where one of all assignments is valid.
pub fn search_agrees_with_all_assignments(alloc: Global) -> Result<bool, Fail> {
    for (rules, solvable) in ROWS {
        if !is_right_with(alloc, rules, Look::Search(*solvable))? {
            return Ok(false);
        }
    }
    Ok(true)
}

/// Whether all is right in the trio with these rules.
pub(crate) fn is_right_with(alloc: Global, rules: &[&str], look: Look) -> Result<bool, Fail> {
    let mut all = String::new(alloc);
    match push_rules(&mut all, rules) {
        Ok(()) => is_right_in_trio(alloc, all.as_str(), look),
        Err(e) => Err(e.into()),
    }
}

fn push_rules(out: &mut String, rules: &[&str]) -> Result<(), AllocError> {
    for rule in rules {
        say(out, &[rule, ",\n"])?;
    }
    Ok(())
}

pub(crate) fn agrees(alloc: Global, p: &Policy, solvable: bool) -> Result<bool, Fail> {
    Ok(some_valid(p) == solvable && solved_rightly(alloc, p)? == Some(solvable))
}

// Whether some assignment of the four users to the three steps is valid.
fn some_valid(p: &Policy) -> bool {
    for number in 0..64 {
        if is_valid(p, number) {
            return true;
        }
    }
    false
}

// Whether the assignment with a number below 64 is valid.
fn is_valid(p: &Policy, number: u16) -> bool {
    if p.flows().len() == 0 {
        return false;
    }
    let plan = Plan::of(&[
        UserId(number / 16),
        UserId(number / 4 % 4),
        UserId(number % 4),
    ]);
    is_valid_plan(p, FLOW, &Assign::empty(), &StepSet::empty(), &plan)
}

// Whether the search gives a plan; nothing where its answer is not accepted.
fn solved_rightly(alloc: Global, p: &Policy) -> Result<Option<bool>, AllocError> {
    if p.flows().len() == 0 {
        return Ok(None);
    }
    let (a, done) = (Assign::empty(), StepSet::empty());
    match solve(alloc, p, FLOW, &a, &done) {
        Ok(outcome) => Ok(accepted(p, &outcome)),
        Err(e) => Err(e),
    }
}

// Whether an outcome is a plan; nothing where it is not accepted.
fn accepted(p: &Policy, outcome: &Outcome) -> Option<bool> {
    if p.flows().len() == 0 {
        return None;
    }
    let (a, done) = (Assign::empty(), StepSet::empty());
    let (accepted, solvable) = match outcome {
        Outcome::Plan(plan) => (is_valid_plan(p, FLOW, &a, &done, plan), true),
        Outcome::Refuted(tree) => (check_tree(p, FLOW, &a, &done, tree), false),
    };
    if accepted { Some(solvable) } else { None }
}
