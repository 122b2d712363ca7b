//! What is left of a tree that is read and trimmed.

use crate::fixture::{FLOW, Look};
use crate::searches::{SAME_AND_OTHER, is_right_with};
use certificate_check::check_tree;
use constraint_forms::{Assign, StepSet};
use entry_reader::tree_of;
use policy_book::Policy;
use refutation_tree::Tree;
use serde_json::Value;
use std::alloc::{AllocError, Global};
use std::test::Fail;
use wire_json::tree_value;
use wsp_solver::trim;

// A tree that tries each user for the second step, which no rule names, then for the first, and
// then for the third: who has the first falsifies the second rule, and anybody else the first one.
const TREE: &str = r#"{"step":"b","users":[
  ["kim",{"step":"a","users":[
    ["kim",{"step":"c","users":[["kim",{"rule":1}],["lee",{"rule":0}],["max",{"rule":0}]]}],
    ["lee",{"step":"c","users":[["kim",{"rule":0}],["lee",{"rule":1}],["max",{"rule":0}]]}],
    ["max",{"step":"c","users":[["kim",{"rule":0}],["lee",{"rule":0}],["max",{"rule":1}]]}]]}],
  ["lee",{"step":"a","users":[
    ["kim",{"step":"c","users":[["kim",{"rule":1}],["lee",{"rule":0}],["max",{"rule":0}]]}],
    ["lee",{"step":"c","users":[["kim",{"rule":0}],["lee",{"rule":1}],["max",{"rule":0}]]}],
    ["max",{"step":"c","users":[["kim",{"rule":0}],["lee",{"rule":0}],["max",{"rule":1}]]}]]}],
  ["max",{"step":"a","users":[
    ["kim",{"step":"c","users":[["kim",{"rule":1}],["lee",{"rule":0}],["max",{"rule":0}]]}],
    ["lee",{"step":"c","users":[["kim",{"rule":0}],["lee",{"rule":1}],["max",{"rule":0}]]}],
    ["max",{"step":"c","users":[["kim",{"rule":0}],["lee",{"rule":0}],["max",{"rule":1}]]}]]}]]}"#;

// All three are twins for the first step. Once kim has it, lee and max are twins still.
const LEAN: &str = concat!(
    r#"{"step":"a","users":["#,
    r#"["kim",{"step":"c","users":["#,
    r#"["kim",{"rule":1}],["lee",{"rule":0}],["max",{"twin":"lee"}]]}],"#,
    r#"["lee",{"twin":"kim"}],["max",{"twin":"kim"}]]}"#
);

/// Whether trimming leaves of the tree what it should.
pub fn a_step_that_is_not_mentioned_goes_and_makes_twins(alloc: Global) -> Result<bool, Fail> {
    is_right_with(alloc, &SAME_AND_OTHER, Look::Tree)
}

pub(crate) fn is_trimmed(alloc: Global, p: &Policy) -> Result<bool, Fail> {
    match Value::from_str(alloc, TREE) {
        Ok(value) => Ok(is_trimmed_in(alloc, p, &value)?),
        Err(e) => Err(e.into()),
    }
}

// The same of the tree of a value.
fn is_trimmed_in(alloc: Global, p: &Policy, value: &Value) -> Result<bool, AllocError> {
    match tree_of(alloc, p, FLOW, value) {
        Ok(tree) => has_lean_text(alloc, p, tree),
        Err(_) => Ok(false),
    }
}

// Whether a tree refutes, and has the lean text once it is trimmed.
fn has_lean_text(alloc: Global, p: &Policy, tree: Tree) -> Result<bool, AllocError> {
    let (a, done) = (Assign::empty(), StepSet::empty());
    if p.flows().len() == 0 || !check_tree(p, FLOW, &a, &done, &tree) {
        return Ok(false);
    }
    match trim(alloc, p, FLOW, &a, &done, tree) {
        Ok(lean) => is_lean(alloc, p, &lean),
        Err(e) => Err(e),
    }
}

fn is_lean(alloc: Global, p: &Policy, tree: &Tree) -> Result<bool, AllocError> {
    match tree_value(alloc, p, FLOW, tree) {
        Ok(value) => is_lean_value(alloc, &value),
        Err(e) => Err(e),
    }
}

fn is_lean_value(alloc: Global, value: &Value) -> Result<bool, AllocError> {
    match value.to_string(alloc) {
        Ok(text) => Ok(text.as_str() == LEAN),
        Err(e) => Err(e),
    }
}
