//! Which assignments falsify rules, worked out by hand.

use crate::fixture::{FLOW, Look, is_right_in_trio};
use constraint_forms::{Assign, falsified};
use policy_book::Policy;
use std::alloc::Global;
use std::test::Fail;
use wf_names::{StepId, UserId};

// Rules over the steps a, b and c, by number.
const RULES: &str = r#"
  { form = "pair", relation = "other", first = "a", second = "b" },
  { form = "pair", relation = "same", first = "a", second = "b" },
  { form = "some", relation = "mentor", group = ["a", "b"], step = "c" },
  { form = "all", relation = "mentor", group = ["a", "b"], step = "c" },
  { form = "some_to", relation = "mentor", group = ["a", "b"], step = "c" },
  { form = "all_to", relation = "mentor", group = ["a", "b"], step = "c" },
  { form = "at_least", limit = 2, group = ["a", "b", "c"] },
  { form = "at_most", limit = 2, group = ["a", "b", "c"] },
  { form = "at_least", limit = 2, group = ["a", "c"] },
  { form = "at_most", limit = 1, group = ["a", "c"] },
"#;

// The numbers of two rules, an assignment, and whether it falsifies each of them. An assignment has
// a letter for each step, kim's, lee's or max's, or `-` where it gives the step to nobody.
type Row = (usize, usize, &'static str, bool, bool);

const ROWS: [Row; 38] = [
    // A pair, once both steps are assigned.
    (0, 1, "--", false, false),
    (0, 1, "k-", false, false),
    (0, 1, "-k", false, false),
    (0, 1, "kk", true, false),
    (0, 1, "kl", false, true),
    // Some, once all are assigned.
    (2, 3, "---", false, false),
    (2, 3, "--l", false, false),
    (2, 3, "k-l", false, false),
    (2, 3, "m-l", false, true),
    (2, 3, "mml", true, true),
    (2, 3, "kml", false, true),
    (2, 3, "kkl", false, false),
    (2, 3, "--k", false, false),
    (2, 3, "-lk", false, true),
    (2, 3, "klk", true, true),
    (2, 3, "kl-", false, false),
    // The same where the relation is read back.
    (4, 5, "---", false, false),
    (4, 5, "--k", false, false),
    (4, 5, "l-k", false, false),
    (4, 5, "m-k", false, true),
    (4, 5, "mmk", true, true),
    (4, 5, "lmk", false, true),
    (4, 5, "llk", false, false),
    (4, 5, "--l", false, false),
    (4, 5, "-kl", false, true),
    (4, 5, "lkl", true, true),
    (4, 5, "lk-", false, false),
    // Counts are of users, and free steps may get others.
    (6, 7, "---", false, false),
    (6, 7, "k--", false, false),
    (6, 7, "kk-", false, false),
    (6, 7, "kkk", true, false),
    (6, 7, "kl-", false, false),
    (6, 7, "klk", false, false),
    (6, 7, "klm", false, true),
    // Steps outside a group are not counted.
    (8, 9, "kl-", false, false),
    (8, 9, "klk", true, false),
    (8, 9, "kkl", false, true),
    (8, 9, "-kl", false, false),
];

/// Whether each assignment falsifies its rules, or not, as its row says.
pub fn rules_are_falsified_where_they_should(alloc: Global) -> Result<bool, Fail> {
    is_right_in_trio(alloc, RULES, Look::Rules)
}

pub(crate) fn are_falsified_so(p: &Policy) -> bool {
    for row in &ROWS {
        if !falsifies_so(p, row) {
            return false;
        }
    }
    true
}

fn falsifies_so(p: &Policy, row: &Row) -> bool {
    let (first, second, letters, by_first, by_second) = *row;
    if p.flows().len() == 0 {
        return false;
    }
    let rules = p.rules(FLOW).as_slice();
    let a = assigned(letters);
    match (rules.get(first), rules.get(second)) {
        (Some(one), Some(other)) => {
            falsified(one, p, &a) == by_first && falsified(other, p, &a) == by_second
        }
        _ => false,
    }
}

fn assigned(letters: &str) -> Assign {
    let mut given = Assign::empty();
    for step in 0..3u8 {
        given = match letters.as_bytes().get(step as usize) {
            Some(b'k') => given.with(StepId(step), UserId(0)),
            Some(b'l') => given.with(StepId(step), UserId(1)),
            Some(b'm') => given.with(StepId(step), UserId(2)),
            _ => given,
        };
    }
    given
}
