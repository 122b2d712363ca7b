//! Steps that want more different users than there are for them.

use crate::held::Held;
use crate::names::{push_rules, push_users};
use constraint_forms::Rule;
use plain_words::{say, steps_text};
use policy_book::Course;
use rule_core::{RuleList, is_strict};
use std::alloc::{AllocError, Global};
use wf_names::{StepId, USER_LIMIT, UserSet};

/// Adds that some steps want more different users than have or may get them, and by which rules.
pub(crate) fn push_crowd(
    out: &mut String,
    held: &Held<'_>,
    steps: &[StepId],
) -> Result<(), AllocError> {
    let all = steps_text(*out.allocator(), &held.course, steps)?;
    if steps.len() == 1 {
        return say(
            out,
            &["  In short: ", all.as_str(), " can be done by nobody.\n"],
        );
    }
    push_short_of(out, held, steps, all.as_str())
}

// Adds that some steps, of these names, want more different users than there are for them.
fn push_short_of(
    out: &mut String,
    held: &Held<'_>,
    steps: &[StepId],
    names: &str,
) -> Result<(), AllocError> {
    let (users, is_given) = takers(held, steps);
    push_wanted(out, names, steps.len(), users.count(), is_given)?;
    push_users(out, held.course.policy, &users, "and")?;
    push_parting(out, held, steps)
}

// Adds how many different users some steps want, and how few there are for them.
fn push_wanted(
    out: &mut String,
    steps: &str,
    wanted: usize,
    few: u32,
    is_given: bool,
) -> Result<(), AllocError> {
    let may = match (is_given, few) {
        (false, _) => "may do any of them",
        (true, 1) => "has or may do any of them",
        (true, _) => "have or may do any of them",
    };
    let people = "different people, and only";
    write!(
        out,
        "  In short: {steps} want {wanted} {people} {few} {may}: "
    )
}

// Adds by which rules some steps want different users, and ends the line.
fn push_parting(out: &mut String, held: &Held<'_>, steps: &[StepId]) -> Result<(), AllocError> {
    let rules = parting(*out.allocator(), held, steps)?;
    if rules.as_slice().is_empty() {
        return out.push_str(".\n");
    }
    out.push_str(" (")?;
    push_rules(out, "rule", rules.as_slice())?;
    out.push_str(").\n")
}

// The users who have or may do one of the steps, and whether somebody has one.
fn takers(held: &Held<'_>, steps: &[StepId]) -> (UserSet, bool) {
    let (mut users, mut is_given) = (UserSet::empty(), false);
    for s in steps {
        match held.users.at(*s) {
            Some(u) if u.0 < USER_LIMIT => {
                users.insert(u);
                is_given = true;
            }
            _ => users.join(&held.course.authorised_users(*s)),
        }
    }
    (users, is_given)
}

// The numbers of the rules that want different users for two of the steps.
fn parting(alloc: Global, held: &Held<'_>, steps: &[StepId]) -> Result<RuleList, AllocError> {
    let mut numbers = RuleList::new(alloc);
    let mut k = 0u8;
    for rule in held.course.rules().as_slice() {
        if parts(&held.course, rule, steps) {
            numbers.push(k)?;
        }
        k = k.saturating_add(1);
    }
    Ok(numbers)
}

// Whether a rule wants different users for two of the steps.
fn parts(course: &Course, rule: &Rule, steps: &[StepId]) -> bool {
    let (rho, step) = match *rule {
        Rule::Pair { rho, second, .. } => (rho, second),
        Rule::AllOf { rho, step, .. } | Rule::AllTo { rho, step, .. } => (rho, step),
        _ => return false,
    };
    let (mut named, mut has_step) = (0u32, false);
    for s in steps {
        if rule.names(*s) {
            named = named.saturating_add(1);
            has_step = has_step || *s == step;
        }
    }
    named > 1 && has_step && is_strict(course, rho)
}
