//! Why a workflow has a valid plan or none, in words.

use crate::lists::{
    counted, flow_name, name_of, push_gap, step_name, steps_text, text_of, users_text,
};
use crate::rules::rule_text;
use crate::texts::{joined, say};
use constraint_forms::{Plan, Rule};
use policy_book::{Course, Policy};
use std::alloc::{AllocError, Global};
use wf_names::{StepId, UserId, UserSet};

/// That a workflow has a plan: who does which step.
pub fn plan_text(alloc: Global, course: &Course, plan: &Plan) -> Result<String, AllocError> {
    let flow = flow_name(course);
    let all = doers_text(alloc, course, plan)?;
    joined(
        alloc,
        &[text_of(&flow), " has a plan: ", all.as_str(), ".\n"],
    )
}

// Who does which step.
fn doers_text(alloc: Global, course: &Course, plan: &Plan) -> Result<String, AllocError> {
    let mut text = String::new(alloc);
    let count = plan.len();
    for s in 0..count {
        push_gap(&mut text, s as u32, count as u32, "and")?;
        push_doer(&mut text, course, StepId(s), plan.at(StepId(s)))?;
    }
    Ok(text)
}

fn push_doer(text: &mut String, course: &Course, s: StepId, u: UserId) -> Result<(), AllocError> {
    let user = name_of(course.policy.roster().users(), u.0);
    let step = step_name(course, s);
    say(text, &[text_of(&user), " does ", text_of(&step)])
}

/// That a workflow has no plan, since some of its steps want more different users than may do them.
pub fn crowd_text(alloc: Global, course: &Course, steps: &[StepId]) -> Result<String, AllocError> {
    let all = steps_text(alloc, course, steps)?;
    crowd_words(alloc, course, steps, all.as_str())
}

fn crowd_words(
    alloc: Global,
    course: &Course,
    steps: &[StepId],
    all: &str,
) -> Result<String, AllocError> {
    let flow = flow_name(course);
    let (flow, wanted) = (text_of(&flow), steps.len());
    if wanted == 1 {
        return joined(alloc, &[flow, " has no plan: nobody may do ", all, ".\n"]);
    }
    let few = few_text(alloc, course.policy, &takers(course, steps))?;
    format!(in alloc; "{flow} has no plan: {all} want {wanted} different people, and {few}.\n")
}

// How few users may do one of the steps.
fn few_text(alloc: Global, p: &Policy, users: &UserSet) -> Result<String, AllocError> {
    let names = users_text(alloc, p, users)?;
    match users.count() {
        0 => joined(alloc, &["nobody may do any of them"]),
        1 => joined(alloc, &[names.as_str(), " alone may do any of them"]),
        few => format!(in alloc; "only {few} may do any of them: {names}"),
    }
}

// The users who may do one of the steps.
fn takers(course: &Course, steps: &[StepId]) -> UserSet {
    let mut users = UserSet::empty();
    for s in steps {
        users.join(&course.authorised_users(*s));
    }
    users
}

/// That a workflow has no plan, with the rules of these numbers, which cannot be met together.
pub fn clash_text(alloc: Global, course: &Course, rules: &[u8]) -> Result<String, AllocError> {
    let mut text = clash_head(alloc, course)?;
    push_together(&mut text, rules.len())?;
    push_rule_lines(&mut text, course, rules)?;
    Ok(text)
}

fn clash_head(alloc: Global, course: &Course) -> Result<String, AllocError> {
    let flow = flow_name(course);
    let steps = counted(alloc, course.flow().steps().len() as u64, "step")?;
    let rules = counted(alloc, course.rules().len() as u64, "rule")?;
    let no_plan = " has no plan: no choice of people for its ";
    let (steps, rules) = (steps.as_str(), rules.as_str());
    joined(
        alloc,
        &[text_of(&flow), no_plan, steps, " meets its ", rules, ".\n"],
    )
}

// What stands before the rules that cannot be met together.
fn push_together(text: &mut String, count: usize) -> Result<(), AllocError> {
    let end = "leave out any one of them, and the others can";
    match count {
        0 => Ok(()),
        1 => text.push_str("This rule alone cannot be met:\n"),
        _ => write!(text, "These {count} rules cannot be met together; {end}:\n"),
    }
}

/// Adds a line for each of the rules with these numbers: the number, and what the rule wants.
pub fn push_rule_lines(out: &mut String, course: &Course, rules: &[u8]) -> Result<(), AllocError> {
    for k in rules {
        if let Some(rule) = course.rules().as_slice().get(*k as usize) {
            push_rule_line(out, course, rule, *k)?;
        }
    }
    Ok(())
}

fn push_rule_line(out: &mut String, course: &Course, rule: &Rule, k: u8) -> Result<(), AllocError> {
    let words = rule_text(*out.allocator(), course, rule)?;
    write!(out, "  rule {k}: {words}\n")
}
