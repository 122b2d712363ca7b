//! How a case stands, and how it can be finished.

use crate::html::{Html, Part};
use crate::shown::Shown;
use case_record::Case;
use constraint_forms::{Plan, Rule};
use plain_words::{name_of, push_gap, rule_text, say, text_of};
use policy_book::Course;
use std::alloc::AllocError;
use wf_names::{Phase, StepId};

/// Adds the sentence on how a case stands.
pub(crate) fn put_standing(out: &mut Html, case: &Case) -> Result<(), AllocError> {
    let steps = case.steps() as u32;
    let (finished, held) = counts(case);
    let front = match case.phase() {
        Phase::Done => {
            return out.put(&[
                Part::Mark("<p class=\"lead\">It is done: all of its "),
                Part::Number(steps),
                Part::Mark(" steps are finished.</p>\n"),
            ]);
        }
        Phase::Withdrawn => "<p class=\"lead\">It was withdrawn. Finished steps: ",
        Phase::Live => "<p class=\"lead\">It is open. Finished steps: ",
    };
    out.put(&[
        Part::Mark(front),
        Part::Number(finished),
        Part::Mark(" of "),
        Part::Number(steps),
    ])?;
    if case.phase().is_live() {
        out.put(&[Part::Mark("; held: "), Part::Number(held)])?;
    }
    out.put(&[Part::Mark(".</p>\n")])
}

// How many steps are finished, and how many held.
fn counts(case: &Case) -> (u32, u32) {
    let (mut finished, mut held) = (0u32, 0u32);
    for state in case.states() {
        if state.is_finished() {
            finished = finished.saturating_add(1);
        }
        if state.is_held() {
            held = held.saturating_add(1);
        }
    }
    (finished, held)
}

/// Adds who does the steps that are not finished, by the plan that is kept for an open case.
pub(crate) fn put_plan(out: &mut Html, shown: &Shown<'_>, plan: &Plan) -> Result<(), AllocError> {
    let mut text = String::new(out.allocator());
    push_doers(&mut text, shown, plan)?;
    out.put(&[
        Part::Mark("<p>One way to finish it, which the server keeps: "),
        Part::Value(text.as_str()),
        Part::Mark(".</p>\n"),
    ])
}

fn push_doers(text: &mut String, shown: &Shown<'_>, plan: &Plan) -> Result<(), AllocError> {
    let (finished, _) = counts(shown.case);
    let left = (plan.len() as u32).saturating_sub(finished);
    let users = shown.course.policy.roster().users();
    let mut place = 0u32;
    for s in 0..plan.len() {
        if !shown.case.state(StepId(s)).is_finished() {
            let user = name_of(users, plan.at(StepId(s)).0);
            let step = shown.step(StepId(s));
            push_gap(text, place, left, "and")?;
            say(text, &[text_of(&user), " does ", text_of(&step)])?;
            place = place.saturating_add(1);
        }
    }
    Ok(())
}

/// Adds the rules of a workflow, which are numbered from 0.
pub(crate) fn put_rules(out: &mut Html, shown: &Shown<'_>) -> Result<(), AllocError> {
    out.put(&[Part::Mark("<h2>Rules</h2>\n<ol start=\"0\">\n")])?;
    for rule in shown.course.rules().as_slice() {
        put_rule(out, &shown.course, rule)?;
    }
    out.put(&[Part::Mark("</ol>\n")])
}

fn put_rule(out: &mut Html, course: &Course<'_>, rule: &Rule) -> Result<(), AllocError> {
    let words = rule_text(out.allocator(), course, rule)?;
    out.put(&[
        Part::Mark("<li>"),
        Part::Value(words.as_str()),
        Part::Mark("</li>\n"),
    ])
}
