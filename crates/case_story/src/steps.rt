//! What is said of a step.

use crate::html::{Html, Part};
use crate::layout::led_from;
use crate::shown::Shown;
use plain_words::{group_text, name_of, push_gap, text_of};
use std::alloc::AllocError;
use wf_names::{Name, RoleId, StepId, StepState};

/// How a step of a case stands, in words and with the name behind them: who has it, and of a free
/// one what it waits for.
pub(crate) fn state_of(shown: &Shown<'_>, s: StepId) -> (&'static str, Option<Name>) {
    let users = shown.course.policy.roster().users();
    match shown.case.state(s) {
        StepState::Held(u) => ("held by ", name_of(users, u.0)),
        StepState::Finished(u) => ("finished by ", name_of(users, u.0)),
        StepState::Free if !shown.case.phase().is_live() => ("free", None),
        StepState::Free => match awaited(shown, s) {
            None => ("free, can be claimed", None),
            Some(t) => ("free, waits for ", shown.step(t)),
        },
    }
}

// The least step that comes before a step and is not finished.
fn awaited(shown: &Shown<'_>, s: StepId) -> Option<StepId> {
    let flow = shown.course.flow();
    for t in 0..shown.case.steps() {
        if flow.before(StepId(t), s) && !shown.case.state(StepId(t)).is_finished() {
            return Some(StepId(t));
        }
    }
    None
}

/// What a step is drawn as: a kind of box for each of finished, held, free and waiting.
pub(crate) fn class_of(shown: &Shown<'_>, s: StepId) -> &'static str {
    match shown.case.state(s) {
        StepState::Finished(_) => "done",
        StepState::Held(_) => "held",
        StepState::Free if awaited(shown, s).is_some() => "wait",
        StepState::Free => "free",
    }
}

/// Adds the names of the roles to which a step is permitted, as much of them as fits in this many
/// letters.
pub(crate) fn put_roles(
    out: &mut Html,
    shown: &Shown<'_>,
    s: StepId,
    letters: usize,
) -> Result<(), AllocError> {
    let mut roles = String::new(out.allocator());
    push_roles(&mut roles, shown, s)?;
    let (begun, dots) = beginning(roles.as_str(), letters);
    out.put(&[Part::Value(begun), Part::Mark(dots)])
}

// As much of a text as fits, and dots where that is not all.
fn beginning(text: &str, letters: usize) -> (&str, &'static str) {
    match text.get(..letters) {
        Some(shown) if letters < text.len() => (shown, ".."),
        _ => (text, ""),
    }
}

fn push_roles(text: &mut String, shown: &Shown<'_>, s: StepId) -> Result<(), AllocError> {
    let count = count_roles(shown, s);
    if count == 0 {
        return text.push_str("no role");
    }
    let mut place = 0u32;
    let flow = shown.course.flow();
    let roles = shown.course.policy.roster().roles();
    for r in 0..roles.len().min(256) {
        if flow.permits(RoleId(r as u8), s) {
            push_gap(text, place, count, "and")?;
            text.push_str(text_of(&name_of(roles, r)))?;
            place = place.saturating_add(1);
        }
    }
    Ok(())
}

fn count_roles(shown: &Shown<'_>, s: StepId) -> u32 {
    let mut count = 0u32;
    let flow = shown.course.flow();
    for r in 0..shown.course.policy.roster().roles().len().min(256) {
        if flow.permits(RoleId(r as u8), s) {
            count = count.saturating_add(1);
        }
    }
    count
}

// Adds the names of the steps from which an arrow leads to a step.
fn put_before(out: &mut Html, shown: &Shown<'_>, s: StepId) -> Result<(), AllocError> {
    let steps = led_from(shown.course.flow(), s);
    if steps.count() == 0 {
        return out.put(&[Part::Mark("none")]);
    }
    let names = group_text(out.allocator(), &shown.course, &steps, "and")?;
    out.put(&[Part::Value(names.as_str())])
}

/// Adds the table of the steps.
pub(crate) fn put_steps(out: &mut Html, shown: &Shown<'_>) -> Result<(), AllocError> {
    out.put(&[Part::Mark(
        "<div class=\"wide\"><table><thead><tr><th scope=\"col\">Step</th><th scope=\"col\">Comes \
         after</th><th scope=\"col\">Permitted to</th><th scope=\"col\">State</th></tr></thead>\
         <tbody>\n",
    )])?;
    for s in 0..shown.case.steps() {
        put_step(out, shown, StepId(s))?;
    }
    out.put(&[Part::Mark("</tbody></table></div>\n")])
}

fn put_step(out: &mut Html, shown: &Shown<'_>, s: StepId) -> Result<(), AllocError> {
    let step = shown.step(s);
    out.put(&[
        Part::Mark("<tr><th scope=\"row\">"),
        Part::Number(s.0 as u32),
        Part::Mark(" "),
        Part::Value(text_of(&step)),
        Part::Mark("</th><td>"),
    ])?;
    put_before(out, shown, s)?;
    out.put(&[Part::Mark("</td><td>")])?;
    put_roles(out, shown, s, usize::MAX)?;
    let (state, name) = state_of(shown, s);
    out.put(&[
        Part::Mark("</td><td>"),
        Part::Mark(state),
        Part::Value(text_of(&name)),
        Part::Mark("</td></tr>\n"),
    ])
}
