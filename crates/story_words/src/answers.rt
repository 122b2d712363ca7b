//! What was answered, in one line.

use crate::about::asker;
use crate::denials::push_denial;
use crate::names::{push_number, push_others, push_step, push_users, shown_of};
use crate::past::push_grantee;
use crate::refused::{Telling, push_refused};
use crate::told::Told;
use constraint_forms::Plan;
use plain_words::{push_gap, say};
use policy_book::Policy;
use std::alloc::AllocError;
use wf_names::{CaseId, Phase, StepId, USER_LIMIT, UserSet};
use wf_talk::{Ask, Bad, Denial, Entry, Reply, WorkItem};

/// Adds what was answered, in one line without its full stop; a tree only where one line is enough
/// for it.
pub fn push_answer(out: &mut String, told: &Told<'_>) -> Result<(), AllocError> {
    push_reply(out, &told.recent())?;
    push_refused(out, told, Telling::InLine)
}

/// The same without a tree, which `push_reasons` tells.
pub fn push_reply(out: &mut String, told: &Told<'_>) -> Result<(), AllocError> {
    let (p, ask) = (told.policy, &told.entry.ask);
    match &told.entry.reply {
        Reply::Granted(plan) => push_planned(out, "granted", p, plan),
        Reply::Finished { done: true } => out.push_str("finished, and with it the case"),
        Reply::Finished { done: false } => out.push_str("finished"),
        Reply::Returned => out.push_str("given back"),
        Reply::Released => push_released(out, told.entries, ask),
        Reply::Opened { case, plan } => push_opened(out, p, *case, plan),
        Reply::Withdrawn => out.push_str("the case is ended"),
        Reply::Edited { number } => push_edited(out, *number),
        Reply::Shown(face) => out.push_str(phase_words(face.phase)),
        Reply::Work(items) => push_work(out, p, asker(ask), items.as_slice()),
        Reply::WhatIf(stranded) => push_stranded(out, stranded.as_slice()),
        Reply::Denied(denial) => push_denied(out, told, denial),
        Reply::Again { rounds, at } => push_again(out, *rounds, *at),
        Reply::NoMemory => out.push_str("there was no memory; nothing changed"),
        Reply::Bad(bad) => push_bad(out, *bad),
    }
}

fn push_released(out: &mut String, entries: &[Entry], ask: &Ask) -> Result<(), AllocError> {
    out.push_str("taken from ")?;
    push_grantee(out, entries, ask)
}

fn push_opened(out: &mut String, p: &Policy, case: CaseId, plan: &Plan) -> Result<(), AllocError> {
    write!(out, "opened as case {}", case.0)?;
    push_planned(out, "", p, plan)
}

fn push_edited(out: &mut String, number: u32) -> Result<(), AllocError> {
    write!(out, "accepted, edit {number}")
}

fn push_denied(out: &mut String, told: &Told<'_>, denial: &Denial) -> Result<(), AllocError> {
    out.push_str("denied: ")?;
    push_denial(out, told, denial)
}

// Adds these words, and who is in a plan.
fn push_planned(out: &mut String, front: &str, p: &Policy, plan: &Plan) -> Result<(), AllocError> {
    say(out, &[front, "; it can be finished by "])?;
    let mut users = UserSet::empty();
    for s in 0..plan.len() {
        let user = plan.at(StepId(s));
        if user.0 < USER_LIMIT {
            users.insert(user);
        }
    }
    push_users(out, p, &users, "and")
}

fn phase_words(phase: Phase) -> &'static str {
    match phase {
        Phase::Live => "it is open",
        Phase::Done => "it is done",
        Phase::Withdrawn => "it was withdrawn",
    }
}

// Adds what a user may do.
fn push_work(
    out: &mut String,
    p: &Policy,
    user: &str,
    items: &[WorkItem],
) -> Result<(), AllocError> {
    if items.is_empty() {
        return out.push_str("nothing");
    }
    let count = items.len().min(65_535) as u32;
    let shown = shown_of(count);
    say(out, &[user, " may do "])?;
    for place in 0..shown {
        if let Some(item) = items.get(place as usize) {
            push_gap(out, place, count, "and")?;
            push_item(out, p, item)?;
        }
    }
    push_others(out, shown, count, "and")
}

fn push_item(out: &mut String, p: &Policy, item: &WorkItem) -> Result<(), AllocError> {
    push_step(out, p, item.flow, item.step)?;
    write!(out, " of case {}", item.case.0)
}

// Adds which cases an edit would strand.
fn push_stranded(out: &mut String, cases: &[CaseId]) -> Result<(), AllocError> {
    if cases.is_empty() {
        return out.push_str("it would strand no case");
    }
    let what = if cases.len() == 1 { "case " } else { "cases " };
    say(out, &["it would strand ", what])?;
    let count = cases.len().min(65_535) as u32;
    let shown = shown_of(count);
    for place in 0..shown {
        if let Some(case) = cases.get(place as usize) {
            push_gap(out, place, count, "and")?;
            push_number(out, case.0 as u64)?;
        }
    }
    push_others(out, shown, count, "and")
}

fn push_again(out: &mut String, rounds: u8, at: u32) -> Result<(), AllocError> {
    let front = "could not be decided, since entries up to";
    let times = if rounds == 1 { "time" } else { "times" };
    write!(
        out,
        "{front} {at} changed what it rests on, {rounds} {times}; nothing changed"
    )
}

// Adds why a line is no request.
fn push_bad(out: &mut String, bad: Bad) -> Result<(), AllocError> {
    match bad {
        Bad::Syntax => out.push_str("it is no JSON"),
        Bad::Object => out.push_str("it is no JSON object"),
        Bad::Do => out.push_str("it has no request in \"do\""),
        Bad::Lane => out.push_str("it names no lane"),
        Bad::Key(key) => push_bad_key(out, key.as_str()),
        Bad::Extra => out.push_str("it has a further key"),
    }
}

fn push_bad_key(out: &mut String, key: &str) -> Result<(), AllocError> {
    match key {
        "case" => out.push_str("it has nothing, or no number of a case, in \"case\""),
        "edit" => out.push_str("it has nothing, or no word of an edit, in \"edit\""),
        _ => {
            out.push_str("it has nothing, or not a name, in \"")?;
            say(out, &[key, "\" (names are lower case)"])
        }
    }
}
