//! What a line asks, in words.

use plain_words::say;
use std::alloc::AllocError;
use wf_names::{CaseId, Name};
use wf_talk::{Ask, Edit, Request};

/// Adds what a line asks, as a sentence without its full stop.
pub fn push_ask(out: &mut String, ask: &Ask) -> Result<(), AllocError> {
    match ask {
        Ask::Request(request) => push_request(out, request),
        Ask::Bad(_) => out.push_str("a line that is no request"),
    }
}

fn push_request(out: &mut String, request: &Request) -> Result<(), AllocError> {
    match request {
        Request::OpenCase { flow } => push_named(out, "somebody opens a case of ", flow, ""),
        Request::Claim { case, step, user } => { push_deed(out, user, " claims ", step, *case, "") }
        Request::Finish { case, step, user } => {
            push_deed(out, user, " finishes ", step, *case, "")
        }
        Request::GiveBack { case, step, user } => {
            push_deed(out, user, " gives ", step, *case, " back")
        }
        Request::Release { by, case, step } => {
            push_deed(out, by, " takes ", step, *case, " from its holder")
        }
        Request::Withdraw { by, case } => push_at(out, by.as_str(), " ends case ", *case, ""),
        Request::Change { by, edit } => push_edit(out, "", by, edit),
        Request::Show { case } => push_at(out, "", "case ", *case, " is looked at"),
        Request::Worklist { user } => push_named(out, "", user, " asks what there is to do"),
        Request::WhatIf { by, edit } => push_edit(out, "what if ", by, edit),
    }
}

// Adds what somebody does with a step of a case.
fn push_deed(
    out: &mut String,
    user: &Name,
    verb: &str,
    step: &Name,
    case: CaseId,
    tail: &str,
) -> Result<(), AllocError> {
    say(out, &[user.as_str(), verb])?;
    push_at(out, step.as_str(), " of case ", case, tail)
}

// Adds a case's number behind and before these words.
fn push_at(
    out: &mut String,
    front: &str,
    middle: &str,
    case: CaseId,
    tail: &str,
) -> Result<(), AllocError> {
    write!(out, "{front}{middle}{}{tail}", case.0)
}

// Adds a name between these words.
fn push_named(out: &mut String, front: &str, name: &Name, tail: &str) -> Result<(), AllocError> {
    say(out, &[front, name.as_str(), tail])
}

// Adds who edits, and what the edit does.
fn push_edit(out: &mut String, front: &str, by: &Name, edit: &Edit) -> Result<(), AllocError> {
    push_named(out, front, by, "")?;
    match edit {
        Edit::AddUser { user } => push_named(out, " adds user ", user, ""),
        Edit::Leave { user } => push_named(out, " takes ", user, " out (all roles)"),
        Edit::Enrol { role, user } => push_two(out, " gives the role ", role, " to ", user),
        Edit::Dismiss { role, user } => push_two(out, " takes the role ", role, " from ", user),
        Edit::Relate {
            first,
            relation,
            second,
        } => push_pair(out, " puts ", first, second, " into \"", relation),
        Edit::Unrelate {
            first,
            relation,
            second,
        } => push_pair(out, " takes ", first, second, " out of \"", relation),
        Edit::Permit { flow, role, step } => {
            let (s, f) = (step.as_str(), flow.as_str());
            say(out, &[" permits ", s, " of ", f, " to ", role.as_str()])
        }
        Edit::Forbid { flow, role, step } => {
            let (s, f) = (step.as_str(), flow.as_str());
            say(out, &[" forbids ", s, " of ", f, " to ", role.as_str()])
        }
        Edit::Retire { flow } => push_named(out, " retires ", flow, ""),
    }
}

fn push_two(
    out: &mut String,
    front: &str,
    one: &Name,
    middle: &str,
    other: &Name,
) -> Result<(), AllocError> {
    say(out, &[front, one.as_str(), middle, other.as_str()])
}

fn push_pair(
    out: &mut String,
    verb: &str,
    first: &Name,
    second: &Name,
    way: &str,
    relation: &Name,
) -> Result<(), AllocError> {
    let (u, v) = (first.as_str(), second.as_str());
    say(out, &[verb, u, " before ", v, way, relation.as_str(), "\""])
}
