//! Why a request was denied, in words.

use crate::about::{asker, relation_asked, step_asked};
use crate::facts::{Breach, push_broken};
use crate::held::{Held, held_asked, held_in, held_with, step_in};
use crate::names::{push_number, push_roles, push_step, push_steps, push_user, push_users};
use crate::past::{Deed, push_which};
use crate::told::Told;
use grant_table::Cases;
use plain_words::{flow_name, name_of, relation_name, say, text_of};
use policy_book::Policy;
use std::alloc::AllocError;
use wf_names::{
    CASE_LIMIT, CaseId, FlowId, Name, OPEN_CASE_LIMIT, PAIR_LIMIT, RelId, RoleId, StepId,
    StepState, USER_LIMIT, UserId,
};
use wf_talk::{Ask, Denial, Missing, Request};

/// Adds why what was asked was denied; it has changed neither the policy nor the cases. Trees are
/// left out.
pub(crate) fn push_denial(
    out: &mut String,
    told: &Told<'_>,
    denial: &Denial,
) -> Result<(), AllocError> {
    let (p, cases, ask) = (told.policy, told.cases, &told.entry.ask);
    match denial {
        Denial::NoFlow => push_asker(out, "there is no workflow \"", ask, "\""),
        Denial::Retired => push_asker(out, "no case of ", ask, " is opened any more"),
        Denial::Full => push_full(out, cases, ask),
        Denial::Unsatisfiable { flow, .. } => push_planless(out, p, *flow),
        Denial::NoCase => push_case_words(out, "there is no case ", ask.case(), ""),
        Denial::Closed => push_closed(out, told),
        Denial::NoStep => push_no_step(out, told),
        Denial::NoUser => push_asker(out, "the policy has no user \"", ask, "\""),
        Denial::Taken(user) => push_taken(out, told, *user),
        Denial::Order { flow, step } => push_before(out, p, *flow, *step),
        Denial::Role(roles) => push_role(out, told, roles.as_slice()),
        Denial::Rule(k) => push_rule(out, told, *k),
        Denial::Stranded { .. } => out.push_str("after it, nobody could finish the case lawfully"),
        Denial::NotHeld(state) => push_not_held(out, p, *state),
        _ => push_edit_denial(out, p, ask, denial),
    }
}

// Adds whom or what a request names first, between these words.
fn push_asker(out: &mut String, front: &str, ask: &Ask, tail: &str) -> Result<(), AllocError> {
    say(out, &[front, asker(ask), tail])
}

fn push_planless(out: &mut String, p: &Policy, f: FlowId) -> Result<(), AllocError> {
    let flow = name_of(p.flows(), f.0 as u16);
    let end = " has no plan at all under the policy as it is";
    say(out, &[text_of(&flow), end])
}

fn push_before(out: &mut String, p: &Policy, f: FlowId, s: StepId) -> Result<(), AllocError> {
    push_step(out, p, f, s)?;
    out.push_str(" comes before it and is not finished")
}

// Adds which rule would be broken, and by whom.
fn push_rule(out: &mut String, told: &Told<'_>, k: u8) -> Result<(), AllocError> {
    match held_with(told) {
        Some(held) => push_broken(out, &held, k, Breach::Would),
        None => out.push_str("a rule would be broken"),
    }
}

// The same of what is denied to administrators.
fn push_edit_denial(
    out: &mut String,
    p: &Policy,
    ask: &Ask,
    denial: &Denial,
) -> Result<(), AllocError> {
    match denial {
        Denial::NotAdmin => {
            let role = name_of(p.roster().roles(), p.admin().0 as u16);
            let end = ", which administers the policy";
            say(
                out,
                &[asker(ask), " does not have the role ", text_of(&role), end],
            )
        }
        Denial::Unknown(what) => say(
            out,
            &["the policy has no ", word_of(*what), " of that name"],
        ),
        Denial::Fixed => push_fixed(out, p, ask),
        Denial::Already => out.push_str("it is so already"),
        Denial::Absent => out.push_str("there is nothing to take away"),
        Denial::LastAdmin => out.push_str("nobody would administer the policy any more"),
        Denial::Strands { case, .. } => {
            let tail = " could no longer be finished lawfully";
            push_case_words(out, "case ", Some(*case), tail)
        }
        _ => Ok(()),
    }
}

fn word_of(what: Missing) -> &'static str {
    match what {
        Missing::Flow => "workflow",
        Missing::Step => "step",
        Missing::Relation => "relation",
        Missing::User => "user",
        Missing::Role => "role",
    }
}

// Adds a case's number, between these words.
fn push_case_words(
    out: &mut String,
    front: &str,
    case: Option<CaseId>,
    tail: &str,
) -> Result<(), AllocError> {
    out.push_str(front)?;
    if let Some(case) = case {
        push_number(out, case.0 as u64)?;
    }
    out.push_str(tail)
}

// Adds which limit is reached.
fn push_full(out: &mut String, cases: &Cases, ask: &Ask) -> Result<(), AllocError> {
    match relation_asked(ask) {
        Some(relation) => {
            say(out, &["there is no room: \"", relation.as_str(), "\" has "])?;
            push_limit(out, PAIR_LIMIT as u64, " pairs")
        }
        None => {
            let (limit, what) = limit_of(cases, ask);
            out.push_str("there is no room: ")?;
            push_limit(out, limit, what)
        }
    }
}

// The limit that is reached, and what it limits.
fn limit_of(cases: &Cases, ask: &Ask) -> (u64, &'static str) {
    match ask {
        Ask::Request(Request::OpenCase { .. }) if cases.live() >= OPEN_CASE_LIMIT => {
            (OPEN_CASE_LIMIT as u64, " cases are open")
        }
        Ask::Request(Request::OpenCase { .. }) => (CASE_LIMIT as u64, " cases were opened"),
        _ => (USER_LIMIT as u64, " users are known"),
    }
}

// Adds a limit of at least a thousand, and below a million, and what it limits.
fn push_limit(out: &mut String, limit: u64, what: &str) -> Result<(), AllocError> {
    write!(out, "{},{:03}{what}", limit / 1_000, limit % 1_000)
}

// Adds how the case has ended, and by which entry.
fn push_closed(out: &mut String, told: &Told<'_>) -> Result<(), AllocError> {
    let Some(c) = told.entry.ask.case() else {
        return out.push_str("the case is not open");
    };
    let tail = match told.cases.case(c) {
        Some(case) if case.phase().is_done() => " is done",
        Some(case) if !case.phase().is_live() => " was withdrawn",
        _ => " is not open",
    };
    push_case_words(out, "case ", Some(c), tail)?;
    push_which(out, told.entries, c, Deed::End)
}

// Adds which steps there are.
fn push_no_step(out: &mut String, told: &Told<'_>) -> Result<(), AllocError> {
    let Some((case, step)) = step_asked(&told.entry.ask) else {
        return out.push_str("there is no such step");
    };
    match held_in(told.policy, told.cases, case) {
        Some(held) => push_own_steps(out, &held, step.as_str()),
        None => say(out, &["there is no step \"", step.as_str(), "\""]),
    }
}

fn push_own_steps(out: &mut String, held: &Held<'_>, step: &str) -> Result<(), AllocError> {
    let flow = flow_name(&held.course);
    let tail = "\"; its steps are ";
    say(out, &[text_of(&flow), " has no step \"", step, tail])?;
    push_steps(out, held.steps())
}

// Adds who has the step.
fn push_taken(out: &mut String, told: &Told<'_>, user: UserId) -> Result<(), AllocError> {
    push_user(out, told.policy, user)?;
    let is_finished = has_finished(told);
    match step_asked(&told.entry.ask) {
        Some((case, step)) if is_finished => {
            out.push_str(" has finished it")?;
            push_which(out, told.entries, case, Deed::Finish(step.as_str()))
        }
        _ => out.push_str(" holds it already"),
    }
}

// Whether the step that is asked about is finished.
fn has_finished(told: &Told<'_>) -> bool {
    match held_asked(told) {
        Some(held) => step_in(&held, &told.entry.ask).is_some_and(|step| held.done.has(step)),
        None => false,
    }
}

// Adds which roles are permitted for the step, and who has one of them.
fn push_role(out: &mut String, told: &Told<'_>, roles: &[RoleId]) -> Result<(), AllocError> {
    let (front, verb) = match roles.len() {
        0 => ("no role is", ""),
        1 => ("the role ", " is ("),
        _ => ("the roles ", " are ("),
    };
    let asker = asker(&told.entry.ask);
    say(out, &[asker, " is not allowed to do it; ", front])?;
    if roles.is_empty() {
        return Ok(());
    }
    push_roles(out, told.policy, roles)?;
    out.push_str(verb)?;
    push_takers(out, told)
}

// Adds who may do the step that is asked for, and ends the bracket.
fn push_takers(out: &mut String, told: &Told<'_>) -> Result<(), AllocError> {
    if let Some(held) = held_asked(told) {
        if let Some(step) = step_in(&held, &told.entry.ask) {
            let users = held.course.authorised_users(step);
            push_users(out, told.policy, &users, "and")?;
        }
    }
    out.push_str(")")
}

// Adds where a step stands that the user does not hold.
fn push_not_held(out: &mut String, p: &Policy, state: StepState) -> Result<(), AllocError> {
    match state {
        StepState::Free => out.push_str("nobody holds it"),
        StepState::Held(user) => {
            push_user(out, p, user)?;
            out.push_str(" holds it")
        }
        StepState::Finished(user) => {
            push_user(out, p, user)?;
            out.push_str(" has finished it")
        }
    }
}

// Adds why the pairs of a relation are not listed.
fn push_fixed(out: &mut String, p: &Policy, ask: &Ask) -> Result<(), AllocError> {
    let Some(relation) = relation_asked(ask) else {
        return out.push_str("the pairs of the relation are not listed");
    };
    let rho = p.relations().find(&relation).unwrap_or(RelId::SAME);
    let of = p.relations().complement_of(rho).unwrap_or(RelId::SAME);
    match relation_name(p, of) {
        Some(name) if of != RelId::SAME => push_complement(out, &relation, &name),
        _ => {
            let end = "\" is built in: its pairs are not listed";
            say(out, &["\"", relation.as_str(), end])
        }
    }
}

fn push_complement(out: &mut String, relation: &Name, of: &Name) -> Result<(), AllocError> {
    let (middle, end) = ("\" is the complement of \"", "\": its pairs are not listed");
    say(out, &["\"", relation.as_str(), middle, of.as_str(), end])
}
