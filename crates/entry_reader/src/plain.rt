//! Lines as most are written: they are guessed, written again and compared.
ghost use Rattle.std.specs.Prelude.{◌≡◌, ◌≤◌, ◌<◌, nat_lt, length, Some, IfOk, IfSome};
ghost use Rattle.std.specs.List.{All, list_all};
ghost use Rattle.wf_names.specs.declared.limits.TheConstants.{STEP_LIMIT};
ghost use Rattle.entry_reader.specs.Places.{place_of_line};
ghost use Rattle.entry_reader.specs.Laws.Lines.{HasReply, concerned};
ghost use Rattle.entry_reader.specs.Plain.{IsGuessed, IsPlainReply};
ghost use Rattle.entry_reader.specs.Laws.Within.{IsPlan};

use crate::names::know_names;
use crate::plain_denial::guess_denial;
use crate::reply::{flow_asked, is_written};
use crate::rest::{Rest, guess_number};
use crate::{NotText, Place, TextFault};
use basics::Fault;
use memchr::memchr;
use policy_book::{Plan, Policy};
use std::alloc::{AllocError, Global};
use wf_names::{CASE_NUMBER_LIMIT, CaseId, FlowId, Name, STEP_LIMIT, UserId};
use wf_talk::{Ask, Entry, FlowOf, Reply};

/// The place that a line may tell, by its first bytes. It is a hint, on which nothing rests.
pub fn guess_place(line: &[u8]) -> Option<Place> {
    let (place, _) = guess_front(line)?;
    Some(place)
}

/// The reply that a line tells for an ask at a place, where it is granted, finished, opened, one of
/// a word or denied by anything but roles, without blanks and with its keys as they are written.
/// None says nothing.
#[tactic(auto, using(crate::proofs::Uses::guessed_lines))]
pub fn read_plain<F: FlowOf>(
    alloc: Global,
    p: &Policy,
    cases: &F,
    ask: &Ask,
    place: Place,
    line: &[u8],
) -> Result<Option<Reply>, AllocError>
    ensures place { IfOk result (λ o. IfSome o (λ r. place_of_line line.now ≡ Some place)) }
    ensures reply { IfOk result (λ o. IfSome o
        (HasReply p.now (F.FlowOf.flows cases.now) ask.now line.now)) }
{
    let Some(reply) = guess_reply(alloc, p, cases, ask, line)? else {
        return Ok(None);
    };
    know_names(p);
    let entry = Entry {
        at: place.at,
        lane: place.lane,
        line: place.line,
        ask: *ask,
        reply,
    };
    if is_written(alloc, p, &entry, line)? {
        Ok(Some(entry.reply))
    } else {
        Ok(None)
    }
}

// The place at the front of a line, and what follows up to the reply.
fn guess_front(line: &[u8]) -> Option<(Place, &[u8])> {
    let (at, rest) = guess_behind(line, b"{\"at\":")?;
    let (lane, rest) = guess_behind(rest, b",\"lane\":")?;
    let (number, rest) = guess_behind(rest, b",\"line\":")?;
    let rest = rest.strip_prefix(b",\"reply\":")?;
    if lane > 255 {
        return None;
    }
    Some((
        Place {
            at,
            lane: lane as u8,
            line: number,
        },
        rest,
    ))
}

// Some number, by the digits behind some bytes at the front of a text, and what follows.
fn guess_behind<'t>(text: &'t [u8], front: &[u8]) -> Option<(u32, &'t [u8])> {
    guess_number(text.strip_prefix(front)?)
}

// A reply that a line may tell, by its first bytes.
#[tactic(auto, using(crate::proofs::PlainLines::plain_guessed))]
fn guess_reply<F: FlowOf>(
    alloc: Global,
    p: &Policy,
    cases: &F,
    ask: &Ask,
    line: &[u8],
) -> Result<Option<Reply>, AllocError>
    ensures { IfOk result (λ o. IfSome o (IsGuessed p.now (F.FlowOf.flows cases.now)
        (concerned p.now (F.FlowOf.flows cases.now) ask.now))) }
{
    let Some((_, text)) = guess_front(line) else {
        return Ok(None);
    };
    if let Some(text) = text.strip_prefix(b"{\"denied\":") {
        let flow = flow_asked(p, cases, ask);
        return guess_denied(p, cases, flow, &mut Rest { alloc, text });
    }
    Ok(guess_plain(p, text))
}

// A denial that a text may tell, where this workflow is concerned.
fn guess_denied<F: FlowOf>(
    p: &Policy,
    cases: &F,
    flow: Option<FlowId>,
    rest: &mut Rest<'_>,
) -> Result<Option<Reply>, AllocError>
    ensures { IfOk result (λ o. IfSome o (IsGuessed p.now (F.FlowOf.flows cases.now) flow)) }
{
    match guess_denial(p, cases, flow, rest) {
        Ok(denial) => Ok(Some(Reply::Denied(denial))),
        Err(Fault::Cause(NotText)) => Ok(None),
        Err(Fault::NoMemory) => Err(AllocError),
    }
}

// A reply that a text may tell, and that is no denial.
fn guess_plain(p: &Policy, rest: &[u8]) -> Option<Reply>
    ensures { IfSome result (IsPlainReply p.now) }
{
    if let Some(rest) = rest.strip_prefix(b"{\"granted\":{\"plan\":[") {
        return Some(Reply::Granted(guess_plan(p, rest)?));
    }
    if let Some(rest) = rest.strip_prefix(b"{\"finished\":{\"done\":") {
        let done = rest.strip_prefix(b"true").is_some();
        return Some(Reply::Finished { done });
    }
    if let Some(rest) = rest.strip_prefix(b"{\"opened\":{\"case\":") {
        return guess_opened(p, rest);
    }
    guess_word(p, rest)
}

// The reply to an opening, by the number of its case and its plan.
fn guess_opened(p: &Policy, text: &[u8]) -> Option<Reply>
    ensures { IfSome result (IsPlainReply p.now) }
{
    let (case, rest) = guess_number(text)?;
    if case > CASE_NUMBER_LIMIT as u32 {
        return None;
    }
    let plan = guess_plan(p, rest.strip_prefix(b",\"plan\":[")?)?;
    Some(Reply::Opened {
        case: CaseId(case as u16),
        plan,
    })
}

// A reply that is a word alone.
fn guess_word(p: &Policy, text: &[u8]) -> Option<Reply>
    ensures { IfSome result (IsPlainReply p.now) }
{
    let _ = p;
    if text.starts_with(b"\"returned\"") {
        Some(Reply::Returned)
    } else if text.starts_with(b"\"released\"") {
        Some(Reply::Released)
    } else if text.starts_with(b"\"withdrawn\"") {
        Some(Reply::Withdrawn)
    } else {
        None
    }
}

// Some users, by the names in quotes at the front of a text: as many as a workflow may have steps.
fn guess_plan(p: &Policy, text: &[u8]) -> Option<Plan>
    ensures { IfSome result (IsPlan p.now) }
{
    let (users, count) = guess_users(p, text);
    plan_of(&users[..count], p.roster().users().len())
}

// A list that begins with them, and how many there are.
fn guess_users(p: &Policy, text: &[u8]) -> ([UserId; STEP_LIMIT], usize)
    ensures { result.1 ≤ STEP_LIMIT }
{
    let mut users = [UserId(0); STEP_LIMIT];
    let mut rest = text;
    'users: for count in 0..STEP_LIMIT {
        match guess_user(p, rest) {
            Some((user, more)) => {
                users[count] = user;
                rest = more;
            }
            None => return (users, count),
        }
    }
    (users, STEP_LIMIT)
}

// The plan of users, where each of them is among the first `count` ones.
#[tactic(auto, using(crate::proofs::PlainLines::all_within))]
fn plan_of(users: &[UserId], count: u16) -> Option<Plan>
    requires { length users.now ≤ STEP_LIMIT }
    ensures users { IfSome result (λ plan. All (λ u. u < count) plan) }
    ensures short { IfSome result (λ plan. length plan ≤ STEP_LIMIT) }
{
    if are_users(users, count) {
        Some(Plan::of(users))
    } else {
        None
    }
}

// A user, by the name in quotes at the front of a text, and what follows it and a comma.
fn guess_user<'t>(p: &Policy, text: &'t [u8]) -> Option<(UserId, &'t [u8])> {
    let text = text.strip_prefix(b"\"")?;
    let end = memchr(b'"', text)?;
    let user = find_user(p, &text[..end])?;
    let rest = &text[end + 1..];
    Some((user, rest.strip_prefix(b",").unwrap_or(rest)))
}

// The user with a name.
fn find_user(p: &Policy, name: &[u8]) -> Option<UserId> {
    let name = Name::of_bytes(name)?;
    Some(UserId(p.roster().users().find(&name)?))
}

// Whether all of these users are among the first `count` ones.
fn are_users(users: &[UserId], count: u16) -> bool
    ensures { result ≡ list_all (λ u. nat_lt u count) users.now }
{
    users.iter().all(|u| u.0 < count)
}
