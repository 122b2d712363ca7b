//! The reply that a line tells.
ghost use Rattle.std.specs.Prelude.{◌≡◌, ◌≢◌, IfOk, IsErrOf, MatchBool, option_and_then};
ghost use Rattle.serde_json.specs.View.{view};
ghost use Rattle.serde_json.specs.Find.{as_str};
ghost use Rattle.wire_json.specs.Replies.{entry_text};
ghost use Rattle.entry_reader.specs.Fault.{not_text};
ghost use Rattle.entry_reader.specs.Laws.Lines.{HasReply, HasNoReply, concerned};
ghost use Rattle.entry_reader.specs.Reads.{Reads};
ghost use Rattle.entry_reader.specs.Values as read;
ghost use Rattle.entry_reader.specs.Told as told;

use crate::denial::denial_of;
use crate::kind::{ReplyKind, bad_word, phase_word, reply_word};
use crate::list::{cases_of, plan_of, states_of, work_of};
use crate::names::know_names;
use crate::parts::{case_of, name_of, number_below, numbered, only};
use crate::place::place_in;
use crate::{NotText, TextFault};
use basics::Fault;
use policy_book::Policy;
use serde_json::Value;
use std::alloc::{AllocError, Global};
use wf_names::{FlowId, Name, Phase};
use wf_talk::{Ask, Bad, Entry, Face, FlowOf, Reply, Request};
use wire_json::{push_line, read_value};

/// The reply of the entry whose text is this line, with its line end, where the entry answers this
/// ask. The steps and trees in it are of the workflow that is concerned: the one of the case in the
/// reply in a work list and where an edit strands a case, and else the one that the ask names or
/// its case's.
#[tactic(auto, using(crate::proofs::Uses::told_replies))]
pub fn read_reply<F: FlowOf>(
    alloc: Global,
    p: &Policy,
    cases: &F,
    ask: &Ask,
    text: &[u8],
) -> Result<Reply, TextFault>
    ensures reply { IfOk result (HasReply p.now (F.FlowOf.flows cases.now) ask.now text.now) }
    ensures none { IsErrOf result not_text
        → HasNoReply p.now (F.FlowOf.flows cases.now) ask.now text.now }
{
    know_names(p);
    let entry = entry_of_line(alloc, p, cases, ask, text)?;
    if !is_written(alloc, p, &entry, text)? {
        return Err(Fault::Cause(NotText));
    }
    Ok(entry.reply)
}

/// Whether a text is that of an entry.
pub(crate) fn is_written(
    alloc: Global,
    p: &Policy,
    entry: &Entry,
    text: &[u8],
) -> Result<bool, AllocError>
    ensures { IfOk result (λ b. MatchBool b (entry_text p.now entry.now ≡ text.now)
        (entry_text p.now entry.now ≢ text.now)) }
{
    let mut line = Vec::with_capacity(alloc, text.len())?;
    push_line(&mut line, p, entry)?;
    Ok(line.as_slice() == text)
}

// The entry that a line tells.
#[tactic(auto, unfolding(crate::specs::Told::entry_of_line))]
fn entry_of_line<F: FlowOf>(
    alloc: Global,
    p: &Policy,
    cases: &F,
    ask: &Ask,
    text: &[u8],
) -> Result<Entry, TextFault>
    ensures { Reads (λ e. e) result (told.entry_of_line p.now (F.FlowOf.flows cases.now)
        ask.now text.now) }
{
    match read_value(alloc, text)? {
        Some(value) => entry_in(alloc, p, cases, ask, &value),
        None => Err(Fault::Cause(NotText)),
    }
}

#[tactic(auto, unfolding(crate::specs::Told::entry_read))]
fn entry_in<F: FlowOf>(
    alloc: Global,
    p: &Policy,
    cases: &F,
    ask: &Ask,
    value: &Value,
) -> Result<Entry, TextFault>
    ensures { Reads (λ e. e) result (told.entry_read p.now (F.FlowOf.flows cases.now) ask.now
        (view value.now)) }
{
    let place = place_in(value).ok_or(Fault::Cause(NotText))?;
    let reply = value.get("reply").ok_or(Fault::Cause(NotText))?;
    let flow = flow_asked(p, cases, ask);
    let reply = reply_of(alloc, p, cases, flow, reply)?;
    Ok(Entry {
        at: place.at,
        lane: place.lane,
        line: place.line,
        ask: *ask,
        reply,
    })
}

/// The workflow that an ask concerns.
pub(crate) fn flow_asked<F: FlowOf>(p: &Policy, cases: &F, ask: &Ask) -> Option<FlowId>
    ensures { result ≡ concerned p.now (F.FlowOf.flows cases.now) ask.now }
{
    let Ask::Request(request) = ask else {
        return None;
    };
    match request {
        Request::OpenCase { flow } => p.find_flow(flow),
        Request::Claim { case, .. }
        | Request::Finish { case, .. }
        | Request::GiveBack { case, .. }
        | Request::Release { case, .. }
        | Request::Withdraw { case, .. }
        | Request::Show { case } => cases.flow_of(*case),
        Request::Change { .. } | Request::Worklist { .. } | Request::WhatIf { .. } => None,
    }
}

// The reply that a value is.
#[tactic(auto, unfolding(crate::specs::Told::reply_read))]
fn reply_of<F: FlowOf>(
    alloc: Global,
    p: &Policy,
    cases: &F,
    flow: Option<FlowId>,
    value: &Value,
) -> Result<Reply, TextFault>
    ensures { Reads (λ r. r) result (told.reply_read p.now (F.FlowOf.flows cases.now) flow
        (view value.now)) }
{
    if let Some(reply) = word_reply(value) {
        return Ok(reply);
    }
    let (key, value) = only(value).ok_or(Fault::Cause(NotText))?;
    match ReplyKind::read(key) {
        Some(kind) => reply_by(alloc, p, cases, flow, kind, value),
        None => Err(Fault::Cause(NotText)),
    }
}

// The reply that is a word alone.
fn word_reply(value: &Value) -> Option<Reply>
    ensures { result ≡ option_and_then (read.row_read told.reply_words) (as_str (view value.now)) }
{
    reply_word(value.as_str()?)
}

// The reply of a kind whose value this is.
fn reply_by<F: FlowOf>(
    alloc: Global,
    p: &Policy,
    cases: &F,
    flow: Option<FlowId>,
    kind: ReplyKind,
    value: &Value,
) -> Result<Reply, TextFault>
    ensures { Reads (λ r. r) result (told.reply_by p.now (F.FlowOf.flows cases.now) flow kind
        (view value.now)) }
{
    match kind {
        ReplyKind::Granted => Ok(Reply::Granted(plan_of(alloc, p, value)?)),
        ReplyKind::Opened => opened_of(alloc, p, value),
        ReplyKind::Shown => Ok(Reply::Shown(face_of(alloc, p, value)?)),
        ReplyKind::Work => Ok(Reply::Work(work_of(alloc, p, cases, value)?)),
        ReplyKind::WhatIf => Ok(Reply::WhatIf(cases_of(alloc, value)?)),
        ReplyKind::Denied => Ok(Reply::Denied(denial_of(alloc, p, cases, flow, value)?)),
        _ => short_reply(kind, value).ok_or(Fault::Cause(NotText)),
    }
}

// The reply of a kind that takes no memory.
fn short_reply(kind: ReplyKind, value: &Value) -> Option<Reply>
    ensures { result ≡ told.short_reply kind (view value.now) }
{
    match kind {
        ReplyKind::Finished => Some(Reply::Finished {
            done: done_of(value)?,
        }),
        ReplyKind::Edited => {
            let number = number_below(value, "number", 1 << 32)?;
            Some(Reply::Edited {
                number: number as u32,
            })
        }
        ReplyKind::Again => again_of(value),
        ReplyKind::Bad => Some(Reply::Bad(bad_of(value)?)),
        _ => None,
    }
}

// Whether a case is done.
fn done_of(value: &Value) -> Option<bool>
    ensures { result ≡ told.done_read (view value.now) }
{
    value.get("done")?.as_bool()
}

fn opened_of(alloc: Global, p: &Policy, value: &Value) -> Result<Reply, TextFault>
    ensures { Reads (λ r. r) result (told.opened_read p.now (view value.now)) }
{
    let case = case_of(value).ok_or(Fault::Cause(NotText))?;
    let plan = plan_of(alloc, p, value)?;
    Ok(Reply::Opened { case, plan })
}

fn face_of(alloc: Global, p: &Policy, value: &Value) -> Result<Face, TextFault>
    ensures { Reads (λ face. face) result (told.face_read p.now (view value.now)) }
{
    let flow = flow_of(p, value).ok_or(Fault::Cause(NotText))?;
    let phase = phase_of(value).ok_or(Fault::Cause(NotText))?;
    let states = states_of(alloc, p, value)?;
    Ok(Face {
        flow,
        phase,
        states,
    })
}

// The workflow at the key flow.
fn flow_of(p: &Policy, value: &Value) -> Option<FlowId>
    ensures { result ≡ told.flow_read p.now (view value.now) }
{
    match numbered(p.flows(), value.get("flow")?) {
        Some(f) => Some(FlowId(f as u8)),
        None => None,
    }
}

fn phase_of(value: &Value) -> Option<Phase>
    ensures { result ≡ told.phase_read (view value.now) }
{
    phase_word(value.get("phase")?.as_str()?)
}

fn again_of(value: &Value) -> Option<Reply>
    ensures { result ≡ told.again_read (view value.now) }
{
    let at = number_below(value, "at", 1 << 32)?;
    let rounds = number_below(value, "rounds", 1 << 8)?;
    Some(Reply::Again {
        rounds: rounds as u8,
        at: at as u32,
    })
}

fn bad_of(value: &Value) -> Option<Bad>
    ensures { result ≡ told.bad_read (view value.now) }
{
    if let Some(bad) = word_bad(value) {
        return Some(bad);
    }
    Some(Bad::Key(key_of(value)?))
}

fn word_bad(value: &Value) -> Option<Bad>
    ensures { result ≡ option_and_then (read.row_read told.bad_words) (as_str (view value.now)) }
{
    bad_word(value.as_str()?)
}

fn key_of(value: &Value) -> Option<Name>
    ensures { result ≡ told.key_read (view value.now) }
{
    name_of(value.get("key")?)
}
