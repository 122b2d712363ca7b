//! Writing entries.
ghost use Rattle.std.specs.Prelude.{◌≡◌, ◌≤◌, ◌++◌, codes, length, OnOk};
ghost use Rattle.serde_json.specs.Data.{boolean, number, unsigned};
ghost use Rattle.serde_json.specs.Written.{compact_text};
ghost use Rattle.wire_json.specs.Entries.{single, named, plan_data, seen_data, phase_data};
ghost use Rattle.wire_json.specs.Entries.{bad_data};
ghost use Rattle.wire_json.specs.Replies.{denial_data, face_data, again_data, reply_data};
ghost use Rattle.wire_json.specs.Replies.{entry_text};
ghost use Rattle.wire_json.specs.Pieces.{head_text};

use crate::denial::push_denial;
use crate::fill::{put_bytes, put_number};
use crate::list::{Item, push_list_in};
use crate::text::{push, push_case, push_name, push_name_in, push_number, push_plan, push_quoted};
use policy_book::{Plan, Policy};
use std::alloc::AllocError;
use wf_names::{CaseId, FlowId, Name, Phase, StepState};
use wf_talk::{Bad, Denial, Entry, Face, Reply, States};

// The room that an entry's numbers and their keys need, with a short reply behind them.
const HEAD_ROOM: usize = 96;

/// Adds the line that is written for an entry.
#[tactic(auto, unfolding(crate::specs::Replies::entry_text))]
pub fn push_line(out: &mut Vec<u8>, p: &Policy, e: &Entry) -> Result<(), AllocError>
    ensures { OnOk result (out.new.items ≡ out.old.items ++ entry_text p.now e.now) }
{
    push_head(out, e, b"")?;
    push_reply(out, p, &e.reply)?;
    push(out, b"}\n")?;
    Ok(())
}

/// Adds what stands before the reply, and bytes behind it.
pub(crate) fn push_head(out: &mut Vec<u8>, e: &Entry, after: &[u8]) -> Result<(), AllocError>
    requires { length after.now ≤ 32 }
    ensures { OnOk result (out.new.items ≡ out.old.items ++ (head_text e.now ++ after.now)) }
{
    let mut cells = [0; HEAD_ROOM];
    let behind = put_bytes(&mut cells, HEAD_ROOM, after);
    let reply = put_bytes(&mut cells, behind, b",\"reply\":");
    let line = put_number(&mut cells, reply, b",\"line\":", e.line);
    let lane = put_number(&mut cells, line, b",\"lane\":", e.lane as u32);
    let at = put_number(&mut cells, lane, b"{\"at\":", e.at);
    push(out, &cells[at..])?;
    Ok(())
}

#[tactic(auto, unfolding(json::specs::Print::escape_byte))]
fn push_reply(out: &mut Vec<u8>, p: &Policy, reply: &Reply) -> Result<(), AllocError>
    ensures { OnOk result (out.new.items ≡ out.old.items ++ compact_text
        (reply_data p.now reply.now)) }
{
    match reply {
        Reply::Granted(plan) => push_granted(out, p, plan),
        Reply::Finished { done } => push_finished(out, *done),
        Reply::Returned => push(out, b"\"returned\""),
        Reply::Released => push(out, b"\"released\""),
        Reply::Opened { case, plan } => push_opened(out, p, *case, plan),
        Reply::Withdrawn => push(out, b"\"withdrawn\""),
        Reply::Edited { number } => push_edited(out, *number),
        Reply::Shown(face) => push_shown(out, p, face),
        Reply::Work(items) => push_list_in(out, b"{\"worklist\":", p, items.as_slice()),
        Reply::WhatIf(cases) => push_list_in(out, b"{\"what_if\":", p, cases.as_slice()),
        Reply::Denied(denial) => push_denied(out, p, denial),
        Reply::Again { rounds, at } => push_again(out, *rounds, *at),
        Reply::NoMemory => push(out, b"\"no_memory\""),
        Reply::Bad(bad) => push_bad(out, *bad),
    }
}

fn push_granted(out: &mut Vec<u8>, p: &Policy, plan: &Plan) -> Result<(), AllocError>
    ensures { OnOk result (out.new.items ≡ out.old.items ++ compact_text
        (reply_data p.now (Reply.Granted plan.now))) }
{
    push(out, b"{\"granted\":{\"plan\":")?;
    push_users(out, p, plan)?;
    push(out, b"}}")?;
    Ok(())
}

/// Adds the names of a plan's users.
pub(crate) fn push_users(out: &mut Vec<u8>, p: &Policy, plan: &Plan) -> Result<(), AllocError>
    ensures { OnOk result (out.new.items ≡ out.old.items ++ compact_text
        (plan_data p.now.roster.users plan.now)) }
{
    push_plan(out, p.roster().users(), plan)
}

#[tactic(auto, unfolding(json::specs::Print::escape_byte))]
fn push_finished(out: &mut Vec<u8>, done: bool) -> Result<(), AllocError>
    ensures { OnOk result (out.new.items ≡ out.old.items ++ compact_text
        (single (codes "finished") (single (codes "done") (boolean done)))) }
{
    if done {
        push(out, b"{\"finished\":{\"done\":true}}")
    } else {
        push(out, b"{\"finished\":{\"done\":false}}")
    }
}

fn push_opened(out: &mut Vec<u8>, p: &Policy, case: CaseId, plan: &Plan) -> Result<(), AllocError>
    ensures { OnOk result (out.new.items ≡ out.old.items ++ compact_text
        (reply_data p.now (Reply.Opened case plan.now))) }
{
    push_case(out, b"{\"opened\":{\"case\":", case)?;
    push(out, b",\"plan\":")?;
    push_users(out, p, plan)?;
    push(out, b"}}")?;
    Ok(())
}

fn push_edited(out: &mut Vec<u8>, n: u32) -> Result<(), AllocError>
    ensures { OnOk result (out.new.items ≡ out.old.items ++ compact_text
        (single (codes "edited") (single (codes "number") (number (unsigned n))))) }
{
    push_number(out, b"{\"edited\":{\"number\":", n)?;
    push(out, b"}}")?;
    Ok(())
}

fn push_again(out: &mut Vec<u8>, rounds: u8, at: u32) -> Result<(), AllocError>
    ensures { OnOk result (out.new.items ≡ out.old.items ++ compact_text
        (single (codes "again") (again_data rounds at))) }
{
    push_number(out, b"{\"again\":{\"at\":", at)?;
    push_number(out, b",\"rounds\":", rounds as u32)?;
    push(out, b"}}")?;
    Ok(())
}

#[tactic(auto, unfolding(json::specs::Print::escape_byte))]
fn push_bad(out: &mut Vec<u8>, bad: Bad) -> Result<(), AllocError>
    ensures { OnOk result (out.new.items ≡ out.old.items ++ compact_text
        (single (codes "bad") (bad_data bad))) }
{
    match bad {
        Bad::Syntax => push(out, b"{\"bad\":\"syntax\"}"),
        Bad::Object => push(out, b"{\"bad\":\"object\"}"),
        Bad::Do => push(out, b"{\"bad\":\"do\"}"),
        Bad::Lane => push(out, b"{\"bad\":\"lane\"}"),
        Bad::Key(key) => push_bad_key(out, &key),
        Bad::Extra => push(out, b"{\"bad\":\"extra\"}"),
    }
}

fn push_bad_key(out: &mut Vec<u8>, key: &Name) -> Result<(), AllocError>
    ensures { OnOk result (out.new.items ≡ out.old.items ++ compact_text
        (single (codes "bad") (bad_data (Bad.Key key.now)))) }
{
    push(out, b"{\"bad\":{\"key\":")?;
    push_quoted(out, key)?;
    push(out, b"}}")?;
    Ok(())
}

// Adds what is to be seen of a case.
fn push_shown(out: &mut Vec<u8>, p: &Policy, face: &Face) -> Result<(), AllocError>
    ensures { OnOk result (out.new.items ≡ out.old.items ++ compact_text
        (single (codes "view") (face_data p.now face.now))) }
{
    push(out, b"{\"view\":{\"flow\":")?;
    push_flow(out, p, face.flow)?;
    push(out, b",\"phase\":")?;
    push_phase(out, face.phase)?;
    push_list_in(out, b",\"steps\":", p, face.states.as_slice())?;
    push(out, b"}")?;
    Ok(())
}

/// Adds the name of a workflow.
pub(crate) fn push_flow(out: &mut Vec<u8>, p: &Policy, f: FlowId) -> Result<(), AllocError>
    ensures { OnOk result (out.new.items ≡ out.old.items ++ compact_text
        (named p.now.flow_names f)) }
{
    push_name(out, p.flows(), f.0 as u16)
}

#[tactic(auto, unfolding(json::specs::Print::escape_byte))]
fn push_phase(out: &mut Vec<u8>, phase: Phase) -> Result<(), AllocError>
    ensures { OnOk result (out.new.items ≡ out.old.items ++ compact_text (phase_data phase)) }
{
    match phase {
        Phase::Live => push(out, b"\"open\""),
        Phase::Done => push(out, b"\"done\""),
        Phase::Withdrawn => push(out, b"\"withdrawn\""),
    }
}

impl Item for StepState {
    ghost item_data = { seen_data };

    fn push_item(&self, out: &mut Vec<u8>, p: &Policy) -> Result<(), AllocError> {
        push_seen(out, p, *self)
    }
}

#[tactic(auto, unfolding(json::specs::Print::escape_byte))]
fn push_seen(out: &mut Vec<u8>, p: &Policy, state: StepState) -> Result<(), AllocError>
    ensures { OnOk result (out.new.items ≡ out.old.items ++ compact_text (seen_data p.now state)) }
{
    let users = p.roster().users();
    match state {
        StepState::Free => push(out, b"[\"free\"]"),
        StepState::Held(u) => push_name_in(out, b"[\"held\",", users, u.0, b"]"),
        StepState::Finished(u) => push_name_in(out, b"[\"finished\",", users, u.0, b"]"),
    }
}

fn push_denied(out: &mut Vec<u8>, p: &Policy, denial: &Denial) -> Result<(), AllocError>
    ensures { OnOk result (out.new.items ≡ out.old.items ++ compact_text
        (single (codes "denied") (denial_data p.now denial.now))) }
{
    push(out, b"{\"denied\":")?;
    push_denial(out, p, denial)?;
    push(out, b"}")?;
    Ok(())
}
