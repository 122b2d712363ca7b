//! Reading a line as a request.
ghost use Rattle.std.specs.Prelude.{◌≡◌, ◌++◌, IsTrue, IfOk, IfSome, Some, None, Err, false};
ghost use Rattle.std.specs.Prelude.{option_map, option_and_then, map, codes};
ghost use Rattle.basics.specs.Laws.Reading.{Gives, or_fault, check};
ghost use Rattle.wf_names.specs.Names.{is_name};
ghost use Rattle.wf_talk.specs.declared.request.Bad.TheVariants as bad;
ghost use Rattle.wire_json.specs.Requests as read;
ghost use Rattle.wire_json.specs.Values.{value_of};
ghost use Rattle.wire_json.specs.Objects.{data_of, members_in};
ghost use Rattle.wire_json.specs.Words.{act_by, reading_of_word};

use crate::change::{change_in, what_if_in};
use crate::flat::{Flat, may_be_json, read_flat};
use crate::object::Object;
use crate::plain::{Act, read_plain};
use crate::value::read_value;
use crate::word::Word;
use json::Scratch;
use std::alloc::{AllocError, Global};
use std::str;
use wf_names::{CASE_NUMBER_LIMIT, CaseId, Name};
use wf_talk::{Ask, Bad, Request};

/// What a line asks, and the lane that serves it. A bad line is of the first lane.
#[derive(Clone, Copy, PartialEq, Eq)]
pub struct Asked {
    pub lane: u8,
    pub ask: Ask,
}

/// A reader of requests. It keeps the memory that reading takes from line to line.
#[derive(Drop)]
pub struct RequestReader {
    alloc: Global,
    scratch: Scratch,
}

impl RequestReader {
    /// A reader that has no memory yet.
    pub fn new(alloc: Global) -> RequestReader {
        RequestReader {
            alloc,
            scratch: Scratch::new(alloc),
        }
    }

    /// What a line asks, and of which of `lanes` lanes. A line that is not exactly of the form of a
    /// request is bad, for the first cause in the order in which its parts are checked.
    pub fn read(&mut self, line: &[u8], lanes: u8) -> Result<Asked, AllocError>
        ensures { IfOk result (λ asked. asked ≡ read.asked_of lanes line.now) }
    {
        if let Some(asked) = read_plain(line, lanes) {
            return Ok(asked);
        }
        if let Some(asked) = read_parts(line, lanes, &mut self.scratch)? {
            return Ok(asked);
        }
        read_any(self.alloc, line, lanes, &mut self.scratch)
    }
}

/// What one line asks, as a reader of requests reads it.
pub fn read_request(alloc: Global, line: &[u8], lanes: u8) -> Result<Asked, AllocError>
    ensures { IfOk result (λ asked. asked ≡ read.asked_of lanes line.now) }
{
    RequestReader::new(alloc).read(line, lanes)
}

// What a line asks that is an object of a few texts and small numbers, or no JSON or no object, as
// far as its first part tells. None says nothing.
fn read_parts(line: &[u8], lanes: u8, scratch: &mut Scratch) -> Result<Option<Asked>, AllocError>
    ensures { IfOk result (λ o. IfSome o (λ asked. asked ≡ read.asked_of lanes line.now)) }
{
    let Ok(text) = str::from_utf8(line) else {
        return Ok(None);
    };
    let (flat, parts) = read_flat(text, scratch)?;
    match flat {
        Flat::Parts => Ok(Some(asked_in(&Object::Parts(parts.as_slice()), lanes))),
        Flat::NoObject => Ok(Some(bad_line(Bad::Object))),
        Flat::NoJson => Ok(Some(bad_line(Bad::Syntax))),
        Flat::Other => Ok(None),
    }
}

// What a line of any form asks. No value is made of one that is no JSON.
#[tactic(auto, unfolding(crate::specs::Requests::asked_of))]
fn read_any(
    alloc: Global,
    line: &[u8],
    lanes: u8,
    scratch: &mut Scratch,
) -> Result<Asked, AllocError>
    ensures { IfOk result (λ asked. asked ≡ read.asked_of lanes line.now) }
{
    if !may_be_value(line, scratch)? {
        return Ok(bad_line(Bad::Syntax));
    }
    let Some(value) = read_value(alloc, line)? else {
        return Ok(bad_line(Bad::Syntax));
    };
    Ok(asked_in(&Object::Value(&value), lanes))
}

// Whether a line may be a value of JSON: where it is false, it is none.
#[tactic(auto, unfolding(crate::specs::Values::value_of))]
fn may_be_value(line: &[u8], scratch: &mut Scratch) -> Result<bool, AllocError>
    ensures { IfOk result (λ b. b ≡ false → value_of line.now ≡ None) }
{
    match str::from_utf8(line) {
        Ok(text) => may_be_json(text, scratch),
        Err(_) => Ok(false),
    }
}

fn asked_in(object: &Object<'_>, lanes: u8) -> Asked
    ensures { result ≡ read.asked (read.request_in lanes (data_of object.now)) }
{
    match request_in(object, lanes) {
        Ok(asked) => asked,
        Err(bad) => bad_line(bad),
    }
}

fn bad_line(bad: Bad) -> Asked
    ensures { result ≡ read.asked (Err bad) }
{
    Asked {
        lane: 0,
        ask: Ask::Bad(bad),
    }
}

#[tactic(auto, unfolding(crate::specs::Requests::request_in))]
fn request_in(object: &Object<'_>, lanes: u8) -> Result<Asked, Bad>
    ensures { Gives Some (λ a. a) result (read.request_in lanes (data_of object.now)) }
{
    object.is_object()?;
    let word = word_in(object)?;
    let lane = lane_in(object, lanes)?;
    let request = request_named(word, object)?;
    Ok(Asked {
        lane,
        ask: Ask::Request(request),
    })
}

// The word at the key do.
fn word_in(object: &Object<'_>) -> Result<Word, Bad>
    ensures { Gives Some reading_of_word result
        (or_fault (option_and_then read.reading_of (read.text_at (codes "do") (data_of object.now)))
        bad.Do) }
{
    let Some(text) = object.text_at("do") else {
        return Err(Bad::Do);
    };
    match Word::read(text) {
        Some(word) => Ok(word),
        None => Err(Bad::Do),
    }
}

// The lane at the key lane, or the first one.
fn lane_in(object: &Object<'_>, lanes: u8) -> Result<u8, Bad>
    ensures { Gives Some (λ n. n) result
        (or_fault (read.lane_at lanes (data_of object.now)) bad.Lane) }
{
    if !object.has("lane") {
        return Ok(0);
    }
    match object.number_at("lane") {
        Some(n) if n < lanes as u64 => Ok(n as u8),
        _ => Err(Bad::Lane),
    }
}

fn request_named(word: Word, object: &Object<'_>) -> Result<Request, Bad>
    ensures { Gives Some (λ r. r) result (reading_of_word word (data_of object.now)
        (members_in (data_of object.now))) }
{
    match word {
        Word::Open => open_in(object),
        Word::Claim => act_in(Act::Claim, object),
        Word::Finish => act_in(Act::Finish, object),
        Word::GiveBack => act_in(Act::GiveBack, object),
        Word::Release => release_in(object),
        Word::Withdraw => withdraw_in(object),
        Word::View => view_in(object),
        Word::Worklist => worklist_in(object),
        Word::WhatIf => what_if_in(object),
        Word::Change(edit) => change_in(edit, object),
    }
}

#[tactic(auto, unfolding(crate::specs::Requests::request_by, wf_names::specs::Names::is_name))]
fn open_in(object: &Object<'_>) -> Result<Request, Bad>
    ensures { Gives Some (λ r. r) result (reading_of_word Word.Open (data_of object.now)
        (members_in (data_of object.now))) }
{
    let flow = name_at(object, "flow")?;
    no_others(object, &["do", "lane"], &["flow"])?;
    Ok(Request::OpenCase { flow })
}

// What a user asks of a step.
#[tactic(auto, unfolding(wf_names::specs::Names::is_name))]
fn act_in(act: Act, object: &Object<'_>) -> Result<Request, Bad>
    ensures { Gives Some (λ r. r) result (act_by act (data_of object.now)
        (members_in (data_of object.now))) }
{
    let case = read_case(object)?;
    let step = name_at(object, "step")?;
    let user = name_at(object, "user")?;
    no_others(object, &["do", "lane"], &["case", "step", "user"])?;
    Ok(act.request(case, step, user))
}

#[tactic(auto, unfolding(wf_names::specs::Names::is_name))]
fn release_in(object: &Object<'_>) -> Result<Request, Bad>
    ensures { Gives Some (λ r. r) result (reading_of_word Word.Release (data_of object.now)
        (members_in (data_of object.now))) }
{
    let by = name_at(object, "by")?;
    let case = read_case(object)?;
    let step = name_at(object, "step")?;
    no_others(object, &["do", "lane"], &["by", "case", "step"])?;
    Ok(Request::Release { by, case, step })
}

#[tactic(auto, unfolding(wf_names::specs::Names::is_name))]
fn withdraw_in(object: &Object<'_>) -> Result<Request, Bad>
    ensures { Gives Some (λ r. r) result (reading_of_word Word.Withdraw (data_of object.now)
        (members_in (data_of object.now))) }
{
    let by = name_at(object, "by")?;
    let case = read_case(object)?;
    no_others(object, &["do", "lane"], &["by", "case"])?;
    Ok(Request::Withdraw { by, case })
}

#[tactic(auto, unfolding(crate::specs::Requests::request_by, wf_names::specs::Names::is_name))]
fn view_in(object: &Object<'_>) -> Result<Request, Bad>
    ensures { Gives Some (λ r. r) result (reading_of_word Word.View (data_of object.now)
        (members_in (data_of object.now))) }
{
    let case = read_case(object)?;
    no_others(object, &["do", "lane"], &["case"])?;
    Ok(Request::Show { case })
}

#[tactic(auto, unfolding(crate::specs::Requests::request_by, wf_names::specs::Names::is_name))]
fn worklist_in(object: &Object<'_>) -> Result<Request, Bad>
    ensures { Gives Some (λ r. r) result (reading_of_word Word.Worklist (data_of object.now)
        (members_in (data_of object.now))) }
{
    let user = name_at(object, "user")?;
    no_others(object, &["do", "lane"], &["user"])?;
    Ok(Request::Worklist { user })
}

// The number of the case, at the key case.
#[tactic(auto, unfolding(wf_names::specs::Names::is_name))]
fn read_case(object: &Object<'_>) -> Result<CaseId, Bad>
    ensures { Gives Some (λ n. n) result (or_fault (read.read_case (data_of object.now))
        (bad.Key read.case)) }
{
    match object.number_at("case") {
        Some(n) if n <= CASE_NUMBER_LIMIT as u64 => Ok(CaseId(n as u16)),
        _ => Err(key_fault("case")),
    }
}

/// The name at a key.
pub(crate) fn name_at(object: &Object<'_>, key: &str) -> Result<Name, Bad>
    requires { IsTrue (is_name key.now) }
    ensures { Gives Some (λ n. n) result (or_fault (read.name_at_key key.now (data_of object.now))
        (bad.Key key.now)) }
{
    let Some(text) = object.text_at(key) else {
        return Err(key_fault(key));
    };
    match Name::read(text) {
        Some(name) => Ok(name),
        None => Err(key_fault(key)),
    }
}

/// The fault of a key.
pub(crate) fn key_fault(key: &str) -> Bad
    requires { IsTrue (is_name key.now) }
    ensures { result ≡ bad.Key key.now }
{
    Bad::Key(Name::read(key).unwrap())
}

/// Refuses an object with another key than these.
pub(crate) fn no_others(object: &Object<'_>, others: &[&str], keys: &[&str]) -> Result<(), Bad>
    ensures { Gives Some (λ u. u) result (check
        (read.has_only (map (λ k. k.now) others.now ++ map (λ k. k.now) keys.now)
        (members_in (data_of object.now))) bad.Extra) }
{
    if object.has_only(others, keys) {
        Ok(())
    } else {
        Err(Bad::Extra)
    }
}
