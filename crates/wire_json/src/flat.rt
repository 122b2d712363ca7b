//! Reading an object of a few texts and small numbers without making a value of it.
ghost use Rattle.std.specs.Prelude.{◌≡◌, ◌≢◌, ◌<◌, List, [], ◌∷◌, ◌++◌, length, false, IfOk};
ghost use Rattle.std.specs.Prelude.{IfErr, OnOk, OnErr, MatchBool, Option, None, Some, Err};
ghost use Rattle.std.specs.Prelude.{decimal, option_map};
ghost use Rattle.json.specs.Token.{begin_object};
ghost use Rattle.json.specs.Token.{Token as SpecToken};
ghost use Rattle.json.specs.Json.{Json, value, read_key};
ghost use Rattle.serde_json.specs.Data.{Data};
ghost use Rattle.serde_json.specs.Read.{read, of_json, converted, max_depth};
ghost use Rattle.serde_json.specs.Find.{get_member, as_object};
ghost use Rattle.wire_json.specs.declared.flat.Part.{Part as SpecPart};
ghost use Rattle.wire_json.specs.Objects.{worth_data, members_of};
ghost use Rattle.wire_json.specs.Flats.{whole, members_behind, IsFlat};

use crate::object::is_same;
use crate::plain::guess_number;
use arrayvec::ArrayVec;
use itoa::Buffer;
use json::{Reader, Scratch, Token};
use std::alloc::AllocError;

// How deep arrays and objects may nest.
const MAX_DEPTH: usize = 127;

/// What stands at a key.
#[derive(Clone, Copy)]
pub(crate) enum Worth<'t> {
    Text(&'t str),
    Number(u16),
}

/// A key, and what stands at it.
#[derive(Clone, Copy)]
pub(crate) struct Part<'t> {
    pub(crate) key: &'t str,
    pub(crate) worth: Worth<'t>,
}

impl Default for Part<'_> {
    fn default() -> Self {
        Part {
            key: "",
            worth: Worth::Number(0),
        }
    }
}

/// The parts of an object, in the order in which they stand.
pub(crate) type Parts<'t> = ArrayVec<Part<'t>, 8>;

/// What a text is.
#[derive(Clone, Copy)]
pub(crate) enum Flat {
    /// An object of a few texts and small numbers, of which the parts are known.
    Parts,
    /// A value that is no object.
    NoObject,
    /// No JSON.
    NoJson,
    /// Anything: it is not read further.
    Other,
}

/// Why parts of an object are not read.
#[derive(Clone, Copy)]
pub(crate) enum Unread {
    /// What comes next is no JSON.
    NoJson,
    /// Something else than texts and small numbers comes next, or there are too many parts.
    Other,
}

/// What a text is, read without making a value of it, and the parts of an object.
pub(crate) fn read_flat<'t>(
    text: &'t str,
    scratch: &'t mut Scratch,
) -> Result<(Flat, Parts<'t>), AllocError>
    ensures { IfOk result (λ p. IsFlat p.0 p.1.items (read text.now)) }
{
    let mut reader = Reader::new(text, scratch)?;
    let mut parts = Parts::new();
    let flat = read_tokens(&mut reader, &mut parts);
    Ok((flat, parts))
}

/// Whether a text may be JSON: where it is false, it is none.
pub(crate) fn may_be_json(text: &str, scratch: &mut Scratch) -> Result<bool, AllocError>
    ensures { IfOk result (λ b. b ≡ false → read text.now ≡ None) }
{
    let mut reader = Reader::new(text, scratch)?;
    match reader.skip_value(MAX_DEPTH) {
        Ok(()) => Ok(is_over(&mut reader)),
        Err(_) => Ok(false),
    }
}

fn read_tokens<'t>(reader: &mut Reader<'t>, parts: &mut Parts<'t>) -> Flat
    ensures { IsFlat result parts.new.items (whole (value max_depth reader.old)) }
{
    let Some(token) = reader.next() else {
        return Flat::NoJson;
    };
    match token {
        Token::BeginObject => read_object(reader, parts),
        Token::String(_) => no_object(reader),
        Token::Bool(_) => no_object(reader),
        Token::Null => no_object(reader),
        Token::Number(_) | Token::BeginArray => Flat::Other,
        Token::EndObject | Token::EndArray | Token::Key(_) | Token::Bad => Flat::NoJson,
    }
}

// A value that is no object, where no token follows it.
fn no_object(reader: &mut Reader<'_>) -> Flat
    ensures { (ps : List SpecPart) (d : Data) (o : Option (Json × List SpecToken))
        → as_object d ≡ None → converted of_json o ≡ Some (d, reader.old)
        → IsFlat result ps (whole o) }
{
    if is_over(reader) {
        Flat::NoObject
    } else {
        Flat::NoJson
    }
}

// An object that has begun.
fn read_object<'t>(reader: &mut Reader<'t>, parts: &mut Parts<'t>) -> Flat
    ensures { IsFlat result parts.new.items (whole (value max_depth (begin_object ∷ reader.old))) }
{
    match read_parts(reader, parts) {
        Ok(()) => {
            if is_over(reader) {
                Flat::Parts
            } else {
                Flat::NoJson
            }
        }
        Err(Unread::NoJson) => Flat::NoJson,
        Err(Unread::Other) => Flat::Other,
    }
}

// Whether no token follows.
fn is_over(reader: &mut Reader<'_>) -> bool
    ensures { MatchBool result (reader.old ≡ []) (reader.old ≢ []) }
{
    reader.next().is_none()
}

// The parts up to the end of an object that has begun.
fn read_parts<'t>(reader: &mut Reader<'t>, parts: &mut Parts<'t>) -> Result<(), Unread>
    ensures parts { OnOk result (members_behind reader.old
        ≡ Some (members_of parts.new.items, reader.new)) }
    ensures no_json { result ≡ Err Unread.NoJson → members_behind reader.old ≡ None }
{
    parts.clear();
    'parts: while let Some(key) = next_key(reader)? {
        let worth = read_worth(reader)?;
        add_part(parts, Part { key, worth })?;
    }
    Ok(())
}

// The key that comes next, or None at the end of the object.
fn next_key<'t>(reader: &mut Reader<'t>) -> Result<Option<&'t str>, Unread>
    ensures key { IfOk result (λ k. read_key reader.old
        ≡ Some (option_map (λ s. s.now) k, reader.new)) }
    ensures none { OnErr result (read_key reader.old ≡ None) }
{
    match reader.next_key() {
        Ok(key) => Ok(key),
        Err(_) => Err(Unread::NoJson),
    }
}

fn add_part<'t>(parts: &mut Parts<'t>, part: Part<'t>) -> Result<(), Unread>
    ensures added { OnOk result (parts.new.items ≡ parts.old.items ++ part.entry ∷ []) }
    ensures other { IfErr result (λ e. e ≡ Unread.Other) }
{
    match parts.try_push(part) {
        Ok(()) => Ok(()),
        Err(_) => Err(Unread::Other),
    }
}

// The text or the number that comes next.
fn read_worth<'t>(reader: &mut Reader<'t>) -> Result<Worth<'t>, Unread>
    ensures value { IfOk result (λ w. converted of_json (value 126 reader.old)
        ≡ Some (worth_data w, reader.new)) }
    ensures no_json { result ≡ Err Unread.NoJson → converted of_json (value 126 reader.old)
        ≡ None }
    ensures shorter { OnOk result (length reader.new < length reader.old) }
{
    let Some(token) = reader.next() else {
        return Err(Unread::NoJson);
    };
    match token {
        Token::String(text) => Ok(Worth::Text(text)),
        Token::Number(text) => Ok(Worth::Number(number_of(text)?)),
        Token::BeginObject | Token::BeginArray | Token::Bool(_) | Token::Null => Err(Unread::Other),
        Token::EndObject | Token::EndArray | Token::Key(_) | Token::Bad => Err(Unread::NoJson),
    }
}

// The number that a text is, without a zero at its front.
fn number_of(text: &str) -> Result<u16, Unread>
    ensures text { IfOk result (λ n. text.now ≡ decimal n) }
    ensures small { IfOk result (λ n. n < 65536) }
    ensures other { IfErr result (λ e. e ≡ Unread.Other) }
{
    let n = guess_number(text.as_bytes());
    let mut digits = Buffer::new();
    if text == digits.format(n) {
        Ok(n)
    } else {
        Err(Unread::Other)
    }
}

/// What stands at a key of an object: of several the last.
pub(crate) fn worth_at<'t>(parts: &[Part<'t>], key: &str) -> Option<Worth<'t>>
    ensures { option_map worth_data result ≡ get_member key.now (members_of parts.now) }
{
    let mut found = None;
    'parts: for part in parts {
        if is_same(part.key, key) {
            found = Some(part.worth);
        }
    }
    found
}
