//! The object that a request is read from, looked into by its keys.
ghost use Rattle.std.specs.Prelude.{◌≡◌, ◌++◌, map, nat_eq, Some, option_map, is_some};
ghost use Rattle.std.specs.List.{list_any};
ghost use Rattle.std.specs.Cmp.Lexicographic.{pointwise};
ghost use Rattle.serde_json.specs.Data.{object};
ghost use Rattle.serde_json.specs.View.{view, members_view};
ghost use Rattle.serde_json.specs.Find.{get, as_object};
ghost use Rattle.basics.specs.Laws.Reading.{Gives, or_fault};
ghost use Rattle.wf_talk.specs.declared.request.Bad.TheVariants as bad;
ghost use Rattle.wire_json.specs.Requests as read;
ghost use Rattle.wire_json.specs.Objects.{data_of, members_in, members_of};

use crate::flat::{Part, Worth, worth_at};
use serde_json::{Map, Value};
use wf_talk::Bad;

/// A value of JSON, or the parts of an object that was read without one.
#[derive(Clone, Copy)]
pub(crate) enum Object<'v> {
    Value(&'v Value),
    Parts(&'v [Part<'v>]),
}

impl Object<'_> {
    /// Refuses a value that is no object.
    pub(crate) fn is_object(&self) -> Result<(), Bad>
        ensures { Gives Some (λ _. members_in (data_of self.now)) result
            (or_fault (as_object (data_of self.now)) bad.Object) }
    {
        match self {
            Object::Value(value) if value.as_object().is_none() => Err(Bad::Object),
            _ => Ok(()),
        }
    }

    /// Whether anything stands at a key.
    pub(crate) fn has(&self, key: &str) -> bool
        ensures { result ≡ is_some (get key.now (data_of self.now)) }
    {
        match self {
            Object::Value(value) => value.get(key).is_some(),
            Object::Parts(parts) => worth_at(parts, key).is_some(),
        }
    }

    /// The number at a key.
    pub(crate) fn number_at(&self, key: &str) -> Option<u64>
        ensures { result ≡ read.number_at key.now (data_of self.now) }
    {
        match self {
            Object::Value(value) => value.get(key).and_then(Value::as_u64),
            Object::Parts(parts) => number_in(parts, key),
        }
    }

    /// The text at a key.
    pub(crate) fn text_at(&self, key: &str) -> Option<&str>
        ensures { option_map (λ t. t.now) result ≡ read.text_at key.now (data_of self.now) }
    {
        match self {
            Object::Value(value) => value.get(key).and_then(Value::as_str),
            Object::Parts(parts) => text_in(parts, key),
        }
    }

    /// Whether each key is one of `others` or of `keys`.
    pub(crate) fn has_only(&self, others: &[&str], keys: &[&str]) -> bool
        ensures { result ≡ read.has_only (map (λ k. k.now) others.now ++ map (λ k. k.now) keys.now)
            (members_in (data_of self.now)) }
    {
        match self {
            Object::Value(value) => value_has_only(value, others, keys),
            Object::Parts(parts) => parts_have_only(parts, others, keys),
        }
    }
}

fn number_in(parts: &[Part<'_>], key: &str) -> Option<u64>
    ensures { result ≡ read.number_at key.now (object (members_of parts.now)) }
{
    match worth_at(parts, key) {
        Some(Worth::Number(n)) => Some(n as u64),
        _ => None,
    }
}

fn text_in<'v>(parts: &[Part<'v>], key: &str) -> Option<&'v str>
    ensures { option_map (λ t. t.now) result
        ≡ read.text_at key.now (object (members_of parts.now)) }
{
    match worth_at(parts, key) {
        Some(Worth::Text(text)) => Some(text),
        _ => None,
    }
}

fn value_has_only(value: &Value, others: &[&str], keys: &[&str]) -> bool
    ensures { result ≡ read.has_only (map (λ k. k.now) others.now ++ map (λ k. k.now) keys.now)
        (members_in (view value.now)) }
{
    match value.as_object() {
        Some(members) => members_have_only(members, others, keys),
        None => true,
    }
}

fn members_have_only(members: &Map<String, Value>, others: &[&str], keys: &[&str]) -> bool
    ensures { result ≡ read.has_only (map (λ k. k.now) others.now ++ map (λ k. k.now) keys.now)
        (members_view members.now.entries) }
{
    'members: for (key, _value) in members {
        if !is_either(others, keys, key.as_str()) {
            return false;
        }
    }
    true
}

fn parts_have_only(parts: &[Part<'_>], others: &[&str], keys: &[&str]) -> bool
    ensures { result ≡ read.has_only (map (λ k. k.now) others.now ++ map (λ k. k.now) keys.now)
        (members_of parts.now) }
{
    'parts: for part in parts {
        if !is_either(others, keys, part.key) {
            return false;
        }
    }
    true
}

// Whether `text` is one of `texts` or of `others`.
#[tactic(auto, using(crate::proofs::Keys::any_of_both))]
fn is_either(texts: &[&str], others: &[&str], text: &str) -> bool
    ensures { result ≡ list_any (pointwise nat_eq text.now)
        (map (λ t. t.now) texts.now ++ map (λ t. t.now) others.now) }
{
    is_among(texts, text) || is_among(others, text)
}

// Whether `text` is one of `texts`.
fn is_among(texts: &[&str], text: &str) -> bool
    ensures { result ≡ list_any (pointwise nat_eq text.now) (map (λ t. t.now) texts.now) }
{
    'texts: for word in texts {
        if is_same(text, word) {
            return true;
        }
    }
    false
}

/// Whether two texts are the same. Keys are short, and most differ in their first byte.
pub(crate) fn is_same(a: &str, b: &str) -> bool
    ensures { result ≡ pointwise nat_eq a.now b.now }
{
    are_same(a.as_bytes(), b.as_bytes())
}

#[inline(always)]
fn are_same(a: &[u8], b: &[u8]) -> bool
    ensures { result ≡ pointwise nat_eq a.now b.now }
{
    if a.len() != b.len() {
        return false;
    }
    'bytes: for i in 0..a.len() {
        if a[i] != b[i] {
            return false;
        }
    }
    true
}
