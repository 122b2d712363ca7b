//! Where a fault of a policy file stands. The place is looked up for a fault that was found
//! already; where several items could be meant, the first of them is taken.
ghost use Rattle.std.specs.Prelude.{◌<◌, length};

use crate::amiss::shape_place;
use crate::marks::{Mark, Marked};
use policy_reader::{PolicyFault, PolicyKind, PolicyPart};
use toml::{Table, Value};
use wf_names::Name;

/// A part of a text, by the numbers of its bytes.
#[derive(Clone, Copy)]
pub(crate) struct Span {
    pub start: usize,
    pub end: usize,
}

// The keys under which a fault lies: that of its table, that of its item there, and the number of
// its rule in a workflow, counted from 1; 0 where it is in none.
#[derive(Clone, Copy)]
pub(crate) struct Keys<'a> {
    pub table: &'a str,
    pub item: &'a str,
    pub rule: usize,
}

/// The keys of the part that has a fault; empty where there is none.
pub(crate) fn keys_of<'a>(file: &'a Table, fault: &PolicyFault) -> Keys<'a> {
    // Declared relations are numbered behind the two that are built in.
    let (table, built_in) = match fault.table {
        PolicyPart::File => ("", 0),
        PolicyPart::Roles => ("roles", 0),
        PolicyPart::Users => ("users", 0),
        PolicyPart::Relations => ("relations", 2),
        PolicyPart::Flows => ("flows", 0),
    };
    let item = match fault.kind {
        PolicyKind::NoAdmin => "",
        _ => key_at(file.get(table), fault.index.saturating_sub(built_in)),
    };
    Keys {
        table,
        item,
        rule: 0,
    }
}

// The key with a number in a table, in byte order.
fn key_at(value: Option<&Value>, n: u32) -> &str {
    match value {
        Some(Value::Table(table)) => match table.keys().nth(n as usize) {
            Some(key) => key.as_str(),
            None => "",
        },
        _ => "",
    }
}

/// The place that a fault is about: the item that it names, or what seems to be meant, and else the
/// key of its part.
pub(crate) fn place_of(marked: Marked<'_>, keys: Keys<'_>, fault: &PolicyFault) -> Span {
    match item_place(marked, keys, fault) {
        Some(span) => span,
        None => key_place(marked, keys),
    }
}

fn item_place(marked: Marked<'_>, keys: Keys<'_>, fault: &PolicyFault) -> Option<Span> {
    if matches!(fault.table, PolicyPart::Roles) {
        return role_place(marked, fault);
    }
    match fault.kind {
        PolicyKind::Version => value_of_key(marked, "format"),
        PolicyKind::NoAdmin => value_of_key(marked, "admin"),
        PolicyKind::Missing => None,
        PolicyKind::Name => first_bad(marked, keys),
        PolicyKind::Shape => shape_place(marked, keys),
        PolicyKind::Empty | PolicyKind::TooMany => list_place(marked, keys, fault.kind),
        PolicyKind::Range => named_mark(marked, keys, "limit", true),
        PolicyKind::Twice => second_place(marked, keys, fault.name),
        PolicyKind::Form => form_place(marked, keys),
        _ => match fault.name {
            Some(name) => named_place(marked, keys, name.as_str(), fault.kind),
            None => first_bad(marked, keys),
        },
    }
}

// The key of a workflow's list that is too short or too long: a rule's group, or the steps.
fn list_place(marked: Marked<'_>, keys: Keys<'_>, kind: PolicyKind) -> Option<Span> {
    match kind {
        PolicyKind::Empty if keys.rule > 0 => named_mark(marked, keys, "group", true),
        _ if keys.table == "flows" && keys.rule == 0 => { named_mark(marked, keys, "steps", true) }
        _ => None,
    }
}

// The role with the number of a fault, unless the fault is that of the list.
fn role_place(marked: Marked<'_>, fault: &PolicyFault) -> Option<Span> {
    if matches!(fault.kind, PolicyKind::Empty | PolicyKind::TooMany) {
        return None;
    }
    let mut place = 0u32;
    for mark in marked.marks {
        if is_value_of(marked, *mark, "roles") && is_at_top(marked.marks, *mark) {
            if place == fault.index {
                return Some(span_of(*mark));
            }
            place = place.saturating_add(1);
        }
    }
    None
}

// Whether a mark is a value of a key with this name.
fn is_value_of(marked: Marked<'_>, mark: Mark, key: &str) -> bool {
    !mark.is_key && is_named(marked.text, parent(marked.marks, mark), key)
}

// Whether the key of a mark stands at the top.
fn is_at_top(marks: &[Mark], mark: Mark) -> bool {
    match parent(marks, mark) {
        Some(above) => above.under == 0,
        None => false,
    }
}

// The key of a fault's item, or of its table; the front of the text where neither is there.
fn key_place(marked: Marked<'_>, keys: Keys<'_>) -> Span {
    let mut found = Span { start: 0, end: 0 };
    let mut depth = 0;
    for mark in marked.marks {
        let here = depth_under(marked, *mark, keys);
        if mark.is_key && here > depth {
            depth = here;
            found = span_of(*mark);
        }
    }
    if keys.rule == 0 || depth == 3 {
        return found;
    }
    // A rule without keys is only in its list.
    match named_mark(marked, Keys { rule: 0, ..keys }, "rules", true) {
        Some(list) => list,
        None => found,
    }
}

pub(crate) fn span_of(mark: Mark) -> Span {
    Span {
        start: mark.start,
        end: mark.end,
    }
}

// How many of the keys a mark is under, or is: 3 where it belongs to the rule, 2 to the item, 1 to
// the table.
fn depth_under(marked: Marked<'_>, mark: Mark, keys: Keys<'_>) -> u8 {
    let mut path = [None; 3];
    let mut now = mark;
    for _ in 0..marked.marks.len() {
        path[2] = path[1];
        path[1] = path[0];
        path[0] = Some(now);
        match parent(marked.marks, now) {
            Some(above) => now = above,
            None => break,
        }
    }
    if !is_named(marked.text, path[0], keys.table) {
        return 0;
    }
    if !is_named(marked.text, path[1], keys.item) {
        return 1;
    }
    let is_in_rule = is_named(marked.text, path[2], "rules")
        && mark.item == keys.rule
        && keys.rule > 0;
    if is_in_rule { 3 } else { 2 }
}

pub(crate) fn parent(marks: &[Mark], mark: Mark) -> Option<Mark> {
    if mark.under == 0 {
        return None;
    }
    match marks.get(mark.under - 1) {
        Some(above) => Some(*above),
        None => None,
    }
}

// Whether there is a mark whose text is this name, with quotes or without; the empty name is none.
fn is_named(text: &[u8], mark: Option<Mark>, name: &str) -> bool {
    match mark {
        Some(mark) => !name.is_empty() && words_at(text, mark) == name.as_bytes(),
        None => false,
    }
}

/// The bytes at a mark, without quotes.
pub(crate) fn words_at(text: &[u8], mark: Mark) -> &[u8] {
    let whole = match text.get(mark.start..mark.end) {
        Some(whole) => whole,
        None => return &[],
    };
    match whole {
        [b'"', inner @ .., b'"'] => inner,
        [b'\'', inner @ .., b'\''] => inner,
        _ => whole,
    }
}

// Whether a mark lies under the keys: all marks do where there are none.
pub(crate) fn is_within(marked: Marked<'_>, mark: Mark, keys: Keys<'_>) -> bool {
    let wanted = if keys.table.is_empty() {
        0
    } else if keys.item.is_empty() {
        1
    } else if keys.rule == 0 {
        2
    } else {
        3
    };
    depth_under(marked, mark, keys) >= wanted
}

// Under the keys, the value with this name that is no step's declaration, and else the key with it;
// of a key that has no meaning the other way round.
fn named_place(marked: Marked<'_>, keys: Keys<'_>, name: &str, kind: PolicyKind) -> Option<Span> {
    let is_key = matches!(kind, PolicyKind::Extra | PolicyKind::Reserved);
    match named_mark(marked, keys, name, is_key) {
        Some(span) => Some(span),
        None => named_mark(marked, keys, name, !is_key),
    }
}

fn named_mark(marked: Marked<'_>, keys: Keys<'_>, name: &str, is_key: bool) -> Option<Span> {
    for mark in marked.marks {
        if mark.is_key == is_key
            && is_named(marked.text, Some(*mark), name)
            && is_within(marked, *mark, keys)
            && !is_value_of(marked, *mark, "steps")
        {
            return Some(span_of(*mark));
        }
    }
    None
}

// Under the keys, where an item of this name, or a pair whose first it is, stands again in its
// list.
fn second_place(marked: Marked<'_>, keys: Keys<'_>, name: Option<Name>) -> Option<Span> {
    let name = name?;
    for i in 0..marked.marks.len() {
        let mark = marked.marks[i];
        if !mark.is_key
            && is_named(marked.text, Some(mark), name.as_str())
            && is_within(marked, mark, keys)
            && stands_before(marked, i)
        {
            return Some(span_of(mark));
        }
    }
    None
}

// Whether the item at a place, or the pair that begins there, stands earlier in the same list.
fn stands_before(marked: Marked<'_>, i: usize) -> bool
    requires { i < length marked.marks.now }
{
    let mark = marked.marks[i];
    let is_pair = is_value_of(marked, mark, "order") || is_value_of(marked, mark, "pairs");
    for j in mark.under..i {
        if marked.marks[j].under == mark.under && is_again(marked, j, i, is_pair) {
            return true;
        }
    }
    false
}

// Whether two items of a list are the same, or two pairs that begin there.
fn is_again(marked: Marked<'_>, j: usize, i: usize, is_pair: bool) -> bool
    requires before { j < i }
    requires there { i < length marked.marks.now }
{
    if words_at(marked.text, marked.marks[j]) != words_at(marked.text, marked.marks[i]) {
        return false;
    }
    if !is_pair {
        return true;
    }
    let under = marked.marks[i].under;
    let begins = i >= under && (i - under) % 2 == 0 && j >= under && (j - under) % 2 == 0;
    match (marked.marks.get(j + 1), marked.marks.get(i + 1)) {
        (Some(one), Some(other)) => begins
            && words_at(marked.text, *one) == words_at(marked.text, *other),
        _ => false,
    }
}

// Under the keys, the first form that no format has, or else that the first format lacks.
fn form_place(marked: Marked<'_>, keys: Keys<'_>) -> Option<Span> {
    match form_but(marked, keys, true) {
        Some(span) => Some(span),
        None => form_but(marked, keys, false),
    }
}

fn form_but(marked: Marked<'_>, keys: Keys<'_>, has_later: bool) -> Option<Span> {
    for mark in marked.marks {
        if is_value_of(marked, *mark, "form")
            && is_within(marked, *mark, keys)
            && !is_form(words_at(marked.text, *mark), has_later)
        {
            return Some(span_of(*mark));
        }
    }
    None
}

fn is_form(word: &[u8], has_later: bool) -> bool {
    is_one_of(word, &["pair", "some", "all"])
        || has_later && is_one_of(word, &["some_to", "all_to", "at_most", "at_least"])
}

/// Whether a word is one of these.
pub(crate) fn is_one_of(word: &[u8], words: &[&str]) -> bool {
    for one in words {
        if word == one.as_bytes() {
            return true;
        }
    }
    false
}

// Under the keys, the first key or text in quotes that is of no name's form.
fn first_bad(marked: Marked<'_>, keys: Keys<'_>) -> Option<Span> {
    for mark in marked.marks {
        if (mark.is_key || is_quoted(marked.text, mark.start))
            && !is_name(words_at(marked.text, *mark))
            && is_within(marked, *mark, keys)
        {
            return Some(span_of(*mark));
        }
    }
    None
}

pub(crate) fn is_quoted(text: &[u8], at: usize) -> bool {
    matches!(text.get(at), Some(b'"' | b'\''))
}

fn is_name(bytes: &[u8]) -> bool {
    match std::str::from_utf8(bytes) {
        Ok(text) => Name::read(text).is_some(),
        Err(_) => false,
    }
}

// What stands behind a key at the top.
pub(crate) fn value_of_key(marked: Marked<'_>, key: &str) -> Option<Span> {
    for mark in marked.marks {
        if is_value_of(marked, *mark, key) && is_at_top(marked.marks, *mark) {
            return Some(span_of(*mark));
        }
    }
    None
}
