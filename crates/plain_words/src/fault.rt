//! The first fault of a policy file in words, with its place.

use crate::culprit::faulty_rule;
use crate::marks::{Marked, marks_of};
use crate::nearest::{is_key, nearest_key, nearest_word};
use crate::place::{Keys, Span, keys_of, place_of};
use crate::shown::{push_shown, spot_of};
use crate::texts::{joined, say};
use policy_reader::{PolicyFault, PolicyKind, PolicyPart};
use std::alloc::{AllocError, Global};
use toml::Table;
use wf_names::Name;

/// What is wrong with a policy file of this name, by the fault that its reader found: the place,
/// the kind, the words, and the line. The place is where the fault seems to be, by what it names.
pub fn fault_text(
    alloc: Global,
    file: &str,
    bytes: &[u8],
    fault: &PolicyFault,
) -> Result<String, AllocError> {
    match std::str::from_utf8(bytes) {
        Ok(text) => text_fault(alloc, file, text, fault),
        Err(e) => {
            let place = place_text(alloc, file, bytes, e.valid_up_to())?;
            let words = "syntax: the file is no UTF-8 from here on\n";
            joined(alloc, &[place.as_str(), words])
        }
    }
}

// The file, the line and the column of a place, as `pay.toml:3:14: `.
fn place_text(alloc: Global, file: &str, text: &[u8], at: usize) -> Result<String, AllocError> {
    let spot = spot_of(text, at);
    format!(in alloc; "{file}:{}:{}: ", spot.line, spot.column)
}

fn text_fault(
    alloc: Global,
    file: &str,
    text: &str,
    fault: &PolicyFault,
) -> Result<String, AllocError> {
    match toml::table_from_str(alloc, text) {
        Ok(table) => table_fault(alloc, file, text, &table, fault),
        Err(e) => match e.span() {
            Some(range) => {
                let span = Span {
                    start: range.start,
                    end: range.end,
                };
                told(alloc, file, text, span, "syntax", e.message())
            }
            None => Err(AllocError),
        },
    }
}

fn table_fault(
    alloc: Global,
    file: &str,
    text: &str,
    table: &Table,
    fault: &PolicyFault,
) -> Result<String, AllocError> {
    let mut keys = keys_of(table, fault);
    keys.rule = faulty_rule(alloc, text, keys.item, fault)?;
    let marks = marks_of(alloc, text.as_bytes())?;
    let marked = Marked {
        text: text.as_bytes(),
        marks: &marks,
    };
    marked_fault(alloc, file, text, marked, keys, fault)
}

fn marked_fault(
    alloc: Global,
    file: &str,
    text: &str,
    marked: Marked<'_>,
    keys: Keys<'_>,
    fault: &PolicyFault,
) -> Result<String, AllocError> {
    let span = place_of(marked, keys, fault);
    let words = words_of(alloc, marked, keys, fault)?;
    told(alloc, file, text, span, fault.kind.word(), words.as_str())
}

fn told(
    alloc: Global,
    file: &str,
    text: &str,
    span: Span,
    kind: &str,
    words: &str,
) -> Result<String, AllocError> {
    let mut out = place_text(alloc, file, text.as_bytes(), span.start)?;
    say(&mut out, &[kind, ": ", words, "\n"])?;
    push_shown(&mut out, text, span)?;
    Ok(out)
}

// What is wrong, and where by name.
fn words_of(
    alloc: Global,
    marked: Marked<'_>,
    keys: Keys<'_>,
    fault: &PolicyFault,
) -> Result<String, AllocError> {
    let mut out = String::new(alloc);
    push_kind(&mut out, fault)?;
    push_part(&mut out, keys, fault)?;
    push_meant(&mut out, marked, fault)?;
    Ok(out)
}

// The part of the file that a fault is in.
fn push_part(out: &mut String, keys: Keys<'_>, fault: &PolicyFault) -> Result<(), AllocError> {
    let (front, item) = (part_front(fault), name_or_none(keys.item));
    let item = if front.is_empty() { "" } else { item };
    let part = if item.is_empty() {
        whole_part(fault)
    } else {
        front
    };
    match keys.rule.checked_sub(1) {
        Some(k) => write!(out, ", in rule {k} of {part}{item}"),
        None => write!(out, ", in {part}{item}"),
    }
}

// What stands before the name of an item; empty where items of the part have none.
fn part_front(fault: &PolicyFault) -> &'static str {
    match fault.table {
        PolicyPart::Users => "the user ",
        PolicyPart::Relations => "the relation ",
        PolicyPart::Flows => "the workflow ",
        _ => "",
    }
}

// The part of a fault that is not in one item.
fn whole_part(fault: &PolicyFault) -> &'static str {
    match (fault.table, fault.kind) {
        (PolicyPart::File, _) | (_, PolicyKind::Missing) => "the file",
        _ => fault.table.word(),
    }
}

// A key that is of a name's form; what is not is not told.
fn name_or_none(key: &str) -> &str {
    match Name::read(key) {
        Some(_) => key,
        None => "",
    }
}

// Adds the name that was probably meant in place of one that is not known.
fn push_meant(out: &mut String, marked: Marked<'_>, fault: &PolicyFault) -> Result<(), AllocError> {
    match fault.name {
        Some(name) => {
            let meant = meant_by(*out.allocator(), marked, fault.kind, name.as_str())?;
            push_near(out, fault.kind, meant)
        }
        None => Ok(()),
    }
}

fn push_near(out: &mut String, kind: PolicyKind, meant: &str) -> Result<(), AllocError> {
    let is_missing = matches!(kind, PolicyKind::Missing);
    if meant.is_empty() || is_missing && is_key(meant) {
        Ok(())
    } else if is_missing {
        say(out, &["; there is \"", meant, "\""])
    } else {
        say(out, &[". Did you mean \"", meant, "\"?"])
    }
}

// The name that was probably meant by another one; empty where none is near.
fn meant_by<'a>(
    alloc: Global,
    marked: Marked<'a>,
    kind: PolicyKind,
    name: &str,
) -> Result<&'a str, AllocError> {
    match kind {
        PolicyKind::Unknown | PolicyKind::Missing => nearest_word(alloc, marked, name),
        PolicyKind::Extra => nearest_key(alloc, name),
        _ => Ok(""),
    }
}

fn push_kind(out: &mut String, fault: &PolicyFault) -> Result<(), AllocError> {
    match fault.name {
        Some(name) => push_named(out, fault.kind, name.as_str()),
        None if matches!(fault.kind, PolicyKind::Shape) => out.push_str(shape_words(fault.table)),
        None => out.push_str(bare_words(fault.kind)),
    }
}

// What has to be there in place of a value of another type.
fn shape_words(part: PolicyPart) -> &'static str {
    match part {
        PolicyPart::File => "the format has to be an integer, and the admin role a text",
        PolicyPart::Roles => "the roles have to be a list of texts",
        PolicyPart::Users => "each user has to have a list of roles",
        PolicyPart::Relations => "a relation has to have either pairs of users or a complement",
        PolicyPart::Flows => bare_words(PolicyKind::Shape),
    }
}

// Adds what is wrong with what has this name.
fn push_named(out: &mut String, kind: PolicyKind, name: &str) -> Result<(), AllocError> {
    let (front, end) = around(kind);
    write!(out, "{front}{name}{end}")
}

// What stands before and behind the name that something is wrong with.
fn around(kind: PolicyKind) -> (&'static str, &'static str) {
    match kind {
        PolicyKind::Missing => ("the key \"", "\" is not there"),
        PolicyKind::Twice => ("\"", "\" stands twice"),
        PolicyKind::Unknown => ("\"", "\" is declared nowhere"),
        PolicyKind::Reserved => ("\"", "\" is built in, and a relation needs another name"),
        PolicyKind::Chain => ("\"", "\" lists no pairs, since it is a complement itself"),
        PolicyKind::Extra => ("the key \"", "\" has no meaning here"),
        PolicyKind::Cycle => ("the step \"", "\" would come before itself"),
        _ => (" (\"", "\")"),
    }
}

// What is wrong, where nothing has a name.
fn bare_words(kind: PolicyKind) -> &'static str {
    match kind {
        PolicyKind::Syntax => "this is no TOML",
        PolicyKind::Missing => "a key is not there",
        PolicyKind::Shape => "a value is of another type than it has to be",
        PolicyKind::Version => "this program reads the formats 1 and 2",
        PolicyKind::Name => "this is no name: 1 to 40 of a-z, 0-9 and _, a letter first",
        PolicyKind::Empty => "there has to be at least one item",
        PolicyKind::TooMany => "there are more items than there may be",
        PolicyKind::Twice => "an item stands twice",
        PolicyKind::Unknown => "this text is declared nowhere",
        PolicyKind::NoAdmin => "nobody holds the role that administers the policy",
        PolicyKind::Reserved => "the name of a relation is built in",
        PolicyKind::Chain => "a complement is that of a complement",
        PolicyKind::Extra => "a key has no meaning here",
        PolicyKind::Cycle => "a step would come before itself",
        PolicyKind::Form => "a rule has no form that the file's format has",
        PolicyKind::Range => {
            "the limit of a rule is below 1, or above the number of the steps of its group"
        }
    }
}
