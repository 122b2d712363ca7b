//! An entry, in one line or in several.

use crate::answers::{push_answer, push_reply};
use crate::asks::push_ask;
use crate::names::{NAMED, push_number};
use crate::refused::push_reasons;
use crate::told::Told;
use std::alloc::AllocError;
use wf_talk::{Entry, Reply};

/// Adds what was asked and answered, in one line without its end.
pub fn push_line(out: &mut String, told: &Told<'_>) -> Result<(), AllocError> {
    push_ask(out, &told.entry.ask)?;
    out.push_str(": ")?;
    push_answer(out, told)
}

/// Adds which edits were accepted before an entry, what was answered, and why.
pub fn push_entry(out: &mut String, told: &Told<'_>) -> Result<(), AllocError> {
    push_edits(out, told.entries, told.entry.at)?;
    out.push_str("Answer: ")?;
    push_reply(out, told)?;
    out.push_str(".\n")?;
    push_reasons(out, told)?;
    match told.entry.reply {
        Reply::Denied(_) | Reply::Bad(_) => out.push_str("Nothing was changed by it.\n"),
        _ => Ok(()),
    }
}

// Adds a line for each of the last edits that were accepted before an entry.
fn push_edits(out: &mut String, entries: &[Entry], before: u32) -> Result<(), AllocError> {
    let count = edits_before(entries, before);
    let first = count.saturating_sub(NAMED);
    if first > 0 {
        out.push_str("Entries that had changed the policy before these: ")?;
        push_number(out, first as u64)?;
        out.push_str(".\n")?;
    }
    let mut place = 0u32;
    for entry in entries {
        if is_edit_before(entry, before) {
            if place >= first {
                push_edit_line(out, entry)?;
            }
            place = place.saturating_add(1);
        }
    }
    Ok(())
}

fn push_edit_line(out: &mut String, entry: &Entry) -> Result<(), AllocError> {
    out.push_str("The policy had been changed by entry ")?;
    push_number(out, entry.at as u64)?;
    out.push_str(": ")?;
    push_ask(out, &entry.ask)?;
    out.push_str(".\n")
}

fn edits_before(entries: &[Entry], before: u32) -> u32 {
    let mut count = 0u32;
    for entry in entries {
        if is_edit_before(entry, before) {
            count = count.saturating_add(1);
        }
    }
    count
}

// Whether an entry stands before a place and has changed the policy.
fn is_edit_before(entry: &Entry, before: u32) -> bool {
    entry.at < before && matches!(entry.reply, Reply::Edited { .. })
}
