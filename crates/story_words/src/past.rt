//! Which earlier entry did something.

use crate::about::{asker, step_asked};
use crate::names::push_number;
use std::alloc::AllocError;
use wf_names::CaseId;
use wf_talk::{Ask, Entry, Reply};

/// How many entries are looked at, from the last one back, for the words of one line.
const LOOKED_BACK: usize = 1_024;

/// What an entry did to a case.
#[derive(Clone, Copy)]
pub(crate) enum Deed<'a> {
    /// The step of this name was granted.
    Grant(&'a str),
    /// The step of this name was finished.
    Finish(&'a str),
    /// The case was done or withdrawn.
    End,
}

/// The last of the entries, as many as are looked at for one line.
pub(crate) fn recent(entries: &[Entry]) -> &[Entry] {
    let from = entries.len().saturating_sub(LOOKED_BACK);
    &entries[from..]
}

// The place of the last of the entries that did `deed` to a case.
fn last_with(entries: &[Entry], case: CaseId, deed: Deed<'_>) -> Option<usize> {
    for i in (0..entries.len()).rev() {
        if has_done(&entries[i], case, deed) {
            return Some(i);
        }
    }
    None
}

fn has_done(entry: &Entry, case: CaseId, deed: Deed<'_>) -> bool {
    if entry.ask.case() != Some(case) {
        return false;
    }
    match (&entry.reply, deed) {
        (Reply::Granted(_), Deed::Grant(step)) => names_step(&entry.ask, step),
        (Reply::Finished { .. }, Deed::Finish(step)) => names_step(&entry.ask, step),
        (Reply::Finished { done: true } | Reply::Withdrawn, Deed::End) => true,
        _ => false,
    }
}

fn names_step(ask: &Ask, step: &str) -> bool {
    match step_asked(ask) {
        Some((_, asked)) => asked.as_str() == step,
        None => false,
    }
}

/// Adds which entry did this to a case, where it is among these.
pub(crate) fn push_which(
    out: &mut String,
    entries: &[Entry],
    case: CaseId,
    deed: Deed<'_>,
) -> Result<(), AllocError> {
    let place = last_with(entries, case, deed).unwrap_or(entries.len());
    match entries.get(place) {
        Some(entry) => {
            out.push_str(" (entry ")?;
            push_number(out, entry.at as u64)?;
            out.push_str(")")
        }
        None => Ok(()),
    }
}

/// Adds who was granted the step that is asked about last.
pub(crate) fn push_grantee(
    out: &mut String,
    entries: &[Entry],
    ask: &Ask,
) -> Result<(), AllocError> {
    let place = match step_asked(ask) {
        Some((case, step)) => last_with(entries, case, Deed::Grant(step.as_str())),
        None => None,
    };
    match entries.get(place.unwrap_or(entries.len())) {
        Some(entry) => out.push_str(asker(&entry.ask)),
        None => out.push_str("its holder"),
    }
}
