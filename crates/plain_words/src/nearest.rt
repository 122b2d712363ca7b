//! The name that was probably meant.

use crate::marks::{Mark, Marked};
use crate::place::words_at;
use std::alloc::{AllocError, Global};
use strsim::levenshtein;
use wf_names::Name;

/// How many edits may lead to a name that was meant.
const MOST_EDITS: usize = 2;

/// How many keys a policy file may have.
const KEYS: u8 = 19;

// One of these keys.
fn key_at(n: u8) -> &'static str {
    match n {
        0 => "format",
        1 => "admin",
        2 => "roles",
        3 => "users",
        4 => "relations",
        5 => "flows",
        6 => "pairs",
        7 => "complement",
        8 => "steps",
        9 => "order",
        10 => "permit",
        11 => "rules",
        12 => "form",
        13 => "relation",
        14 => "first",
        15 => "second",
        16 => "group",
        17 => "step",
        18 => "limit",
        _ => "",
    }
}

/// Whether a word is one of the keys that there may be.
pub(crate) fn is_key(word: &str) -> bool {
    for n in 0..KEYS {
        if key_at(n) == word {
            return true;
        }
    }
    false
}

/// Of the keys that there may be the one that is nearest to a word; empty where none is near.
pub(crate) fn nearest_key(alloc: Global, word: &str) -> Result<&'static str, AllocError> {
    let mut best = "";
    let mut edits = most_edits(word).saturating_add(1);
    for n in 0..KEYS {
        let key = key_at(n);
        let needed = levenshtein(alloc, word, key)?;
        if needed > 0 && needed < edits {
            edits = needed;
            best = key;
        }
    }
    Ok(best)
}

/// Of the words of a text the one that is nearest to a word; empty where none is near.
pub(crate) fn nearest_word<'a>(
    alloc: Global,
    marked: Marked<'a>,
    word: &str,
) -> Result<&'a str, AllocError> {
    let mut best = "";
    let mut edits = most_edits(word).saturating_add(1);
    for mark in marked.marks {
        let other = word_at(marked.text, *mark);
        if is_close(word, other) {
            let needed = levenshtein(alloc, word, other)?;
            if needed > 0 && needed < edits {
                edits = needed;
                best = other;
            }
        }
    }
    Ok(best)
}

// The name at a mark, if it is of a name's form.
fn word_at(text: &[u8], mark: Mark) -> &str {
    match std::str::from_utf8(words_at(text, mark)) {
        Ok(word) if Name::read(word).is_some() => word,
        _ => "",
    }
}

// Whether two lengths are so close that a few edits could lead from one word to the other.
fn is_close(word: &str, other: &str) -> bool {
    !other.is_empty() && word.len().abs_diff(other.len()) <= MOST_EDITS
}

// At most a third of the word.
fn most_edits(word: &str) -> usize {
    MOST_EDITS.min(word.len() / 3)
}
