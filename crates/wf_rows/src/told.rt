//! What the program that tells in words says.

use crate::outside::words_of;
use crate::row::{list, number, text};
use fixtures::source_of;
use std::alloc::{AllocError, Global};
use tell_run::{Outside, run_alone};
use toml::Value;
use wf_outside::{MemShelf, MemSink, MemSource};

/// How many bytes may be told.
const ROOM: usize = 1_000_000;

// What has to be told.
#[derive(Clone, Copy)]
enum Wanted<'a> {
    // This text.
    Whole(&'a str),
    // A fault of this kind, with its place and in words.
    Kind(&'a str),
}

/// Whether the words of a row, `tell`, are told its output, with its status, 0 where it has none.
pub fn is_told(alloc: Global, row: &Value, shelf: &mut MemShelf) -> Result<bool, AllocError> {
    let words = words_of(alloc, list(row.get("tell")))?;
    let status = number(row.get("status")).unwrap_or(0);
    let output = Wanted::Whole(text(row.get("output")));
    tells(alloc, &words, shelf, status, output)
}

/// Whether the fault of a row's policy file, where it has one, is told with a place and its kind,
/// and in the words that the row has for it, `told`.
pub fn is_fault_told(alloc: Global, row: &Value, shelf: &mut MemShelf) -> Result<bool, AllocError> {
    let Some(kind) = kind_of(text(row.get("fault"))) else {
        return Ok(true);
    };
    let wanted = match row.get("told") {
        Some(told) => Wanted::Whole(text(Some(told))),
        None => Wanted::Kind(kind),
    };
    tells(alloc, &policy_words(alloc)?, shelf, 1, wanted)
}

// The words that have the row's policy file told.
fn policy_words(alloc: Global) -> Result<Vec<String>, AllocError> {
    let mut words = Vec::new(alloc);
    for word in ["policy", "here"] {
        words.push(String::from_str(alloc, word)?)?;
    }
    Ok(words)
}

// The kind in the text of a policy's fault, as `wfserve: policy missing flows 0 steps`.
fn kind_of(fault: &str) -> Option<&str> {
    let (_, fault) = fault.split_once(' ')?;
    let (what, fault) = fault.split_once(' ')?;
    let (kind, _) = fault.split_once(' ')?;
    if what == "policy" { Some(kind) } else { None }
}

// Whether a text is `here:LINE:COLUMN: KIND: WORDS`.
fn is_of_kind(told: &str, kind: &str) -> Option<bool> {
    let (file, told) = told.split_once(':')?;
    let (line, told) = told.split_once(':')?;
    let (column, told) = told.split_once(':')?;
    let (told_kind, words) = told.split_once(':')?;
    let is_placed = file == "here" && !line.is_empty() && !column.is_empty();
    Some(is_placed && told_kind.trim() == kind && words.len() > 2)
}

/// Whether each telling of a session ends as it says.
pub fn are_told(alloc: Global, session: &Value, shelf: &mut MemShelf) -> Result<bool, AllocError> {
    for row in list(session.get("telling")) {
        if !is_told(alloc, row, shelf)? {
            return Ok(false);
        }
    }
    Ok(true)
}

fn tells(
    alloc: Global,
    words: &[String],
    shelf: &mut MemShelf,
    status: u64,
    wanted: Wanted<'_>,
) -> Result<bool, AllocError> {
    let mut source = source_of(alloc, &[])?;
    tells_over(alloc, words, shelf, &mut source, status, wanted)
}

fn tells_over(
    alloc: Global,
    words: &[String],
    shelf: &mut MemShelf,
    source: &mut MemSource,
    status: u64,
    wanted: Wanted<'_>,
) -> Result<bool, AllocError> {
    let mut sink = MemSink::new(alloc, ROOM, ROOM, Vec::new(alloc))?;
    let ended = run_alone(words, &mut Outside::new(alloc, shelf, source, &mut sink));
    Ok(ended.fault.status() as u64 == status && is_wanted(sink.bytes(), wanted))
}

fn is_wanted(told: &[u8], wanted: Wanted<'_>) -> bool {
    match (wanted, std::str::from_utf8(told)) {
        (Wanted::Whole(text), Ok(told)) => told == text,
        (Wanted::Kind(kind), Ok(told)) => is_of_kind(told, kind) == Some(true),
        _ => false,
    }
}
