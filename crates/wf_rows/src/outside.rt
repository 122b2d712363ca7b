//! The words, the shelf, the source and the sink of a row.

use crate::row::{list, number, of_outside, text};
use std::alloc::{AllocError, Global};
use toml::{Table, Value};
use wf_outside::{MemFile, MemShelf, MemSink, MemSource};

/// How many bytes go at once where a row does not say.
const PIECE: u64 = 1_000_000;

// The files of a row other than its policy, with the keys of the pieces behind them.
const FILES: [(&str, &str); 3] = [
    ("requests", "more_requests"),
    ("transcript", "more_transcript"),
    ("model", "more_model"),
];

/// The words of a list.
pub fn words_of(alloc: Global, given: &[Value]) -> Result<Vec<String>, AllocError> {
    let mut words = Vec::new(alloc);
    for word in given {
        words.push(String::from_str(alloc, text(Some(word)))?)?;
    }
    Ok(words)
}

/// The policies of all rows, and the row's own with its other files.
pub fn shelf_of(alloc: Global, rows: &Table, row: &Value) -> Result<MemShelf, AllocError> {
    let mut files = Vec::new(alloc);
    put_files(alloc, rows, row, &mut files)?;
    Ok(MemShelf::new(files, numbers_of(alloc, of_outside(row, "failing_loads"))?))
}

fn put_files(
    alloc: Global,
    rows: &Table,
    row: &Value,
    files: &mut Vec<MemFile>,
) -> Result<(), AllocError> {
    let more = list(row.get("more_here"));
    put_file(alloc, "here", &own_text(alloc, rows, row)?, more, files)?;
    for (key, more) in FILES {
        put_text(alloc, row, key, more, files)?;
    }
    for policy in list(rows.get("policy")) {
        let (name, whole) = (text(policy.get("name")), text(policy.get("text")));
        put_file(alloc, name, whole, &[], files)?;
    }
    Ok(())
}

/// Adds the text of a key as a file under the key's name, with the pieces of another key behind it.
pub fn put_text(
    alloc: Global,
    row: &Value,
    key: &str,
    more: &str,
    files: &mut Vec<MemFile>,
) -> Result<(), AllocError> {
    put_file(alloc, key, text(row.get(key)), list(row.get(more)), files)
}

// Adds a file of this name, of a text and pieces behind it.
fn put_file(
    alloc: Global,
    name: &str,
    text: &str,
    more: &[Value],
    files: &mut Vec<MemFile>,
) -> Result<(), AllocError> {
    let name = String::from_str(alloc, name)?;
    let bytes = with_pieces(alloc, text, more)?;
    files.push(MemFile { name, bytes })?;
    Ok(())
}

// The policies that the row's own stands behind, and its own.
fn own_text(alloc: Global, rows: &Table, row: &Value) -> Result<String, AllocError> {
    let mut own = String::new(alloc);
    for name in list(row.get("after")) {
        push_named(rows, text(Some(name)), &mut own)?;
    }
    own.push_str(text(row.get("here")))?;
    Ok(own)
}

fn push_named(rows: &Table, name: &str, own: &mut String) -> Result<(), AllocError> {
    for policy in list(rows.get("policy")) {
        if text(policy.get("name")) == name {
            own.push_str(text(policy.get("text")))?;
        }
    }
    Ok(())
}

/// The text with the copies of all pieces behind it.
pub fn with_pieces(alloc: Global, text: &str, more: &[Value]) -> Result<Vec<u8>, AllocError> {
    let mut bytes = text.as_bytes().to_vec(alloc)?;
    for piece in more {
        push_piece(alloc, piece, &mut bytes)?;
    }
    Ok(bytes)
}

fn push_piece(alloc: Global, piece: &Value, bytes: &mut Vec<u8>) -> Result<(), AllocError> {
    let (copy, more) = (text(piece.get("text")), list(piece.get("bytes")));
    let width = number(piece.get("width")).unwrap_or(0);
    for place in 0..number(piece.get("times")).unwrap_or(1) {
        push_copy(alloc, copy, place, width, bytes)?;
        push_bytes(more, bytes)?;
    }
    Ok(())
}

fn push_copy(
    alloc: Global,
    text: &str,
    place: u64,
    width: u64,
    bytes: &mut Vec<u8>,
) -> Result<(), AllocError> {
    if !text.as_bytes().contains(&b'@') {
        return bytes.extend_from_slice(text.as_bytes());
    }
    for byte in text.as_bytes() {
        if *byte == b'@' {
            push_number(alloc, place, width, bytes)?;
        } else {
            bytes.push(*byte)?;
        }
    }
    Ok(())
}

// A number, with zeros in front up to a width.
fn push_number(
    alloc: Global,
    number: u64,
    width: u64,
    bytes: &mut Vec<u8>,
) -> Result<(), AllocError> {
    let digits = format!(in alloc; "{number}")?;
    for _ in digits.len() as u64..width {
        bytes.push(b'0')?;
    }
    bytes.extend_from_slice(digits.as_bytes())
}

fn push_bytes(more: &[Value], bytes: &mut Vec<u8>) -> Result<(), AllocError> {
    for byte in more {
        let byte = number(Some(byte)).unwrap_or(0);
        bytes.push((byte & 255) as u8)?;
    }
    Ok(())
}

fn numbers_of(alloc: Global, given: Option<&Value>) -> Result<Vec<u64>, AllocError> {
    let mut numbers = Vec::new(alloc);
    for value in list(given) {
        numbers.push(number(Some(value)).unwrap_or(0))?;
    }
    Ok(numbers)
}

fn size_of(row: &Value, key: &str) -> usize {
    number(of_outside(row, key)).unwrap_or(PIECE) as usize
}

/// The row's input.
pub fn source_of(alloc: Global, row: &Value) -> Result<MemSource, AllocError> {
    let input = with_pieces(alloc, text(row.get("input")), list(row.get("more_input")))?;
    let failing = numbers_of(alloc, of_outside(row, "failing_takes"))?;
    Ok(MemSource::new(input, size_of(row, "piece").max(1), failing))
}

/// A sink with nothing in it, which never fails where the row does not say.
pub fn sink_of(alloc: Global, row: &Value) -> Result<MemSink, AllocError> {
    let failing = numbers_of(alloc, of_outside(row, "failing_puts"))?;
    MemSink::new(alloc, size_of(row, "room"), size_of(row, "most"), failing)
}
