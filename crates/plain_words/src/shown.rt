//! A place in a text: its line, its column, and the line itself with a mark below it.

use crate::marks::line_end;
use crate::place::Span;
use std::alloc::AllocError;

/// How many characters of a line are shown before and behind the place.
const AROUND: usize = 60;

/// Where a place stands: the line and the column in characters, both from 1.
#[derive(Clone, Copy)]
pub(crate) struct Spot {
    pub line: usize,
    pub column: usize,
}

/// The line and the column of a place.
pub(crate) fn spot_of(text: &[u8], at: usize) -> Spot {
    let mut spot = Spot { line: 1, column: 1 };
    for i in 0..at.min(text.len()) {
        if text[i] == b'\n' {
            spot.line = spot.line.saturating_add(1);
            spot.column = 1;
        } else if is_first(text[i]) {
            spot.column = spot.column.saturating_add(1);
        }
    }
    spot
}

// Whether a byte is the first of a character.
fn is_first(byte: u8) -> bool {
    byte & 0xC0 != 0x80
}

/// Adds the line of a place with its number, and below it marks under the place.
pub(crate) fn push_shown(out: &mut String, text: &str, span: Span) -> Result<(), AllocError> {
    let spot = spot_of(text.as_bytes(), span.start);
    let from = spot.column.saturating_sub(AROUND.saturating_add(1));
    let start = out.len();
    write!(out, "    {} ", spot.line)?;
    let margin = out.len().saturating_sub(start);
    out.push_str("| ")?;
    push_part(out, line_at(text, span.start), from)?;
    let before = spot.column.saturating_sub(1).saturating_sub(from);
    let width = width_of(text.as_bytes(), span).min(AROUND);
    write!(out, "\n{:margin$}| {:before$}{:^<width$}\n", "", "", "")
}

// How many characters of its line a place has, at least one.
fn width_of(text: &[u8], span: Span) -> usize {
    let mut width = 0usize;
    for i in span.start..span.end.min(line_end(text, span.start)) {
        match text.get(i) {
            Some(byte) if is_first(*byte) => width = width.saturating_add(1),
            _ => {}
        }
    }
    width.max(1)
}

// The line that a place stands in, without its end.
fn line_at(text: &str, at: usize) -> &str {
    let bytes = text.as_bytes();
    let mut start = 0;
    for i in 0..at.min(bytes.len()) {
        if bytes[i] == b'\n' {
            start = i + 1;
        }
    }
    match text.get(start..line_end(bytes, at)) {
        Some(line) => line,
        None => "",
    }
}

// Adds the characters of a line from one on, as many as are shown; a blank for one that is no
// letter, digit or sign.
fn push_part(out: &mut String, line: &str, from: usize) -> Result<(), AllocError> {
    let mut place = 0usize;
    let until = from.saturating_add(AROUND).saturating_add(AROUND);
    for c in line.chars() {
        if place >= from && place < until {
            out.push(if c.is_control() { ' ' } else { c })?;
        }
        place = place.saturating_add(1);
    }
    Ok(())
}
