//! The keys and the values of a text that reads as TOML, each with its place.
ghost use Rattle.std.specs.Prelude.{◌<◌, length};

use std::alloc::{AllocError, Global};

/// A key, or a value that is no list and no table. A text in quotes has its quotes.
#[derive(Clone, Copy)]
pub(crate) struct Mark {
    pub start: usize,
    pub end: usize,
    /// The number of the key that it belongs to, counted from 1; 0 at the top.
    pub under: usize,
    /// The number of the item that it is in, of the outermost list around it or of headers in
    /// double brackets, counted from 1; 0 in none.
    pub item: usize,
    pub is_key: bool,
}

/// A text that reads as TOML, with its marks.
#[derive(Clone, Copy)]
pub(crate) struct Marked<'a> {
    pub text: &'a [u8],
    pub marks: &'a [Mark],
}

// What may come next.
#[derive(Clone, Copy, PartialEq, Eq)]
enum Next {
    Header,
    Key,
    Value,
}

// A list or a table in braces that is still open.
#[derive(Clone, Copy)]
struct Open {
    under: usize,
    is_table: bool,
}

// How far the marks have come.
#[derive(Drop)]
struct Walk {
    marks: Vec<Mark>,
    open: Vec<Open>,
    header: usize,
    under: usize,
    item: usize,
    // How many lists and tables are open where a comma ends an item; 0 outside of lists.
    depth: usize,
    // How many headers in double brackets follow one another here.
    doubles: usize,
    is_double: bool,
    next: Next,
}

/// The marks of a text, in order.
pub(crate) fn marks_of(alloc: Global, text: &[u8]) -> Result<Vec<Mark>, AllocError> {
    let mut walk = Walk {
        marks: Vec::new(alloc),
        open: Vec::new(alloc),
        header: 0,
        under: 0,
        item: 0,
        depth: 0,
        doubles: 0,
        is_double: false,
        next: Next::Key,
    };
    let mut at = 0;
    for _ in 0..text.len() {
        if at >= text.len() {
            break;
        }
        let end = token_end(text, at);
        take_token(&mut walk, text, at, end)?;
        at = end;
    }
    Ok(walk.marks)
}

// The number of the byte behind the token at a place; a comment and a blank are tokens too.
fn token_end(text: &[u8], at: usize) -> usize
    requires { at < length text.now }
{
    match text[at] {
        b'#' => line_end(text, at),
        b'"' => quoted_end(text, at, b'"'),
        b'\'' => quoted_end(text, at, b'\''),
        byte => {
            if is_plain(byte) {
                plain_end(text, at)
            } else {
                at + 1
            }
        }
    }
}

// Whether a byte is of a key or a value without quotes.
fn is_plain(byte: u8) -> bool {
    !matches!(
        byte,
        b' ' | b'\t'
            | b'\r'
            | b'\n'
            | b'='
            | b'.'
            | b','
            | b'['
            | b']'
            | b'{'
            | b'}'
            | b'#'
            | b'"'
            | b'\''
    )
}

/// The number of the byte behind the line at a place.
pub(crate) fn line_end(text: &[u8], at: usize) -> usize {
    for i in at..text.len() {
        if text[i] == b'\n' {
            return i;
        }
    }
    text.len()
}

fn plain_end(text: &[u8], at: usize) -> usize {
    for i in at..text.len() {
        if !is_plain(text[i]) {
            return i;
        }
    }
    text.len()
}

// The number of the byte behind a text in quotes, one or three.
fn quoted_end(text: &[u8], at: usize, quote: u8) -> usize {
    if is_thrice(text, at, quote) {
        return thrice_end(text, at.saturating_add(3), quote);
    }
    let mut is_escaped = false;
    for i in at.saturating_add(1)..text.len() {
        if is_escaped {
            is_escaped = false;
        } else if text[i] == b'\\' && quote == b'"' {
            is_escaped = true;
        } else if text[i] == quote {
            return i + 1;
        }
    }
    text.len()
}

fn thrice_end(text: &[u8], from: usize, quote: u8) -> usize {
    let mut is_escaped = false;
    for i in from..text.len() {
        if is_escaped {
            is_escaped = false;
        } else if text[i] == b'\\' && quote == b'"' {
            is_escaped = true;
        } else if is_thrice(text, i, quote) {
            return i.saturating_add(3);
        }
    }
    text.len()
}

// Whether a quote stands three times at a place.
fn is_thrice(text: &[u8], at: usize, quote: u8) -> bool {
    is_at(text, at, quote)
        && is_at(text, at.saturating_add(1), quote)
        && is_at(text, at.saturating_add(2), quote)
}

fn is_at(text: &[u8], at: usize, byte: u8) -> bool {
    match text.get(at) {
        Some(found) => *found == byte,
        None => false,
    }
}

// Takes the token between two places.
fn take_token(walk: &mut Walk, text: &[u8], start: usize, end: usize) -> Result<(), AllocError> {
    match text.get(start) {
        Some(b'\n') => {
            end_line(walk);
            Ok(())
        }
        Some(b'=') => {
            walk.next = Next::Value;
            Ok(())
        }
        Some(b'[') => open_bracket(walk),
        Some(b'{') => {
            walk.next = Next::Key;
            let under = walk.under;
            push_open(walk, under, true)
        }
        Some(b']') => {
            close_bracket(walk);
            Ok(())
        }
        Some(b'}') => {
            close_last(walk);
            Ok(())
        }
        Some(b',') => {
            take_comma(walk);
            Ok(())
        }
        Some(b' ' | b'\t' | b'\r' | b'.' | b'#') => Ok(()),
        _ => take_word(walk, start, end),
    }
}

fn push_open(walk: &mut Walk, under: usize, is_table: bool) -> Result<(), AllocError> {
    walk.open.push(Open { under, is_table })?;
    Ok(())
}

// A line that ends outside of all lists and braces ends a header, or a key with its value.
fn end_line(walk: &mut Walk) {
    if walk.open.is_empty() {
        walk.under = walk.header;
        walk.next = Next::Key;
    }
}

fn open_bracket(walk: &mut Walk) -> Result<(), AllocError> {
    match walk.next {
        Next::Header => {
            walk.is_double = true;
            walk.doubles = walk.doubles.saturating_add(1);
            walk.item = walk.doubles;
            Ok(())
        }
        Next::Key => {
            walk.next = Next::Header;
            walk.under = 0;
            walk.item = 0;
            walk.is_double = false;
            Ok(())
        }
        Next::Value => {
            let under = walk.under;
            push_open(walk, under, false)?;
            begin_items(walk);
            Ok(())
        }
    }
}

// A list that is in no other one begins with its first item.
fn begin_items(walk: &mut Walk) {
    if walk.item == 0 {
        walk.item = 1;
        walk.depth = walk.open.len();
    }
}

fn close_bracket(walk: &mut Walk) {
    if walk.next != Next::Header {
        close_last(walk);
        return;
    }
    walk.header = walk.under;
    if !walk.is_double {
        walk.doubles = 0;
    }
}

fn close_last(walk: &mut Walk) {
    if let Some(open) = walk.open.pop() {
        walk.under = open.under;
    }
    walk.next = Next::Value;
    if walk.open.len() < walk.depth {
        walk.item = 0;
        walk.depth = 0;
    }
}

fn take_comma(walk: &mut Walk) {
    if walk.open.len() == walk.depth {
        walk.item = walk.item.saturating_add(1);
    }
    if let Some(open) = walk.open.last() {
        if open.is_table {
            walk.under = open.under;
            walk.next = Next::Key;
        }
    }
}

fn take_word(walk: &mut Walk, start: usize, end: usize) -> Result<(), AllocError> {
    let (under, item, is_key) = (walk.under, walk.item, walk.next != Next::Value);
    walk.marks.push(Mark {
        start,
        end,
        under,
        item,
        is_key,
    })?;
    if is_key {
        walk.under = walk.marks.len();
    }
    Ok(())
}
