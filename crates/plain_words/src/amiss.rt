//! Values of another type than their keys want.

use crate::marks::{Mark, Marked};
use crate::place::{
    Keys, Span, is_one_of, is_quoted, is_within, parent, span_of, value_of_key, words_at,
};

/// The keys whose value is a text.
const TEXT_KEYS: [&str; 7] = [
    "admin",
    "form",
    "relation",
    "first",
    "second",
    "step",
    "complement",
];

/// Under the keys, the first value that is of another type than its key wants; at the top the admin
/// role where it is no text, and else the format.
pub(crate) fn shape_place(marked: Marked<'_>, keys: Keys<'_>) -> Option<Span> {
    if !keys.table.is_empty() {
        return first_amiss(marked, keys);
    }
    match value_of_key(marked, "admin") {
        Some(admin) if !is_quoted(marked.text, admin.start) => Some(admin),
        _ => value_of_key(marked, "format"),
    }
}

fn first_amiss(marked: Marked<'_>, keys: Keys<'_>) -> Option<Span> {
    for mark in marked.marks {
        if !mark.is_key && is_amiss(marked, *mark) && is_within(marked, *mark, keys) {
            return Some(span_of(*mark));
        }
    }
    None
}

// Whether a value is a text where a number or a list is wanted, or no text where one is.
fn is_amiss(marked: Marked<'_>, mark: Mark) -> bool {
    let key = match parent(marked.marks, mark) {
        Some(above) => words_at(marked.text, above),
        None => return false,
    };
    if is_one_of(key, &["format", "limit"]) {
        return is_quoted(marked.text, mark.start);
    }
    !is_quoted(marked.text, mark.start) || mark.item == 0 && !is_one_of(key, &TEXT_KEYS)
}
