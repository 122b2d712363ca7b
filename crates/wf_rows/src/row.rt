//! What a row says, by the names of its keys. A text or a list that is not there is empty.

use toml::Value;

// The keys of a row whose values are texts, and those whose values are lists.
const TEXTS: [&str; 9] = [
    "name",
    "here",
    "requests",
    "transcript",
    "model",
    "input",
    "output",
    "fault",
    "told",
];

const LISTS: [&str; 9] = [
    "words",
    "tell",
    "after",
    "more_here",
    "more_requests",
    "more_transcript",
    "more_model",
    "more_input",
    "more_output",
];

/// The text of a key.
pub fn text(value: Option<&Value>) -> &str {
    match value {
        Some(Value::String(text)) => text.as_str(),
        _ => "",
    }
}

/// The list of a key.
pub fn list(value: Option<&Value>) -> &[Value] {
    match value {
        Some(Value::Array(values)) => values.as_slice(),
        _ => &[],
    }
}

/// The number of a key.
pub fn number(value: Option<&Value>) -> Option<u64> {
    match value {
        Some(Value::Integer(number)) if *number >= 0 => Some(*number as u64),
        _ => None,
    }
}

/// What a row says of its devices.
pub fn of_outside<'a>(row: &'a Value, key: &str) -> Option<&'a Value> {
    row.get("outside")?.get(key)
}

/// Whether a row has these keys alone, each with a value of its kind. It is a command with its
/// input, and what must come of it. The row's own policy stands under the name `here`: the texts
/// that `after` names, and then its own. Its files `requests`, `transcript` and `model` stand under
/// these names. Pieces stand behind the text that they are more of. `told` is what the program that
/// tells in words says of the policy file; a row with `tell` in place of `words` is for that
/// program.
///
/// A piece is `times` copies of a `text` with `bytes` behind it. Each `@` of the text
/// stands for the number of the copy, from 0, with zeros in front where the piece has a `width`.
/// The `outside` says how many bytes the source gives and the sink takes at once, `piece` and
/// `most`, how many the sink takes in all, `room`, and the numbers, from 0, of the calls that fail:
/// `failing_takes`, `failing_puts` and `failing_loads`.
pub fn is_row(row: &Value) -> bool {
    let Some(keys) = row.as_table() else {
        return false;
    };
    for (key, value) in keys {
        if !is_of_row(key.as_str(), value) {
            return false;
        }
    }
    true
}

fn is_of_row(key: &str, value: &Value) -> bool {
    match value {
        Value::String(_) => TEXTS.contains(&key),
        Value::Array(_) => LISTS.contains(&key),
        Value::Integer(_) => key == "status",
        Value::Table(_) => key == "outside",
        _ => false,
    }
}
