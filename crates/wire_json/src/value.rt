//! Reading JSON.
ghost use Rattle.std.specs.Prelude.{◌≡◌, IfOk, option_map};
ghost use Rattle.serde_json.specs.View.{view};
ghost use Rattle.wire_json.specs.Values.{value_of};

use serde_json::Value;
use std::alloc::{AllocError, Global};
use std::str;

/// The JSON value of a text; None where it is no JSON.
#[tactic(auto, unfolding(crate::specs::Values::value_of))]
pub fn read_value(alloc: Global, text: &[u8]) -> Result<Option<Value>, AllocError>
    ensures { IfOk result (λ o. option_map view o ≡ value_of text.now) }
{
    let Ok(chars) = str::from_utf8(text) else {
        return Ok(None);
    };
    match Value::from_str(alloc, chars) {
        Ok(value) => Ok(Some(value)),
        Err(e) if e.is_memory() => Err(AllocError),
        Err(_) => Ok(None),
    }
}
