//! The place in a session that a line names.
ghost use Rattle.std.specs.Prelude.{◌≡◌, IfOk, IsErrOf, None, Some};
ghost use Rattle.serde_json.specs.View.{view};
ghost use Rattle.entry_reader.specs.Fault.{not_text};
ghost use Rattle.entry_reader.specs.Places.{place_read, place_of_line};

use crate::parts::number_below;
use crate::{NotText, TextFault};
use basics::Fault;
use serde_json::Value;
use std::alloc::Global;
use wire_json::read_value;

/// Where an entry stands in a session: its place in the journal, the lane of its job and the number
/// of the job's line, all counted from 0.
#[derive(Clone, Copy, PartialEq, Eq)]
pub struct Place {
    pub at: u32,
    pub lane: u8,
    pub line: u32,
}

/// The place that a line names, whatever else it has.
#[tactic(auto, unfolding(crate::specs::Places::place_of_line))]
pub fn read_place(alloc: Global, text: &[u8]) -> Result<Place, TextFault>
    ensures place { IfOk result (λ place. place_of_line text.now ≡ Some place) }
    ensures none { IsErrOf result not_text → place_of_line text.now ≡ None }
{
    let value = read_value(alloc, text)?.ok_or(Fault::Cause(NotText))?;
    place_in(&value).ok_or(Fault::Cause(NotText))
}

/// The place that a value names.
pub(crate) fn place_in(value: &Value) -> Option<Place>
    ensures { result ≡ place_read (view value.now) }
{
    let at = number_below(value, "at", 1 << 32)?;
    let lane = number_below(value, "lane", 1 << 8)?;
    let line = number_below(value, "line", 1 << 32)?;
    Some(Place {
        at: at as u32,
        lane: lane as u8,
        line: line as u32,
    })
}
