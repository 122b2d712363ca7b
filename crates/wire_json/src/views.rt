//! Writing the items of what views over the open cases list.
ghost use Rattle.std.specs.Prelude.{◌≡◌, ◌++◌, OnOk};
ghost use Rattle.serde_json.specs.Data.{number, unsigned};
ghost use Rattle.serde_json.specs.Written.{compact_text};
ghost use Rattle.wire_json.specs.Replies.{work_data};

use crate::fill::{put_byte, put_case, put_step};
use crate::list::Item;
use crate::text::{push_case, push_from};
use policy_book::Policy;
use std::alloc::AllocError;
use wf_names::{CaseId, NAME_LIMIT};
use wf_talk::WorkItem;

// The room that a step of a work list needs, with the number of its case.
const ITEM_ROOM: usize = NAME_LIMIT + 24;

impl Item for WorkItem {
    ghost item_data = { work_data };

    fn push_item(&self, out: &mut Vec<u8>, p: &Policy) -> Result<(), AllocError> {
        push_work_item(out, p, self)
    }
}

// Adds a step of a work list, with the number of its case before it.
fn push_work_item(out: &mut Vec<u8>, p: &Policy, item: &WorkItem) -> Result<(), AllocError>
    ensures { OnOk result (out.new.items ≡ out.old.items ++ compact_text
        (work_data p.now item.now)) }
{
    let mut cells = [0; ITEM_ROOM];
    let end = put_byte(&mut cells, ITEM_ROOM, b']');
    let step = put_step(&mut cells, end, p, item.flow, item.step);
    let comma = put_byte(&mut cells, step, b',');
    let case = put_case(&mut cells, comma, b"[", item.case);
    push_from(out, &cells, case)?;
    Ok(())
}

impl Item for CaseId {
    ghost item_data = { λ _ case. number (unsigned case) };

    fn push_item(&self, out: &mut Vec<u8>, _p: &Policy) -> Result<(), AllocError> {
        push_case(out, b"", *self)
    }
}
