//! Writing the parts of a line.
ghost use Rattle.std.specs.Prelude.{◌≡◌, ◌≤◌, ◌<◌, ◌++◌, drop, length, decimal, IsTrue, OnOk};
ghost use Rattle.serde_json.specs.Written.{comma_if, compact_text};
ghost use Rattle.json.specs.Print.{quoted};
ghost use Rattle.wf_names.specs.Names.{is_name};
ghost use Rattle.wire_json.specs.Entries.{named, plan_data};

use crate::fill::{PLAN_ROOM, put_plan};
use itoa::Buffer;
use policy_book::Plan;
use std::alloc::AllocError;
use wf_names::{CaseId, Name, NameTable};

/// Adds bytes.
#[inline(always)]
pub(crate) fn push(out: &mut Vec<u8>, bytes: &[u8]) -> Result<(), AllocError>
    ensures { OnOk result (out.new.items ≡ out.old.items ++ bytes.now) }
{
    out.extend_from_slice(bytes)
}

/// Adds the bytes of cells from `start` on.
pub(crate) fn push_from(out: &mut Vec<u8>, cells: &[u8], start: usize) -> Result<(), AllocError>
    requires { start ≤ length cells.now }
    ensures { OnOk result (out.new.items ≡ out.old.items ++ drop start cells.now) }
{
    push(out, &cells[start..])?;
    Ok(())
}

/// Adds bytes and the digits of a number.
pub(crate) fn push_number(out: &mut Vec<u8>, before: &[u8], n: u32) -> Result<(), AllocError>
    ensures { OnOk result (out.new.items ≡ out.old.items ++ (before.now ++ decimal n)) }
{
    let mut digits = Buffer::new();
    push(out, before)?;
    push(out, digits.format(n).as_bytes())
}

/// Adds bytes and the number of a case.
pub(crate) fn push_case(out: &mut Vec<u8>, before: &[u8], case: CaseId) -> Result<(), AllocError>
    ensures { OnOk result (out.new.items ≡ out.old.items ++ (before.now ++ decimal case)) }
{
    push_number(out, before, case.0 as u32)
}

/// Adds the name with a number, as text; the empty text where there is none.
pub(crate) fn push_name(out: &mut Vec<u8>, names: &NameTable, n: u16) -> Result<(), AllocError>
    ensures { OnOk result (out.new.items ≡ out.old.items ++ compact_text
        (named names.now.names n)) }
{
    if n < names.len() {
        push_quoted(out, &names.name(n))
    } else {
        push(out, b"\"\"")
    }
}

/// Adds the name with a number between bytes.
pub(crate) fn push_name_in(
    out: &mut Vec<u8>,
    before: &[u8],
    names: &NameTable,
    n: u16,
    after: &[u8],
) -> Result<(), AllocError>
    ensures { OnOk result (out.new.items ≡ out.old.items ++
        (before.now ++ (compact_text (named names.now.names n) ++ after.now))) }
{
    push(out, before)?;
    push_name(out, names, n)?;
    push(out, after)
}

/// Adds a name in quotes.
pub(crate) fn push_quoted(out: &mut Vec<u8>, name: &Name) -> Result<(), AllocError>
    ensures { OnOk result (out.new.items ≡ out.old.items ++ quoted name.now) }
{
    push(out, b"\"")?;
    push_bare(out, name)?;
    push(out, b"\"")?;
    Ok(())
}

// Adds a name.
fn push_bare(out: &mut Vec<u8>, name: &Name) -> Result<(), AllocError>
    ensures added { OnOk result (out.new.items ≡ out.old.items ++ name.now) }
    ensures form { IsTrue (is_name name.now) }
{
    push(out, name.as_str().as_bytes())
}

/// Adds the names of a plan's users.
pub(crate) fn push_plan(out: &mut Vec<u8>, users: &NameTable, plan: &Plan) -> Result<(), AllocError>
    ensures { OnOk result (out.new.items ≡ out.old.items ++ compact_text
        (plan_data users.now.names plan.now)) }
{
    let mut cells = [0; PLAN_ROOM];
    let start = put_plan(&mut cells, PLAN_ROOM, users, plan);
    push(out, &cells[start..])?;
    Ok(())
}

/// Adds a comma where something stands before.
pub(crate) fn push_comma(out: &mut Vec<u8>, later: bool) -> Result<(), AllocError>
    ensures { OnOk result (out.new.items ≡ out.old.items ++ comma_if later) }
{
    if later { push(out, b",") } else { Ok(()) }
}
