//! Filling a buffer from its end to its start.
ghost use Rattle.std.specs.Prelude.{◌≡◌, ◌+◌, ◌≤◌, ◌<◌, ◌∷◌, ◌++◌, [], length, drop, decimal};
ghost use Rattle.std.specs.Prelude.{slice_index_or};
ghost use Rattle.wf_names.specs.declared.limits.TheConstants.{NAME_LIMIT};
ghost use Rattle.serde_json.specs.Written.{comma_if, compact_text};
ghost use Rattle.json.specs.Print.{escape};
ghost use Rattle.wire_json.specs.Entries.{named, plan_data, step_data};

use itoa::write_digits;
use policy_book::{Plan, Policy};
use wf_names::{CaseId, FlowId, NAME_LIMIT, Name, NameTable, STEP_LIMIT, StepId};

/// The room that the names of a plan's users need, each in quotes and with a comma.
pub(crate) const PLAN_ROOM: usize = STEP_LIMIT * (NAME_LIMIT + 3) + 2;

/// Puts a byte before those from `end` on; where it stands.
#[inline(always)]
pub(crate) fn put_byte(cells: &mut [u8], end: usize, byte: u8) -> usize
    requires room { 0 < end }
    requires within { end ≤ length cells.old }
    ensures start { result + 1 ≡ end }
    ensures written { drop result cells.new ≡ byte ∷ drop end cells.old }
{
    cells[end - 1] = byte;
    end - 1
}

/// Puts bytes before those from `end` on; where they start.
#[inline(always)]
pub(crate) fn put_bytes(cells: &mut [u8], end: usize, bytes: &[u8]) -> usize
    requires room { length bytes.now ≤ end }
    requires within { end ≤ length cells.old }
    ensures start { result + length bytes.now ≡ end }
    ensures written { drop result cells.new ≡ bytes.now ++ drop end cells.old }
{
    let start = end - bytes.len();
    cells[start..end].copy_from_slice(bytes);
    start
}

/// Puts bytes and the digits of a number before the bytes from `end` on; where they start.
#[inline(always)]
pub(crate) fn put_number(cells: &mut [u8], end: usize, before: &[u8], n: u32) -> usize
    requires room { length before.now + 10 ≤ end }
    requires within { end ≤ length cells.old }
    ensures start { result + length before.now ≤ end }
    ensures short { end ≤ result + (length before.now + 10) }
    ensures written { drop result cells.new ≡ before.now ++ (decimal n ++ drop end cells.old) }
{
    let digits = write_digits(n as u64, cells, end);
    put_bytes(cells, digits, before)
}

/// Puts bytes and the number of a case before the bytes from `end` on; where they start.
#[inline(always)]
pub(crate) fn put_case(cells: &mut [u8], end: usize, before: &[u8], case: CaseId) -> usize
    requires room { length before.now + 10 ≤ end }
    requires within { end ≤ length cells.old }
    ensures start { result + length before.now ≤ end }
    ensures short { end ≤ result + (length before.now + 10) }
    ensures written { drop result cells.new ≡ before.now ++ (decimal case ++ drop end cells.old) }
{
    put_number(cells, end, before, case.0 as u32)
}

/// Puts a comma and the name with a number, as text, before the bytes from `end` on; where they
/// start. The text is empty where there is no such name.
#[inline(always)]
pub(crate) fn put_name(cells: &mut [u8], end: usize, names: &NameTable, n: u16) -> usize
    requires room { NAME_LIMIT + 3 ≤ end }
    requires within { end ≤ length cells.old }
    ensures start { result ≤ end }
    ensures short { end ≤ result + (NAME_LIMIT + 3) }
    ensures written { drop result cells.new
        ≡ 44 ∷ (compact_text (named names.now.names n) ++ drop end cells.old) }
{
    let opening = put_quoted(cells, end, names, n);
    put_byte(cells, opening, b',')
}

/// Puts the name with a number, as text, before the bytes from `end` on; where it starts. The text
/// is empty where there is no such name.
pub(crate) fn put_quoted(cells: &mut [u8], end: usize, names: &NameTable, n: u16) -> usize
    requires room { NAME_LIMIT + 2 ≤ end }
    requires within { end ≤ length cells.old }
    ensures start { result ≤ end }
    ensures short { end ≤ result + (NAME_LIMIT + 2) }
    ensures written { drop result cells.new
        ≡ compact_text (named names.now.names n) ++ drop end cells.old }
{
    let closing = put_byte(cells, end, b'"');
    let bare = put_unquoted(cells, closing, names, n);
    put_byte(cells, bare, b'"')
}

// Puts the name with a number, or nothing where there is none.
#[inline(always)]
fn put_unquoted(cells: &mut [u8], end: usize, names: &NameTable, n: u16) -> usize
    requires room { NAME_LIMIT ≤ end }
    requires within { end ≤ length cells.old }
    ensures start { result ≤ end }
    ensures short { end ≤ result + NAME_LIMIT }
    ensures written { drop result cells.new
        ≡ escape (slice_index_or names.now.names n []) ++ drop end cells.old }
{
    if n < names.len() {
        put_bare(cells, end, &names.name(n))
    } else {
        end
    }
}

// Puts a name.
#[inline(always)]
fn put_bare(cells: &mut [u8], end: usize, name: &Name) -> usize
    requires room { NAME_LIMIT ≤ end }
    requires within { end ≤ length cells.old }
    ensures start { result ≤ end }
    ensures short { end ≤ result + NAME_LIMIT }
    ensures written { drop result cells.new ≡ escape name.now ++ drop end cells.old }
{
    put_bytes(cells, end, name.as_str().as_bytes())
}

/// Puts the names of a plan's users before the bytes from `end` on; where they start.
pub(crate) fn put_plan(cells: &mut [u8], end: usize, users: &NameTable, plan: &Plan) -> usize
    requires room { PLAN_ROOM ≤ end }
    requires within { end ≤ length cells.old }
    ensures start { result ≤ end }
    ensures short { end ≤ result + PLAN_ROOM }
    ensures written { drop result cells.new
        ≡ compact_text (plan_data users.now.names plan.now) ++ drop end cells.old }
{
    if plan.len() == 0 {
        put_bytes(cells, end, b"[]")
    } else {
        put_users(cells, end, users, plan)
    }
}

// Puts the names of a plan's users, of whom there are some.
fn put_users(cells: &mut [u8], end: usize, users: &NameTable, plan: &Plan) -> usize
    requires some { 0 < length plan.now }
    requires room { PLAN_ROOM ≤ end }
    requires within { end ≤ length cells.old }
    ensures start { result ≤ end }
    ensures short { end ≤ result + PLAN_ROOM }
    ensures written { drop result cells.new
        ≡ compact_text (plan_data users.now.names plan.now) ++ drop end cells.old }
{
    let count = plan.len();
    let mut start = put_byte(cells, end, b']');
    'users: for s in 0..count {
        start = put_name(cells, start, users, plan.at(StepId(count - 1 - s)).0);
    }
    // The comma of the first name gives way to the bracket.
    put_byte(cells, start + 1, b'[')
}

/// Puts the name of a step of a workflow, as text, before the bytes from `end` on; where it starts.
/// The text is empty where there is no such step.
pub(crate) fn put_step(cells: &mut [u8], end: usize, p: &Policy, f: FlowId, s: StepId) -> usize
    requires room { NAME_LIMIT + 2 ≤ end }
    requires within { end ≤ length cells.old }
    ensures start { result ≤ end }
    ensures short { end ≤ result + (NAME_LIMIT + 2) }
    ensures written { drop result cells.new
        ≡ compact_text (step_data p.now f s) ++ drop end cells.old }
{
    if (f.0 as u16) < p.flows().len() {
        put_quoted(cells, end, p.flow(f).steps(), s.0 as u16)
    } else {
        put_bytes(cells, end, b"\"\"")
    }
}

/// Puts a comma before the bytes from `end` on, where something stands before; where they start.
#[inline(always)]
pub(crate) fn put_comma(cells: &mut [u8], end: usize, later: bool) -> usize
    requires room { 0 < end }
    requires within { end ≤ length cells.old }
    ensures start { result ≤ end }
    ensures written { drop result cells.new ≡ comma_if later ++ drop end cells.old }
{
    if later {
        put_byte(cells, end, b',')
    } else {
        end
    }
}
