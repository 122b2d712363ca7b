//! Clauses as text.
ghost use Rattle.std.specs.Prelude.{◌≡◌, ◌++◌, OnOk};
ghost use Rattle.cnf_export.specs.Text.{clause_line, header_line, literal_text};

use crate::Literals;
use itoa::Buffer;
use std::alloc::AllocError;

/// Adds the first line: how many variables there are, and how many clauses.
pub(crate) fn push_header(out: &mut Vec<u8>, variables: u32, clauses: u32) -> Result<(), AllocError>
    ensures { OnOk result (out.new.items ≡ out.old.items ++ header_line variables clauses) }
{
    let mut digits = Buffer::new();
    out.extend_from_slice(b"p cnf ")?;
    out.extend_from_slice(digits.format(variables).as_bytes())?;
    out.extend_from_slice(b" ")?;
    out.extend_from_slice(digits.format(clauses).as_bytes())?;
    out.extend_from_slice(b"\n")
}

/// Adds the line of a clause.
pub(crate) fn push_clause(out: &mut Vec<u8>, clause: &Literals) -> Result<(), AllocError>
    ensures { OnOk result (out.new.items ≡ out.old.items ++ clause_line clause.now) }
{
    let mut digits = Buffer::new();
    let literals = clause.as_slice();
    'literals: for literal in literals {
        push_literal(out, &mut digits, *literal)?;
    }
    out.extend_from_slice(b"0\n")
}

// Adds a literal, and a blank.
fn push_literal(out: &mut Vec<u8>, digits: &mut Buffer, l: i32) -> Result<(), AllocError>
    ensures { OnOk result (out.new.items ≡ out.old.items ++ literal_text l) }
{
    out.extend_from_slice(digits.format(l).as_bytes())?;
    out.push(b' ')?;
    Ok(())
}
