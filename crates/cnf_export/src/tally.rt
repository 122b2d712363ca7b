//! How many clauses and literals there are.
ghost use Rattle.std.specs.Prelude.{◌≡◌, ◌≤◌, ◌<◌, length, IfOk, IsErrOf, OnOk};
ghost use Rattle.wf_names.specs.declared.limits.TheConstants.{STEP_LIMIT};
ghost use Rattle.cnf_export.specs.Laws.Encodings.{literals};
ghost use Rattle.cnf_export.specs.Positions.{left_from};
ghost use Rattle.cnf_export.specs.Sizes.{empties};
ghost use Rattle.cnf_export.specs.Terms.{encoding_in};
ghost use Rattle.cnf_export.specs.Fault.{too_large};
ghost use Rattle.cnf_export.specs.declared.tally.TheConstants.{LITERAL_LIMIT};

use crate::Literals;
use crate::fault::{CnfFault, TooLarge};
use crate::group::Group;
use crate::position::{Position, give};
use crate::terms::Terms;
use basics::Fault;

/// Most literals of all clauses.
pub const LITERAL_LIMIT: usize = 20_000_000;

/// How many clauses are left; or that they have too many literals. Each is made in `one`, and none
/// is kept.
pub(crate) fn count(
    terms: &Terms,
    groups: &[Group],
    at: &mut Position,
    one: &mut Literals,
) -> Result<u32, CnfFault>
    requires { empties (left_from (encoding_in terms.now) groups.now at.old) ≤ STEP_LIMIT }
    ensures clauses { IfOk result
        (λ n. n ≡ length (left_from (encoding_in terms.now) groups.now at.old)) }
    ensures few { OnOk result (literals
        (left_from (encoding_in terms.now) groups.now at.old) ≤ LITERAL_LIMIT) }
    ensures large { IsErrOf result too_large
        → LITERAL_LIMIT < literals (left_from (encoding_in terms.now) groups.now at.old) }
{
    let mut clauses = 0u32;
    let mut size = 0usize;
    'counting: loop {
        if !give(terms, groups, at, one)? {
            return Ok(clauses);
        }
        if one.len() > LITERAL_LIMIT - size {
            return Err(Fault::Cause(TooLarge));
        }
        size += one.len();
        clauses += 1;
    }
}
