//! Literals: a variable, or that it is not there.
ghost use Rattle.std.specs.Prelude.{◌≡◌, ◌<◌, ◌^◌, ◌+◌, ◌++◌, ◌∷◌, [], cond, OnOk, OnErr};
ghost use Rattle.cnf_export.specs.Laws.Clauses.{yes_to, no_to};

use basics::List;
use std::alloc::AllocError;

/// The literals of a clause.
pub type Literals = List<i32>;

/// That a variable is in the model.
#[tactic(auto, using(crate::proofs::Signs::next_positive))]
pub(crate) fn yes_to(v: u32) -> i32
    requires { v < 2 ^ 30 }
    ensures { result ≡ yes_to v }
{
    v as i32 + 1
}

/// That it is not.
#[tactic(auto, using(crate::proofs::Signs::next_negative))]
pub(crate) fn no_to(v: u32) -> i32
    requires { v < 2 ^ 30 }
    ensures { result ≡ no_to v }
{
    -(v as i32) - 1
}

/// Puts behind others that a variable is in the model.
pub(crate) fn add_yes(into: &mut Literals, v: u32) -> Result<(), AllocError>
    requires { v < 2 ^ 30 }
    ensures { OnOk result (into.new ≡ into.old ++ yes_to v ∷ []) }
{
    into.push(yes_to(v))
}

/// Puts behind others that a variable is not in the model.
pub(crate) fn add_no(into: &mut Literals, v: u32) -> Result<(), AllocError>
    requires { v < 2 ^ 30 }
    ensures { OnOk result (into.new ≡ into.old ++ no_to v ∷ []) }
{
    into.push(no_to(v))
}

/// Puts two literals behind others.
pub(crate) fn add_two(into: &mut Literals, first: i32, second: i32) -> Result<(), AllocError>
    ensures { OnOk result (into.new ≡ into.old ++ first ∷ second ∷ []) }
{
    into.push(first)?;
    into.push(second)
}

/// Puts three literals behind others, of which the middle one may be left out.
pub(crate) fn add_three(
    into: &mut Literals,
    first: i32,
    skips: bool,
    middle: i32,
    last: i32,
) -> Result<(), AllocError>
    ensures { OnOk result (into.new
        ≡ into.old ++ first ∷ (cond skips [] (middle ∷ []) ++ last ∷ [])) }
{
    into.push(first)?;
    if !skips {
        into.push(middle)?;
    }
    into.push(last)
}
