//! What is true in a model.
ghost use Rattle.std.specs.Prelude.{◌≡◌, ◌≤◌, ◌<◌, ◌+◌, ◌^◌, ℕ};
ghost use Rattle.cnf_export.specs.Laws.Clauses.{is_true, satisfies};
ghost use Rattle.cnf_export.specs.Models.{last_below};
ghost use Rattle.cnf_export.specs.Saying.{has_variable};

use crate::{Literals, Model};

/// Whether a variable is in a model.
pub(crate) fn has_variable(m: &Model, v: usize) -> bool
    ensures { result ≡ has_variable m.now v }
{
    match m.as_slice().get(v) {
        Some(flag) => *flag,
        None => false,
    }
}

/// Whether a model makes a literal true.
pub(crate) fn is_true(m: &Model, l: &i32) -> bool
    ensures { result ≡ is_true (has_variable m.now) l.now }
{
    let l = *l;
    if l > 0 {
        has_variable(m, (l - 1) as usize)
    } else if l < 0 {
        !has_variable(m, (-(l + 1)) as usize)
    } else {
        false
    }
}

/// Whether a model satisfies a clause.
pub(crate) fn satisfied(m: &Model, clause: &Literals) -> bool
    ensures { result ≡ satisfies (has_variable m.now) clause.now }
{
    'literals: for k in 0..clause.len() {
        if is_true(m, clause.get(k)) {
            return true;
        }
    }
    false
}

/// The last of the `n` variables from `first` on that is in a model, counted from `first`; or 0.
pub(crate) fn last_seen(m: &Model, first: usize, n: u16) -> u16
    requires { first < 2 ^ 32 }
    ensures { result ≡ last_below n (λ u. has_variable m.now (first + u)) }
{
    let mut below = n;
    'users: while below > 0 {
        below -= 1;
        if has_variable(m, first + below as usize) {
            return below;
        }
    }
    0
}
