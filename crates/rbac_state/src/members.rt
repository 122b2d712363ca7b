//! Who has which role, kept as a row of users for each role.
ghost use Rattle.std.specs.Prelude.{◌≡◌, ℕ, ◌<◌, false, IsTrue};
ghost use Rattle.std.specs.FinSet as set;
ghost use Rattle.wf_names.specs.declared.limits.TheConstants.{ROLE_LIMIT, USER_LIMIT};
ghost use Rattle.wf_names.specs.UserSets.{has_user};
ghost use Rattle.rbac_state.specs.Rows.{role_row_has};

use basics::Copied;
use std::alloc::AllocError;
use std::marker::Model;
use wf_names::{ROLE_LIMIT, RoleId, UserId, UserSet};

/// Memberships: a set of pairs (user, role). Each call takes constant time.
#[derive(Drop)]
pub(crate) struct Members {
    rows: [UserSet; ROLE_LIMIT as usize],
}

impl Model for Members {
    ghost use Rattle.basics.specs.Laws.Pairs.{Pairs, pairs_code};
    ghost use Rattle.rbac_state.specs.Rows.{AreWithinLimits, memberships_of};

    ghost Value = { Pairs };

    ghost coded = { pairs_code };

    ghost view = { λ m. memberships_of m.rows };

    ghost invariant = { λ m. AreWithinLimits m.rows };
}

impl Members {
    /// Nobody has a role.
    pub(crate) fn none() -> Members
        ensures { result ≡ set.empty }
    {
        Members { rows: no_rows() }
    }

    /// Whether a user has a role.
    pub(crate) fn has(&self, u: UserId, r: RoleId) -> bool
        ensures held { result ≡ set.contains self.now (u, r) }
        ensures user { IsTrue result → u < USER_LIMIT }
        ensures role { IsTrue result → r < ROLE_LIMIT }
    {
        match self.rows.get(r.0 as usize) {
            Some(row) => row.has(u),
            None => false,
        }
    }

    /// The users who have a role.
    pub(crate) fn holders(&self, r: RoleId) -> UserSet
        ensures { (u : ℕ) → has_user result u ≡ set.contains self.now (u, r) }
    {
        match self.rows.get(r.0 as usize) {
            Some(row) => *row,
            None => UserSet::empty(),
        }
    }

    /// Gives a user a role.
    pub(crate) fn insert(&mut self, u: UserId, r: RoleId)
        requires user { u < USER_LIMIT }
        requires role { r < ROLE_LIMIT }
        ensures { self.new ≡ set.insert self.old (u, r) }
    {
        self.rows[r.0 as usize].insert(u);
    }

    /// Takes a role away from a user.
    pub(crate) fn remove(&mut self, u: UserId, r: RoleId)
        requires user { u < USER_LIMIT }
        requires role { r < ROLE_LIMIT }
        ensures { self.new ≡ set.remove self.old (u, r) }
    {
        self.rows[r.0 as usize].remove(u);
    }
}

impl Clone for Members {
    ghost is_clone = { λ x y. y ≡ x };

    fn clone(&self) -> Result<Members, AllocError> {
        Ok(Members { rows: self.rows })
    }
}

impl Copied for Members {
    ghost equal = { λ x y h. h };
}

// Rows without users.
fn no_rows() -> [UserSet; ROLE_LIMIT as usize]
    ensures { (u r : ℕ) → role_row_has result u r ≡ false }
{
    [UserSet::empty(); ROLE_LIMIT as usize]
}
