//! Parts of the users below a number.
ghost use Rattle.std.specs.Prelude.{◌≡◌, ◌<◌, ◌≤◌, ◌==◌, ◌&&◌, not, nat_lt, ℕ};
ghost use Rattle.wf_names.specs.declared.limits.TheConstants.{USER_LIMIT};
ghost use Rattle.wf_names.specs.UserSets.{has_user};

use wf_names::{USER_LIMIT, UserId, UserSet};

/// The users of a set whose numbers are below `users`.
pub(crate) fn below(users: u16, set: &UserSet) -> UserSet
    requires { users ≤ USER_LIMIT }
    ensures { (v : ℕ) → has_user result v ≡ (nat_lt v users && has_user set.now v) }
{
    let mut kept = UserSet::up_to(users);
    kept.meet(set);
    kept
}

/// The users below `users` who are not in a set.
pub(crate) fn others(users: u16, set: &UserSet) -> UserSet
    requires { users ≤ USER_LIMIT }
    ensures { (v : ℕ) → has_user result v ≡ (nat_lt v users && not (has_user set.now v)) }
{
    let mut kept = UserSet::up_to(users);
    kept.strike(set);
    kept
}

/// A user, where below `users`.
pub(crate) fn alone(users: u16, u: UserId) -> UserSet
    requires { users ≤ USER_LIMIT }
    ensures { (v : ℕ) → has_user result v ≡ (nat_lt v users && v == u) }
{
    let mut set = UserSet::empty();
    if u.0 < users {
        set.insert(u);
    }
    set
}

/// The users below `users` but for one.
pub(crate) fn all_but(users: u16, u: UserId) -> UserSet
    requires { users ≤ USER_LIMIT }
    ensures { (v : ℕ) → has_user result v ≡ (nat_lt v users && not (v == u)) }
{
    let mut set = UserSet::up_to(users);
    if u.0 < users {
        set.remove(u);
    }
    set
}
