//! Users who are away.
ghost use Rattle.std.specs.Prelude.{◌≡◌};
ghost use Rattle.policy_book.specs.Laws.Twins.{is_one_of};
ghost use Rattle.resilience_check.specs.Lists.{users_away};

use wf_names::UserId;

/// Users who are away: some list of them, or one more than others. So a longer list is made without
/// taking memory.
#[derive(Clone, Copy)]
pub(crate) enum Away<'a> {
    Those(&'a [UserId]),
    And(UserId, &'a Away<'a>),
}

/// Whether a user is away.
pub(crate) fn is_away(away: &Away<'_>, u: UserId) -> bool
    ensures { result ≡ is_one_of (users_away away.now) u }
{
    match away {
        Away::Those(users) => is_among(users, u),
        Away::And(v, others) => *v == u || is_away(others, u),
    }
}

fn is_among(users: &[UserId], u: UserId) -> bool
    ensures { result ≡ is_one_of users.now u }
{
    'users: for v in users {
        if *v == u {
            return true;
        }
    }
    false
}
