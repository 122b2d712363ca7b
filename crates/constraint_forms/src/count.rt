//! How many users the steps of a group have.
ghost use Rattle.std.specs.Prelude.{◌≡◌, ◌+◌, ◌≤◌, ◌<◌, ◌||◌, ℕ, Some, [], length, drop};
ghost use Rattle.wf_names.specs.declared.limits.TheConstants.{STEP_LIMIT, USER_LIMIT};
ghost use Rattle.wf_names.specs.UserSets.{has_user};
ghost use Rattle.constraint_forms.specs.Assign.{planned, user_at};
ghost use Rattle.constraint_forms.specs.Rules.{different, free_from, is_among, user_onto};
ghost use Rattle.constraint_forms.specs.Rules.{users_from};
ghost use Rattle.constraint_forms.specs.Kept.{counts_before};

use crate::{Assign, Plan, StepSet};
use wf_names::{StepId, USER_LIMIT, UserId, UserSet};

/// How many users the members have.
#[tactic(auto, using(crate::proofs::Walking::members_walk))]
pub(crate) fn count_users(a: &Assign, group: &StepSet) -> usize
    ensures users { result ≡ different (users_from 0 group.now (user_at a.now)) }
    ensures few { result ≤ STEP_LIMIT }
{
    let mut count = 0;
    let mut from = 0;
    'members: while let Some(member) = group.next(from) {
        if is_last(a, group, member) {
            count += 1;
        }
        from = member.0 + 1;
    }
    count
}

// Whether a step has a user whom no later member has.
fn is_last(a: &Assign, group: &StepSet, s: StepId) -> bool
    requires { s < STEP_LIMIT }
    ensures { result ≡ counts_before (user_at a.now s)
        (users_from (s + 1) (drop (s + 1) group.now) (user_at a.now)) }
{
    match a.at(s) {
        Some(u) => !is_user_from(a, group, s.0 + 1, u),
        None => false,
    }
}

// Whether a member from a step on has a user.
#[tactic(auto, using(crate::proofs::Walking::members_walk))]
fn is_user_from(a: &Assign, group: &StepSet, first: u8, u: UserId) -> bool
    requires { first ≤ STEP_LIMIT }
    ensures { result ≡ is_among (users_from first (drop first group.now) (user_at a.now)) u }
{
    let mut from = first;
    'members: while let Some(member) = group.next(from) {
        if is_user(a.at(member), u) {
            return true;
        }
        from = member.0 + 1;
    }
    false
}

// Whether a step's user is a certain one.
fn is_user(user: Option<UserId>, u: UserId) -> bool
    ensures { result ≡ is_among (user_onto user []) u }
{
    match user {
        Some(v) => v == u,
        None => false,
    }
}

/// How many members are free.
#[tactic(auto, using(crate::proofs::Walking::members_walk))]
pub(crate) fn count_free(a: &Assign, group: &StepSet) -> usize
    ensures free { result ≡ free_from 0 group.now (user_at a.now) }
    ensures few { result ≤ STEP_LIMIT }
{
    let mut count = 0;
    let mut from = 0;
    'members: while let Some(member) = group.next(from) {
        if a.at(member).is_none() {
            count += 1;
        }
        from = member.0 + 1;
    }
    count
}

/// The users of the members, those below the limit of users.
#[tactic(auto, using(crate::proofs::Walking::members_walk))]
pub(crate) fn users_of(a: &Assign, group: &StepSet) -> UserSet
    ensures { (u : ℕ) → u < USER_LIMIT
        → has_user result u ≡ is_among (users_from 0 group.now (user_at a.now)) u }
{
    let mut users = UserSet::empty();
    let mut from = 0;
    'members: while let Some(member) = group.next(from) {
        put_in(&mut users, a.at(member));
        from = member.0 + 1;
    }
    users
}

// Puts in a user, if there is one.
fn put_in(users: &mut UserSet, user: Option<UserId>)
    ensures { (u : ℕ) → u < USER_LIMIT
        → has_user users.new u ≡ (is_among (user_onto user []) u || has_user users.old u) }
{
    if let Some(u) = user {
        if u.0 < USER_LIMIT {
            users.insert(u);
        }
    }
}

/// The assignment that gives each step of a plan to its user.
pub(crate) fn assigned_by(plan: &Plan) -> Assign
    ensures { (s : ℕ) → s < length plan.now → user_at result s ≡ Some (planned plan.now s) }
{
    let mut a = Assign::empty();
    'steps: for s in 0..plan.len() {
        a = a.with(StepId(s), plan.at(StepId(s)));
    }
    a
}
