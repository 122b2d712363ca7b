//! What a rule leaves of a set of users who could be given a free step.
ghost use Rattle.std.specs.Prelude.{◌≡◌, ◌&&◌, ℕ, ◌<◌, ◌≤◌, IsTrue, List, Option, Some, is_some};
ghost use Rattle.std.specs.Prelude.{length, nat_lt, not, slice_set};
ghost use Rattle.wf_names.specs.declared.limits.TheConstants.{STEP_LIMIT, USER_LIMIT};
ghost use Rattle.wf_names.specs.UserSets.{has_user};
ghost use Rattle.constraint_forms.specs.Assign.{user_at};
ghost use Rattle.constraint_forms.specs.Kept.{are_unrelated_with, too_few_with, too_many_with};
ghost use Rattle.constraint_forms.specs.Kept.{IsBelow};
ghost use Rattle.constraint_forms.specs.Rules.{all_from, any_from, are_unrelated, is_falsified};
ghost use Rattle.constraint_forms.specs.Rules.{turned};

use crate::count::{count_free, count_users, users_of};
use crate::evaluate::{is_related, is_unrelated};
use crate::{Assign, Holds, Rule, StepSet};
use wf_names::{RelId, StepId, UserId, UserSet};

/// What tells which users are related, and gives those related to one user as a set.
pub trait RelatedRows: Holds {
    /// The users below a number to whom a user is related.
    fn after(&self, rho: RelId, u: UserId, users: u16) -> UserSet
        requires { users ≤ USER_LIMIT }
        ensures { (v : ℕ) → has_user result v ≡ (nat_lt v users && Self.related self.now rho u v) };

    /// The users below a number who are related to a user.
    fn ahead(&self, rho: RelId, u: UserId, users: u16) -> UserSet
        requires { users ≤ USER_LIMIT }
        ensures { (v : ℕ) → has_user result v ≡ (nat_lt v users && Self.related self.now rho v u) };
}

// What is asked of a rule: who among the users below `users` may be given the step `s`, beside
// those that are given already.
#[derive(Clone, Copy)]
struct Asked {
    given: Assign,
    s: StepId,
    users: u16,
    ghost step: { s < STEP_LIMIT },
    ghost few: { users ≤ USER_LIMIT },
}

/// Keeps the users of a set who may be given a step: those with whom the rule is not falsified.
pub fn keep_unfalsified<R: RelatedRows>(
    rule: &Rule,
    rows: &R,
    a: &Assign,
    s: StepId,
    users: u16,
    set: &mut UserSet,
)
    requires step { s < STEP_LIMIT }
    requires users { users ≤ USER_LIMIT }
    requires below { IsBelow users set.old }
    ensures { (u : ℕ) → has_user set.new u
        ≡ (has_user set.old u && not (is_falsified (R.related rows.now) rule.now
        (user_at (slice_set a.now s (Some u))))) }
{
    let asked = &Asked {
        given: *a,
        s,
        users,
    };
    match *rule {
        Rule::Pair { rho, first, second } => {
            keep_related(rows, rho, false, asked, first, second, set)
        }
        Rule::SomeOf { rho, group, step } => {
            keep_related_to_some(rows, rho, false, asked, &group, step, set)
        }
        Rule::AllOf { rho, group, step } => {
            keep_related_to_all(rows, rho, false, asked, &group, step, set)
        }
        Rule::SomeTo { rho, step, group } => {
            keep_related_to_some(rows, rho, true, asked, &group, step, set)
        }
        Rule::AllTo { rho, step, group } => {
            keep_related_to_all(rows, rho, true, asked, &group, step, set)
        }
        Rule::AtMost { limit, group } => keep_at_most(limit, asked, &group, set),
        Rule::AtLeast { limit, group } => keep_at_least(limit, asked, &group, set),
    }
}

// Keeps the users with whom some member is free or related to the step, or the step is free.
fn keep_related_to_some<R: RelatedRows>(
    rows: &R,
    rho: RelId,
    back: bool,
    asked: &Asked,
    group: &StepSet,
    step: StepId,
    set: &mut UserSet,
)
    requires { IsBelow asked.now.users set.old }
    ensures { (u : ℕ) → has_user set.new u
        ≡ (has_user set.old u && not (is_some (user_at
        (slice_set asked.now.given asked.now.s (Some u)) step) && all_from 0 group.now
        (λ x. are_unrelated_with (turned back (R.related rows.now)) rho asked.now.given x step
        asked.now.s u))) }
{
    if asked.given.at(step).is_some() || asked.s == step {
        keep_related_to_member(rows, rho, back, asked, group, step, set);
    }
}

// Keeps the users with whom some member is free or related to the step, which is no free one then.
fn keep_related_to_member<R: RelatedRows>(
    rows: &R,
    rho: RelId,
    back: bool,
    asked: &Asked,
    group: &StepSet,
    step: StepId,
    set: &mut UserSet,
)
    requires { IsBelow asked.now.users set.old }
    ensures { (u : ℕ) → has_user set.new u
        ≡ (has_user set.old u && not (all_from 0 group.now
        (λ x. are_unrelated_with (turned back (R.related rows.now)) rho asked.now.given x step
        asked.now.s u))) }
{
    let mut kept = UserSet::empty();
    let mut from = 0;
    'members: while let Some(member) = group.next(from) {
        let mut related = *set;
        keep_related(rows, rho, back, asked, member, step, &mut related);
        kept.join(&related);
        from = member.0 + 1;
    }
    *set = kept;
}

// Keeps the users with whom every member is free or related to the step, or the step is free.
fn keep_related_to_all<R: RelatedRows>(
    rows: &R,
    rho: RelId,
    back: bool,
    asked: &Asked,
    group: &StepSet,
    step: StepId,
    set: &mut UserSet,
)
    requires { IsBelow asked.now.users set.old }
    ensures { (u : ℕ) → has_user set.new u
        ≡ (has_user set.old u && not (any_from 0 group.now
        (λ x. are_unrelated_with (turned back (R.related rows.now)) rho asked.now.given x step
        asked.now.s u))) }
{
    let mut from = 0;
    'members: while let Some(member) = group.next(from) {
        keep_related(rows, rho, back, asked, member, step, set);
        from = member.0 + 1;
    }
}

// Keeps the users with whom the steps x and y are not both assigned, or are related.
fn keep_related<R: RelatedRows>(
    rows: &R,
    rho: RelId,
    back: bool,
    asked: &Asked,
    x: StepId,
    y: StepId,
    set: &mut UserSet,
)
    requires { IsBelow asked.now.users set.old }
    ensures { (u : ℕ) → has_user set.new u
        ≡ (has_user set.old u
        && not (are_unrelated_with (turned back (R.related rows.now)) rho asked.now.given x y
        asked.now.s u)) }
{
    let (u, v) = (asked.given.at(x), asked.given.at(y));
    match (x == asked.s, y == asked.s) {
        (true, true) => keep_related_to_self(rows, rho, asked.users, set),
        (true, false) => keep_ahead(rows, rho, back, v, asked.users, set),
        (false, true) => keep_ahead(rows, rho, !back, u, asked.users, set),
        (false, false) => {
            if is_unrelated(rows, rho, back, u, v) {
                *set = UserSet::empty();
            }
        }
    }
}

// Keeps the users who are related to a user, if there is one; read back, those to whom the user is
// related.
fn keep_ahead<R: RelatedRows>(
    rows: &R,
    rho: RelId,
    back: bool,
    v: Option<UserId>,
    users: u16,
    set: &mut UserSet,
)
    requires users { users ≤ USER_LIMIT }
    requires below { IsBelow users set.old }
    ensures { (u : ℕ) → has_user set.new u ≡ (has_user set.old u
        && not (are_unrelated (turned back (R.related rows.now)) rho (Some u) v)) }
{
    if let Some(v) = v {
        set.meet(&related_to(rows, rho, back, v, users));
    }
}

// The users who are related to a user; read back, those to whom the user is related.
fn related_to<R: RelatedRows>(rows: &R, rho: RelId, back: bool, v: UserId, users: u16) -> UserSet
    requires { users ≤ USER_LIMIT }
    ensures { (u : ℕ) → has_user result u
        ≡ (nat_lt u users && turned back (R.related rows.now) rho u v) }
{
    if back {
        rows.after(rho, v, users)
    } else {
        rows.ahead(rho, v, users)
    }
}

// Keeps the users who are related to themselves.
fn keep_related_to_self<R: RelatedRows>(rows: &R, rho: RelId, users: u16, set: &mut UserSet)
    requires users { users ≤ USER_LIMIT }
    requires below { IsBelow users set.old }
    ensures { (u : ℕ) → has_user set.new u ≡ (has_user set.old u && R.related rows.now rho u u) }
{
    'users: for u in 0..users {
        if set.has(UserId(u)) && !rows.holds(rho, UserId(u), UserId(u)) {
            set.remove(UserId(u));
        }
    }
}

// Keeps the users with whom the members have `limit` users at most.
fn keep_at_most(limit: u8, asked: &Asked, group: &StepSet, set: &mut UserSet)
    requires { IsBelow asked.now.users set.old }
    ensures { (u : ℕ) → has_user set.new u
        ≡ (has_user set.old u && not (too_many_with limit group.now
        asked.now.given asked.now.s u)) }
{
    let others = asked.given.without(asked.s);
    let count = count_users(&others, group);
    if count > limit as usize {
        *set = UserSet::empty();
    } else if count == limit as usize && group.has(asked.s) {
        set.meet(&users_of(&others, group));
    }
}

// Keeps the users with whom the members have `limit` users at least, once the free ones have some.
fn keep_at_least(limit: u8, asked: &Asked, group: &StepSet, set: &mut UserSet)
    requires { IsBelow asked.now.users set.old }
    ensures { (u : ℕ) → has_user set.new u
        ≡ (has_user set.old u && not (too_few_with limit group.now
        asked.now.given asked.now.s u)) }
{
    let others = asked.given.without(asked.s);
    let count = count_users(&others, group) + count_free(&others, group);
    if count < limit as usize {
        *set = UserSet::empty();
    } else if count == limit as usize && group.has(asked.s) {
        set.strike(&users_of(&others, group));
    }
}
