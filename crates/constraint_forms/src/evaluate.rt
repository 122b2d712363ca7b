//! Whether a partial assignment falsifies a rule, and whether a plan satisfies it.
ghost use Rattle.std.specs.Prelude.{◌≡◌, ℕ, ◌<◌, IsTrue, Some, length};
ghost use Rattle.constraint_forms.specs.Rules.{all_from, any_from, are_unrelated, different};
ghost use Rattle.constraint_forms.specs.Rules.{is_falsified, is_satisfied, turned, users_from};
ghost use Rattle.constraint_forms.specs.Rules.{IsRuleOf};
ghost use Rattle.constraint_forms.specs.Assign.{is_member, planned, user_at};

use crate::count::{assigned_by, count_free, count_users};
use crate::{Assign, Holds, Plan, Rule, StepSet};
use wf_names::{RelId, StepId, UserId};

/// Whether a rule is falsified: whatever users the free steps get, the rule will not be satisfied.
pub fn falsified<H: Holds>(rule: &Rule, h: &H, a: &Assign) -> bool
    ensures { result ≡ is_falsified (H.related h.now) rule.now (user_at a.now) }
{
    match *rule {
        Rule::Pair { rho, first, second } => is_unrelated(h, rho, false, a.at(first), a.at(second)),
        Rule::SomeOf { rho, group, step } => a.at(step).is_some()
            && all_unrelated(h, rho, false, a, &group, step),
        Rule::AllOf { rho, group, step } => any_unrelated(h, rho, false, a, &group, step),
        Rule::SomeTo { rho, step, group } => a.at(step).is_some()
            && all_unrelated(h, rho, true, a, &group, step),
        Rule::AllTo { rho, step, group } => any_unrelated(h, rho, true, a, &group, step),
        Rule::AtMost { limit, group } => (limit as usize) < count_users(a, &group),
        Rule::AtLeast { limit, group } => count_users(a, &group) + count_free(a, &group)
            < limit as usize,
    }
}

/// Whether a plan for at least the rule's steps satisfies the rule.
pub fn satisfied<H: Holds>(rule: &Rule, h: &H, plan: &Plan) -> bool
    requires { IsRuleOf (length plan.now) rule.now }
    ensures { result ≡ is_satisfied (H.related h.now) rule.now (planned plan.now) }
{
    match *rule {
        Rule::Pair { rho, first, second } => h.holds(rho, plan.at(first), plan.at(second)),
        Rule::SomeOf { rho, group, step } => any_related(
            h,
            rho,
            false,
            plan,
            &group,
            plan.at(step),
        ),
        Rule::AllOf { rho, group, step } => all_related(h, rho, false, plan, &group, plan.at(step)),
        Rule::SomeTo { rho, step, group } => any_related(h, rho, true, plan, &group, plan.at(step)),
        Rule::AllTo { rho, step, group } => all_related(h, rho, true, plan, &group, plan.at(step)),
        Rule::AtMost { limit, group } => count_planned(plan, &group) <= limit as usize,
        Rule::AtLeast { limit, group } => limit as usize <= count_planned(plan, &group),
    }
}

/// Whether a relation holds from one user to another; read back, from the other to the one.
pub(crate) fn is_related<H: Holds>(h: &H, rho: RelId, back: bool, u: UserId, v: UserId) -> bool
    ensures { result ≡ turned back (H.related h.now) rho u v }
{
    if back {
        h.holds(rho, v, u)
    } else {
        h.holds(rho, u, v)
    }
}

/// Whether both users are there and are unrelated.
pub(crate) fn is_unrelated<H: Holds>(
    h: &H,
    rho: RelId,
    back: bool,
    u: Option<UserId>,
    v: Option<UserId>,
) -> bool
    ensures { result ≡ are_unrelated (turned back (H.related h.now)) rho u v }
{
    match (u, v) {
        (Some(u), Some(v)) => !is_related(h, rho, back, u, v),
        _ => false,
    }
}

// How many users a plan gives to the members.
fn count_planned(plan: &Plan, group: &StepSet) -> usize
    requires { (x : ℕ) → IsTrue (is_member group.now x) → x < length plan.now }
    ensures { result ≡ different (users_from 0 group.now (λ s. Some (planned plan.now s))) }
{
    count_users(&assigned_by(plan), group)
}

// Whether some member is assigned and unrelated to the step.
#[tactic(auto, using(crate::proofs::Walking::any_walk))]
fn any_unrelated<H: Holds>(
    h: &H,
    rho: RelId,
    back: bool,
    a: &Assign,
    group: &StepSet,
    step: StepId,
) -> bool
    ensures { result ≡ any_from 0 group.now
        (λ x. are_unrelated (turned back (H.related h.now)) rho
        (user_at a.now x) (user_at a.now step)) }
{
    let mut from = 0;
    'members: while let Some(member) = group.next(from) {
        if is_unrelated(h, rho, back, a.at(member), a.at(step)) {
            return true;
        }
        from = member.0 + 1;
    }
    false
}

// Whether every member is assigned and unrelated to the step.
#[tactic(auto, using(crate::proofs::Walking::all_walk))]
fn all_unrelated<H: Holds>(
    h: &H,
    rho: RelId,
    back: bool,
    a: &Assign,
    group: &StepSet,
    step: StepId,
) -> bool
    ensures { result ≡ all_from 0 group.now
        (λ x. are_unrelated (turned back (H.related h.now)) rho
        (user_at a.now x) (user_at a.now step)) }
{
    let mut from = 0;
    'members: while let Some(member) = group.next(from) {
        if !is_unrelated(h, rho, back, a.at(member), a.at(step)) {
            return false;
        }
        from = member.0 + 1;
    }
    true
}

// Whether the user of some member is related to v.
#[tactic(auto, using(crate::proofs::Walking::any_walk))]
fn any_related<H: Holds>(
    h: &H,
    rho: RelId,
    back: bool,
    plan: &Plan,
    group: &StepSet,
    v: UserId,
) -> bool
    requires { (x : ℕ) → IsTrue (is_member group.now x) → x < length plan.now }
    ensures { result ≡ any_from 0 group.now
        (λ x. turned back (H.related h.now) rho (planned plan.now x) v) }
{
    let mut from = 0;
    'members: while let Some(member) = group.next(from) {
        if is_related(h, rho, back, plan.at(member), v) {
            return true;
        }
        from = member.0 + 1;
    }
    false
}

// Whether the user of every member is related to v.
#[tactic(auto, using(crate::proofs::Walking::all_walk))]
fn all_related<H: Holds>(
    h: &H,
    rho: RelId,
    back: bool,
    plan: &Plan,
    group: &StepSet,
    v: UserId,
) -> bool
    requires { (x : ℕ) → IsTrue (is_member group.now x) → x < length plan.now }
    ensures { result ≡ all_from 0 group.now
        (λ x. turned back (H.related h.now) rho (planned plan.now x) v) }
{
    let mut from = 0;
    'members: while let Some(member) = group.next(from) {
        if !is_related(h, rho, back, plan.at(member), v) {
            return false;
        }
        from = member.0 + 1;
    }
    true
}
