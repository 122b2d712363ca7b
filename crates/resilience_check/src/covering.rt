//! Whether a family of plans has a whole one left, whoever is absent.
ghost use Rattle.std.specs.Prelude.{◌≡◌, ℕ, ◌+◌, ◌<◌, ◌≤◌, ◌↔◌, ◌∷◌, true, false, length, IsTrue};
ghost use Rattle.std.specs.Prelude.{MatchOption};
ghost use Rattle.constraint_forms.specs.Assign.{planned};
ghost use Rattle.resilience_check.specs.Covering.{is_whole, leaves_some, CoversAbsences};
ghost use Rattle.resilience_check.specs.Lists.{users_away, AreFrom, CanBreak, IsWholeIn};
ghost use Rattle.resilience_check.specs.Lists.{Withstands};

use crate::Plans;
use crate::away::{Away, is_away};
use policy_book::Plan;
use wf_names::StepId;

/// Whether every set of at most `t` users leaves some plan with no user of that set. Takes no
/// memory.
pub fn covers(plans: &Plans, t: u8) -> bool
    ensures { IsTrue result ↔ CoversAbsences plans.now t }
{
    !can_break(plans.as_slice(), &Away::Those(&[]), 0, t)
}

/// Whether at most `left` users, numbered from `from` on, leave with those away no plan whole.
#[cycle(breaking)]
pub(crate) fn can_break(plans: &[Plan], away: &Away<'_>, from: u16, left: u8) -> bool
    ensures yes { result ≡ true → CanBreak plans.now (users_away away.now) from left }
    ensures no { result ≡ false → Withstands plans.now (users_away away.now) from left }
{
    match first_whole(plans, away) {
        None => true,
        Some(plan) => left > 0 && can_break_one(plans, away, &plan, from, left - 1),
    }
}

// Whether some user of a plan is such that, with them away too, `left` more can break the family.
#[cycle(breaking)]
fn can_break_one(plans: &[Plan], away: &Away<'_>, plan: &Plan, from: u16, left: u8) -> bool
    ensures yes { result ≡ true → CanBreak plans.now (users_away away.now) from (left + 1) }
    ensures no { result ≡ false → (s : ℕ) → s < length plan.now → from ≤ planned plan.now s
        → Withstands plans.now (planned plan.now s ∷ users_away away.now) from left }
{
    'steps: for s in 0..plan.len() {
        let u = plan.at(StepId(s));
        if u.0 >= from && can_break(plans, &Away::And(u, &*away), from, left) {
            return true;
        }
    }
    false
}

/// The first plan with nobody who is away.
fn first_whole(plans: &[Plan], away: &Away<'_>) -> Option<Plan>
    ensures { MatchOption result (leaves_some plans.now (users_away away.now) ≡ false)
        (IsWholeIn plans.now (users_away away.now)) }
{
    'plans: for plan in plans {
        if is_whole(plan, away) {
            return Some(*plan);
        }
    }
    None
}

fn is_whole(plan: &Plan, away: &Away<'_>) -> bool
    ensures { result ≡ is_whole (users_away away.now) plan.now }
{
    'steps: for s in 0..plan.len() {
        if is_away(away, plan.at(StepId(s))) {
            return false;
        }
    }
    true
}
