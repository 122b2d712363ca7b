//! The users to whom a step can be given.
ghost use Rattle.std.specs.Prelude.{◌≡◌, ℕ, ◌<◌, ◌&&◌, not, true, length, Some, slice_get};
ghost use Rattle.std.specs.Prelude.{slice_set};
ghost use Rattle.wf_names.specs.declared.limits.TheConstants.{STEP_LIMIT};
ghost use Rattle.wf_names.specs.UserSets.{has_user};
ghost use Rattle.policy_book.specs.Policies.{problem_of};
ghost use Rattle.policy_book.specs.Laws.Refuting.{is_broken};
ghost use Rattle.policy_book.specs.Candidates.{breaks_none};

use crate::Policy;
use constraint_forms::{Assign, keep_unfalsified};
use wf_names::{FlowId, StepId, UserSet};

/// Keeps of `users` those to whom the step `s` can be given without falsifying a rule.
pub(crate) fn keep_unbroken(p: &Policy, f: FlowId, s: StepId, a: &Assign, users: &mut UserSet)
    requires flow { f < length p.now.flows }
    requires step { s < STEP_LIMIT }
    requires known { (u : ℕ) → has_user users.old u ≡ true → u < length p.now.roster.users }
    ensures { (u : ℕ) → has_user users.new u
        ≡ (has_user users.old u && breaks_none (problem_of p.now f) (slice_set a.now s (Some u))) }
{
    'rules: for k in 0..p.rules(f).len() {
        keep_by_rule(p, f, s, a, k, users);
    }
}

// Keeps of `users` those to whom the step `s` can be given without falsifying the rule `k`.
fn keep_by_rule(p: &Policy, f: FlowId, s: StepId, a: &Assign, k: usize, users: &mut UserSet)
    requires flow { f < length p.now.flows }
    requires step { s < STEP_LIMIT }
    requires known { (u : ℕ) → has_user users.old u ≡ true → u < length p.now.roster.users }
    ensures { (u : ℕ) → has_user users.new u
        ≡ (has_user users.old u && not (is_broken (problem_of p.now f) (slice_set a.now s (Some u))
        (slice_get (problem_of p.now f).rules k))) }
{
    let count = p.roster().users().len();
    if let Some(rule) = p.rules(f).as_slice().get(k) {
        keep_unfalsified(rule, p, a, s, count, users);
    }
}
