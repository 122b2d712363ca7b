//! The pairs that a workflow is made of, read from lists.
ghost use Rattle.std.specs.Prelude.{◌≡◌, ℕ, ◌<◌, ◌≤◌, true, false, length, MatchOption};
ghost use Rattle.std.specs.List.{All};
ghost use Rattle.std.specs.FinSet as set;
ghost use Rattle.basics.specs.Laws.Pairs.{pair_cmp};
ghost use Rattle.wf_names.specs.declared.limits.TheConstants.{ROLE_LIMIT, STEP_LIMIT};
ghost use Rattle.workflow_schema.specs.Flows.{has_twice};
ghost use Rattle.workflow_schema.specs.Tables.{table_has};

use crate::StepPairs;
use crate::table::{has_flag, set_flag};
use wf_names::{RoleId, STEP_LIMIT, StepId};

/// The set of the pairs of a list, where no pair is repeated.
pub(crate) fn order_table(order: &[(StepId, StepId)]) -> Option<StepPairs>
    requires { All (λ p. (p.0 < STEP_LIMIT) × (p.1 < STEP_LIMIT)) order.now }
    ensures { MatchOption result (has_twice order.now ≡ true)
        (λ pairs. (has_twice order.now ≡ false) × (pairs ≡ set.from_list order.now)) }
{
    let mut pairs = StepPairs::new();
    'pairs: for i in (0..order.len()).rev() {
        let (s, t) = order[i];
        if !pairs.insert(s, t) {
            return None;
        }
    }
    Some(pairs)
}

/// The table with the flag `r` in row `s` for each pair (r, s), where no pair is repeated.
pub(crate) fn permit_table(permits: &[(RoleId, StepId)]) -> Option<[u64; STEP_LIMIT]>
    requires { All (λ p. (p.0 < ROLE_LIMIT) × (p.1 < STEP_LIMIT)) permits.now }
    ensures { MatchOption result (has_twice permits.now ≡ true)
        (λ rows. (has_twice permits.now ≡ false) × (length rows ≡ STEP_LIMIT)
        × ((s r : ℕ) → table_has rows s r
        ≡ set.contains (set.from_list {R = pair_cmp} permits.now) (r, s))) }
{
    let mut rows = [0; STEP_LIMIT];
    'pairs: for i in (0..permits.len()).rev() {
        let (r, s) = permits[i];
        if has_flag(&rows, s.0 as usize, r.0) {
            return None;
        }
        set_flag(&mut rows, s.0 as usize, r.0);
    }
    Some(rows)
}
