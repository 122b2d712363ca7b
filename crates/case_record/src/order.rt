//! What a workflow's order says of the steps of a case.
ghost use Rattle.std.specs.Prelude.{◌≡◌, ℕ, ◌&&◌, nat_lt, length, IsTrue, MatchOption};
ghost use Rattle.wf_names.specs.States.{is_finished};
ghost use Rattle.workflow_schema.specs.Flows.{Precedes};
ghost use Rattle.case_record.specs.Cases.{state_at};
ghost use Rattle.case_record.specs.Order.{first_missing, is_free, IsFirstMissing};

use crate::Case;
use wf_names::{StepId, StepState};
use workflow_schema::Flow;

/// The least step that comes before a step and is not finished.
pub(crate) fn first_unfinished(c: &Case, f: &Flow, s: StepId) -> Option<StepId>
    requires { length c.now.states ≡ length f.now.steps }
    ensures answer { result ≡ first_missing c.now f.now.order s }
    ensures meaning { MatchOption result ((t : ℕ) → Precedes f.now.order t s
        → IsTrue (is_finished (state_at c.now t))) (λ t. IsFirstMissing c.now f.now.order s t) }
{
    let count = f.steps().len();
    'steps: for t in 0..count {
        let t = StepId(t as u8);
        if !c.state(t).is_finished() && f.before(t, s) {
            return Some(t);
        }
    }
    None
}

/// Whether a step is one of the case's and nobody has it.
pub(crate) fn is_free_step(c: &Case, s: StepId) -> bool
    ensures { result ≡ (nat_lt s (length c.now.states) && is_free (state_at c.now s)) }
{
    s.0 < c.steps() && is_free(c.state(s))
}

fn is_free(state: StepState) -> bool
    ensures { result ≡ is_free state }
{
    matches!(state, StepState::Free)
}
