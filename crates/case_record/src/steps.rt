//! What the steps of a case come to, as assignments and sets.
ghost use Rattle.std.specs.Prelude.{◌≡◌, ℕ, ◌<◌, ◌≤◌, length, map, slice_set, replicate};
ghost use Rattle.std.specs.List.{list_all};
ghost use Rattle.wf_names.specs.declared.states.StepState.TheVariants.{Free};
ghost use Rattle.wf_names.specs.declared.limits.TheConstants.{STEP_LIMIT};
ghost use Rattle.wf_names.specs.States.{user_of, is_finished};
ghost use Rattle.case_record.specs.Cases.{as_finished, phase_after};

use constraint_forms::{Assign, StepSet};
use wf_names::{Phase, STEP_LIMIT, StepId, StepState};

/// Every step free.
pub(crate) fn all_free() -> [StepState; STEP_LIMIT]
    ensures { result ≡ replicate STEP_LIMIT Free }
{
    [StepState::Free; STEP_LIMIT]
}

/// The users of the steps that are held or finished.
pub(crate) fn assigned(cells: &[StepState]) -> Assign
    requires { length cells.now ≡ STEP_LIMIT }
    ensures { result ≡ map user_of cells.now }
{
    let mut users = Assign::empty();
    'steps: for (s, state) in cells.iter().enumerate() {
        match state.user() {
            Some(user) => users = users.with(StepId(s as u8), user),
            None => {}
        }
    }
    users
}

/// The steps that are finished.
pub(crate) fn finished(cells: &[StepState]) -> StepSet
    requires { length cells.now ≡ STEP_LIMIT }
    ensures { result ≡ map is_finished cells.now }
{
    let mut done = StepSet::empty();
    'steps: for (s, state) in cells.iter().enumerate() {
        if state.is_finished() {
            done = done.with(StepId(s as u8));
        }
    }
    done
}

/// A held step, finished by its holder.
pub(crate) fn as_finished(state: StepState) -> StepState
    ensures { result ≡ as_finished state }
{
    match state {
        StepState::Free => StepState::Free,
        StepState::Held(user) | StepState::Finished(user) => StepState::Finished(user),
    }
}

/// The phase of a case with these steps.
pub(crate) fn phase_after(states: &[StepState], phase: Phase) -> Phase
    ensures { result ≡ phase_after states.now phase }
{
    if are_finished(states) {
        Phase::Done
    } else {
        phase
    }
}

fn are_finished(states: &[StepState]) -> bool
    ensures { result ≡ list_all is_finished states.now }
{
    states.iter().all(|state| state.is_finished())
}
