//! Where the steps of a case stand, as a short list.
ghost use Rattle.std.specs.Prelude.{◌≡◌, ◌≤◌, length, replicate};
ghost use Rattle.wf_names.specs.declared.limits.TheConstants.{STEP_LIMIT};
ghost use Rattle.wf_names.specs.declared.states.StepState.TheVariants.{Free};

use std::marker::Model;
use wf_names::{STEP_LIMIT, StepState};

/// Where each step of a case stands, in the order of the steps' numbers.
#[derive(Clone, Copy)]
pub struct States {
    cells: [StepState; STEP_LIMIT],
    len: u8,
}

impl Model for States {
    ghost use Rattle.std.specs.Prelude.{List, length, take};
    ghost use Rattle.wf_names.specs.declared.limits.TheConstants.{STEP_LIMIT};
    ghost use Rattle.wf_names.specs.declared.states.StepState.{StepState};
    ghost use Rattle.wf_names.specs.declared.states.StepState.TheVariants.{Free};
    ghost use Rattle.wf_names.specs.Padded.{padded, IsPadded, padded-take, length-taken};

    ghost Value = { List StepState };

    ghost view = { λ s. take s.len s.cells };

    ghost invariant = { λ s. IsPadded STEP_LIMIT Free s.cells s.len };

    ghost inverse = { λ states.
        record { cells = padded STEP_LIMIT Free states; len = length states } };

    ghost inverse_ok = { λ s h i. record {
      cells = padded-take STEP_LIMIT Free s.cells s.len h
          i;
      len = length-taken STEP_LIMIT Free s.cells s.len h i;
    } };
}

impl States {
    /// The states of a list, in order.
    pub fn of(states: &[StepState]) -> States
        requires { length states.now ≤ STEP_LIMIT }
        ensures { result ≡ states.now }
    {
        let mut cells = free_steps();
        let len = states.len();
        cells[..len].copy_from_slice(states);
        States {
            cells,
            len: len as u8,
        }
    }

    /// How many steps there are.
    pub fn len(&self) -> usize
        ensures count { result ≡ length self.now }
        ensures within { length self.now ≤ STEP_LIMIT }
    {
        self.len as usize
    }

    /// All of them, in order.
    pub fn as_slice(&self) -> &[StepState]
        ensures states { result.now ≡ self.now }
        ensures within { length self.now ≤ STEP_LIMIT }
    {
        &self.cells[..self.len as usize]
    }
}

fn free_steps() -> [StepState; STEP_LIMIT]
    ensures { result ≡ replicate STEP_LIMIT Free }
{
    [StepState::Free; STEP_LIMIT]
}
