//! Where a case and its steps stand.
ghost use Rattle.std.specs.Prelude.{◌≡◌};
ghost use Rattle.wf_names.specs.States.{user_of, is_held, is_finished, is_live, is_done};

use crate::UserId;

/// Where a step of a case stands.
#[derive(Clone, Copy, PartialEq, Eq)]
pub enum StepState {
    /// Nobody has it.
    Free,
    /// A user has it and has not finished it.
    Held(UserId),
    /// A user has finished it.
    Finished(UserId),
}

/// Where a case stands. A case that is done or withdrawn stays so.
#[derive(Clone, Copy, PartialEq, Eq)]
pub enum Phase {
    /// It is open.
    Live,
    /// Every step is finished.
    Done,
    /// It was ended before every step was finished.
    Withdrawn,
}

impl StepState {
    /// The user who holds or finished the step.
    pub fn user(self) -> Option<UserId>
        ensures { result ≡ user_of self }
    {
        match self {
            StepState::Free => None,
            StepState::Held(user) | StepState::Finished(user) => Some(user),
        }
    }

    /// Whether a user has the step and has not finished it.
    pub fn is_held(self) -> bool
        ensures { result ≡ is_held self }
    {
        matches!(self, StepState::Held(_))
    }

    /// Whether the step is finished.
    pub fn is_finished(self) -> bool
        ensures { result ≡ is_finished self }
    {
        matches!(self, StepState::Finished(_))
    }
}

impl Phase {
    /// Whether the case is open.
    pub fn is_live(self) -> bool
        ensures { result ≡ is_live self }
    {
        matches!(self, Phase::Live)
    }

    /// Whether every step of the case is finished.
    pub fn is_done(self) -> bool
        ensures { result ≡ is_done self }
    {
        matches!(self, Phase::Done)
    }
}
