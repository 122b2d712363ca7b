//! Plans: a user for each step of a workflow.
ghost use Rattle.std.specs.Prelude.{◌≡◌, ◌<◌, ◌≤◌, length, slice_index};
ghost use Rattle.wf_names.specs.declared.limits.TheConstants.{STEP_LIMIT};

use std::marker::Model;
use wf_names::{STEP_LIMIT, StepId, UserId};

/// A list of users, one for each step of a workflow in the order of the steps' numbers.
#[derive(Clone, Copy, PartialEq, Eq)]
pub struct Plan {
    users: [UserId; STEP_LIMIT],
    len: u8,
}

impl Model for Plan {
    ghost use Rattle.std.specs.Prelude.{ℕ, List, length, take};
    ghost use Rattle.wf_names.specs.declared.limits.TheConstants.{STEP_LIMIT};
    ghost use Rattle.wf_names.specs.Padded.{padded, IsPadded, padded-take, length-taken};

    ghost Value = { List ℕ };

    ghost view = { λ p. take p.len p.users };

    ghost invariant = { λ p. IsPadded STEP_LIMIT 0 p.users p.len };

    ghost inverse = { λ users. record { users = padded STEP_LIMIT 0 users; len = length users } };

    ghost inverse_ok = { λ p h i. record {
      users = padded-take STEP_LIMIT 0 p.users p.len h i;
      len = length-taken STEP_LIMIT 0 p.users p.len h i;
    } };
}

impl Plan {
    /// The plan that gives step s to the user at place s.
    pub fn of(users: &[UserId]) -> Plan
        requires { length users.now ≤ STEP_LIMIT }
        ensures { result ≡ users.now }
    {
        let mut kept = [UserId(0); STEP_LIMIT];
        let len = users.len();
        kept[..len].copy_from_slice(users);
        Plan {
            users: kept,
            len: len as u8,
        }
    }

    /// The user of a step.
    pub fn at(&self, s: StepId) -> UserId
        requires { s < length self.now }
        ensures { result ≡ slice_index self.now s }
    {
        self.users[s.0 as usize]
    }

    /// How many steps the plan is for.
    pub fn len(&self) -> u8
        ensures count { result ≡ length self.now }
        ensures within { length self.now ≤ STEP_LIMIT }
    {
        self.len
    }
}
