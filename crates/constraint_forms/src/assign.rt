//! Partial assignments of users to steps.
ghost use Rattle.std.specs.Prelude.{◌≡◌, ◌<◌, None, Some, ℕ, length, slice_set};
ghost use Rattle.wf_names.specs.declared.limits.TheConstants.{STEP_LIMIT};
ghost use Rattle.constraint_forms.specs.Assign.{no_users, user_at};

use std::marker::Model;
use wf_names::{STEP_LIMIT, StepId, UserId};

/// A finite map from steps to users. Contracts see the list of what each step below the limit has.
#[derive(Clone, Copy, PartialEq, Eq, Hash)]
pub struct Assign {
    users: [Option<UserId>; STEP_LIMIT],
}

impl Model for Assign {
    ghost use Rattle.std.specs.Prelude.{ℕ, List, Option};

    ghost Value = { List (Option ℕ) };

    ghost view = { λ a. a.users };

    ghost inverse = { λ users. record { users = users } };
}

impl Assign {
    /// The assignment that gives no step to anybody.
    pub fn empty() -> Assign
        ensures value { result ≡ no_users }
        ensures free { (s : ℕ) → user_at result s ≡ None }
        ensures len { length result ≡ STEP_LIMIT }
    {
        Assign {
            users: [None; STEP_LIMIT],
        }
    }

    /// The user of a step; a step from the limit on has none.
    pub fn at(&self, s: StepId) -> Option<UserId>
        ensures user { result ≡ user_at self.now s }
        ensures len { length self.now ≡ STEP_LIMIT }
    {
        match self.users.get(s.0 as usize) {
            Some(user) => *user,
            None => None,
        }
    }

    /// This assignment with a step given to a user, whoever had it.
    pub fn with(&self, s: StepId, u: UserId) -> Assign
        requires { s < STEP_LIMIT }
        ensures given { result ≡ slice_set self.now s (Some u) }
        ensures len { length self.now ≡ STEP_LIMIT }
    {
        let mut given = *self;
        given.users[s.0 as usize] = Some(u);
        given
    }

    /// This assignment with a step given to nobody.
    pub fn without(&self, s: StepId) -> Assign
        requires { s < STEP_LIMIT }
        ensures freed { result ≡ slice_set self.now s None }
        ensures len { length self.now ≡ STEP_LIMIT }
    {
        let mut freed = *self;
        freed.users[s.0 as usize] = None;
        freed
    }
}
