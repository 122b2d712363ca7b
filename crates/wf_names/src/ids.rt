//! The numbers by which the parts of a policy and the cases are known. Contracts see each as its
//! number.

use std::marker::Model;

/// A user's number in a policy: users are numbered from 0 and keep their numbers.
#[derive(Clone, Copy, PartialEq, Eq, Hash)]
pub struct UserId(pub u16);

impl Model for UserId {
    ghost use Rattle.std.specs.Prelude.{ℕ};

    ghost Value = { ℕ };

    ghost view = { λ id. id.0 };

    ghost inverse = { λ n. record { 0 = n } };
}

/// A role's number in a policy, counted from 0.
#[derive(Clone, Copy, PartialEq, Eq)]
pub struct RoleId(pub u8);

impl Model for RoleId {
    ghost use Rattle.std.specs.Prelude.{ℕ};

    ghost Value = { ℕ };

    ghost view = { λ id. id.0 };

    ghost inverse = { λ n. record { 0 = n } };
}

/// A relation's number: 0 is `same`, 1 is `other`, and declared relations count from 2.
#[derive(Clone, Copy, PartialEq, Eq)]
pub struct RelId(pub u8);

impl RelId {
    /// The relation of each user to themselves alone.
    pub const SAME: RelId = RelId(0);
    /// The relation of each user to every other user.
    pub const OTHER: RelId = RelId(1);
}

impl Model for RelId {
    ghost use Rattle.std.specs.Prelude.{ℕ};

    ghost Value = { ℕ };

    ghost view = { λ id. id.0 };

    ghost inverse = { λ n. record { 0 = n } };
}

/// A step's number in its workflow, counted from 0.
#[derive(Clone, Copy, PartialEq, Eq)]
pub struct StepId(pub u8);

impl Model for StepId {
    ghost use Rattle.std.specs.Prelude.{ℕ};

    ghost Value = { ℕ };

    ghost view = { λ id. id.0 };

    ghost inverse = { λ n. record { 0 = n } };
}

/// A workflow's number in a policy, counted from 0.
#[derive(Clone, Copy, PartialEq, Eq, Hash)]
pub struct FlowId(pub u8);

impl Model for FlowId {
    ghost use Rattle.std.specs.Prelude.{ℕ};

    ghost Value = { ℕ };

    ghost view = { λ id. id.0 };

    ghost inverse = { λ n. record { 0 = n } };
}

/// A case's number in a run, counted from 0.
#[derive(Clone, Copy, PartialEq, Eq)]
pub struct CaseId(pub u16);

impl Model for CaseId {
    ghost use Rattle.std.specs.Prelude.{ℕ};

    ghost Value = { ℕ };

    ghost view = { λ id. id.0 };

    ghost inverse = { λ n. record { 0 = n } };
}
