//! What is changed, with numbers in place of names.

use wf_names::{FlowId, Name, RelId, RoleId, StepId, UserId};

/// What an edit changes in a policy, once its names are found.
#[derive(Clone, Copy)]
pub enum Amendment {
    /// A user is added, who has no role yet.
    AddUser {
        name: Name,
    },
    /// All roles are taken away from a user.
    Leave {
        user: UserId,
    },
    /// A user is given a role.
    Enrol {
        user: UserId,
        role: RoleId,
    },
    /// A role is taken away from a user.
    Dismiss {
        user: UserId,
        role: RoleId,
    },
    /// A pair of users is put into a listed relation.
    Relate {
        relation: RelId,
        first: UserId,
        second: UserId,
    },
    /// A pair of users is taken out of a listed relation.
    Unrelate {
        relation: RelId,
        first: UserId,
        second: UserId,
    },
    /// A step is permitted to a role.
    Permit {
        flow: FlowId,
        role: RoleId,
        step: StepId,
    },
    /// A step is forbidden to a role.
    Forbid {
        flow: FlowId,
        role: RoleId,
        step: StepId,
    },
    /// A workflow is retired.
    Retire {
        flow: FlowId,
    },
}
