//! What an administrator changes in the policy.

use wf_names::Name;

/// A change of the policy. The names in it may be unknown to the policy.
#[derive(Clone, Copy, PartialEq, Eq)]
pub enum Edit {
    /// To add a user, who has no role yet.
    AddUser {
        user: Name,
    },
    /// To take all roles away from a user, who stays known by name.
    Leave {
        user: Name,
    },
    /// To give a user a role.
    Enrol {
        role: Name,
        user: Name,
    },
    /// To take a role away from a user.
    Dismiss {
        role: Name,
        user: Name,
    },
    /// To put a pair of users into a listed relation.
    Relate {
        first: Name,
        relation: Name,
        second: Name,
    },
    /// To take a pair of users out of a listed relation.
    Unrelate {
        first: Name,
        relation: Name,
        second: Name,
    },
    /// To permit a step of a workflow to a role.
    Permit {
        flow: Name,
        role: Name,
        step: Name,
    },
    /// To forbid a step of a workflow to a role.
    Forbid {
        flow: Name,
        role: Name,
        step: Name,
    },
    /// To open no more cases of a workflow; those that are open go on.
    Retire {
        flow: Name,
    },
}

/// What a name in an edit stands for, where the policy has none of that name.
#[derive(Clone, Copy, PartialEq, Eq)]
pub enum Missing {
    Flow,
    Step,
    Relation,
    User,
    Role,
}
