//! Groups of clauses.
use constraint_forms::StepSet;
use wf_names::{RelId, StepId};

/// A group of clauses of one kind.
#[derive(Clone, Copy)]
pub(crate) enum Group {
    /// Users whom a step may not have do not have it.
    Outside(StepId),
    /// Some user whom a step may have has it.
    Someone(StepId),
    /// No two users have a step.
    Once(StepId),
    /// Users who are not related do not have the two steps.
    Pair {
        rho: RelId,
        first: StepId,
        second: StepId,
    },
    /// Whoever has the step, some step of the group has a user who is related to them, or, read
    /// back, to whom they are related.
    SomeOf {
        rho: RelId,
        back: bool,
        group: StepSet,
        step: StepId,
    },
    /// Which users have some step of the group.
    Taking {
        block: u16,
        group: StepSet,
    },
    /// How many users have some step of a group, up to each user.
    Counting {
        block: u16,
        most: bool,
        limit: u8,
    },
    /// That not more have, or not fewer.
    Ending {
        block: u16,
        most: bool,
        limit: u8,
    },
}
