//! What the server answers.

use crate::{Bad, CaseList, Missing, RoleList, States, WorkList};
use basics::Shared;
use constraint_forms::Plan;
use refutation_tree::Tree;
use wf_names::{CaseId, FlowId, Phase, StepId, StepState, UserId};

/// The answer to what a line asks.
#[derive(Drop)]
pub enum Reply {
    /// The step is held by the caller; the plan is the one that is kept for the case.
    Granted(Plan),
    /// The step is done; `done` tells whether it was the case's last.
    Finished { done: bool },
    /// The step is free again.
    Returned,
    /// The step was taken from its holder, and is free again.
    Released,
    /// The case is open, with the plan that is kept for it.
    Opened { case: CaseId, plan: Plan },
    /// The case was ended.
    Withdrawn,
    /// The policy was changed; it is the change of this number, counted from 1.
    Edited { number: u32 },
    /// Where the case and its steps stand.
    Shown(Face),
    /// The steps that would be granted to the user, by ascending case and step.
    Work(WorkList),
    /// The open cases that the change would leave without a valid plan, ascending.
    WhatIf(CaseList),
    /// The request was denied, and nothing has changed.
    Denied(Denial),
    /// The request could not be decided, since what it rests on changed in each of `rounds` rounds
    /// of deciding it, for the last time by the entry at `at`; nothing has changed.
    Again { rounds: u8, at: u32 },
    /// An allocation was refused, and nothing has changed.
    NoMemory,
    /// The line is no request, and nothing has changed.
    Bad(Bad),
}

/// What is to be seen of a case.
#[derive(Clone, Copy)]
pub struct Face {
    pub flow: FlowId,
    pub phase: Phase,
    pub states: States,
}

/// A step that would be granted, with its case and the workflow of that.
#[derive(Clone, Copy, PartialEq, Eq)]
pub struct WorkItem {
    pub case: CaseId,
    pub flow: FlowId,
    pub step: StepId,
}

/// Why a request was denied.
#[derive(Drop)]
pub enum Denial {
    /// The policy has no workflow of that name.
    NoFlow,
    /// No case of the workflow is opened any more.
    Retired,
    /// No more cases can be opened, no more users added, or no more pairs put into the relation.
    Full,
    /// The workflow has no valid plan, as the tree shows.
    Unsatisfiable {
        flow: FlowId,
        tree: Shared<Tree>,
    },
    /// There is no case of that number.
    NoCase,
    /// The case is not open.
    Closed,
    /// The case's workflow has no step of that name.
    NoStep,
    /// The policy has no user of that name.
    NoUser,
    /// The step is held or finished by this user.
    Taken(UserId),
    /// This step of the workflow comes before and is not finished.
    Order {
        flow: FlowId,
        step: StepId,
    },
    /// The user is not authorised for the step; the roles that are, by ascending number.
    Role(RoleList),
    /// The claim would falsify the rule with this number.
    Rule(u8),
    /// The claim would leave the case without a valid plan, as the tree shows.
    Stranded {
        flow: FlowId,
        tree: Shared<Tree>,
    },
    /// The step is not held by the user, or by nobody at all; it stands so.
    NotHeld(StepState),
    /// No user of that name holds the admin role.
    NotAdmin,
    /// The policy has nothing of that kind by the name that an edit gives.
    Unknown(Missing),
    /// The relation is built in or the complement of another, so its pairs are not listed.
    Fixed,
    /// What an edit asks for is so already.
    Already,
    /// There is nothing that an edit could take away.
    Absent,
    /// Nobody would hold the admin role any more.
    LastAdmin,
    /// The edit would leave this open case without a valid plan, as the tree shows.
    Strands {
        case: CaseId,
        flow: FlowId,
        tree: Shared<Tree>,
    },
}
