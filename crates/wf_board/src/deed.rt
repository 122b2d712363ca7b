//! What is asked, with the case as it stands and numbers in place of names.

use admin_edits::Amendment;
use case_record::Case;
use wf_names::{CaseId, FlowId, StepId, UserId};
use wf_talk::Bad;

/// A step of an open case, and the user who asks for it or holds it.
#[derive(Clone, Copy)]
pub struct Duty {
    /// The number of the case.
    pub number: CaseId,
    /// The case as it stands.
    pub case: Case,
    pub step: StepId,
    pub user: UserId,
}

/// What a line asks of a session, once its names and numbers are found.
#[derive(Clone, Copy)]
pub enum Deed {
    /// To open a case of a workflow.
    Open {
        flow: FlowId,
    },
    /// To perform a step of an open case.
    Claim(Duty),
    /// To report that a step of an open case is done.
    Finish(Duty),
    /// To let go of a step of an open case.
    GiveBack(Duty),
    /// To take a step of an open case from its holder.
    Release {
        number: CaseId,
        case: Case,
        step: StepId,
    },
    /// To end an open case.
    Withdraw {
        number: CaseId,
    },
    /// To change the policy.
    Change {
        amendment: Amendment,
    },
    /// To see a case.
    Show {
        case: Case,
    },
    /// To see which steps of the open cases would be granted to a user.
    Work {
        user: UserId,
    },
    /// To see which open cases a change of the policy would strand.
    WhatIf {
        amendment: Amendment,
    },
    /// Nothing: the line is no request.
    TurnAway {
        bad: Bad,
    },
}
