//! What a caller asks.
ghost use Rattle.std.specs.Prelude.{◌≡◌};
ghost use Rattle.wf_talk.specs.Requests.{case_of_ask, case_of_request};

use crate::Edit;
use wf_names::{CaseId, Name};

/// A request. The names in it may be unknown to the policy.
#[derive(Clone, Copy, PartialEq, Eq)]
pub enum Request {
    /// To open a case of a workflow.
    OpenCase {
        flow: Name,
    },
    /// To perform a step of a case.
    Claim {
        case: CaseId,
        step: Name,
        user: Name,
    },
    /// To report that a step that is held is done.
    Finish {
        case: CaseId,
        step: Name,
        user: Name,
    },
    /// To let go of a step that is held.
    GiveBack {
        case: CaseId,
        step: Name,
        user: Name,
    },
    /// An administrator takes a step from whoever holds it.
    Release {
        by: Name,
        case: CaseId,
        step: Name,
    },
    /// An administrator ends a case before its steps are finished.
    Withdraw {
        by: Name,
        case: CaseId,
    },
    /// An administrator changes the policy.
    Change {
        by: Name,
        edit: Edit,
    },
    /// To see where a case and its steps stand.
    Show {
        case: CaseId,
    },
    /// To see which steps of the open cases would be granted to a user now.
    Worklist {
        user: Name,
    },
    /// To see which open cases an administrator's change of the policy would strand.
    WhatIf {
        by: Name,
        edit: Edit,
    },
}

/// Why a line is no request.
#[derive(Clone, Copy, PartialEq, Eq)]
pub enum Bad {
    /// The line is no JSON.
    Syntax,
    /// The line is no JSON object.
    Object,
    /// There is no word of a request at the key `do`.
    Do,
    /// The lane is no number of a lane.
    Lane,
    /// The value at this key is missing, or not of its form.
    Key(Name),
    /// There is a key that the request does not have.
    Extra,
}

/// What a line asks.
#[derive(Clone, Copy, PartialEq, Eq)]
pub enum Ask {
    /// The line is a request.
    Request(Request),
    /// The line is no request.
    Bad(Bad),
}

impl Request {
    /// The case that the request names by its number.
    pub fn case(&self) -> Option<CaseId>
        ensures { result ≡ case_of_request self.now }
    {
        match *self {
            Request::OpenCase { .. }
            | Request::Change { .. }
            | Request::Worklist { .. }
            | Request::WhatIf { .. } => None,
            Request::Claim { case, .. }
            | Request::Finish { case, .. }
            | Request::GiveBack { case, .. }
            | Request::Release { case, .. }
            | Request::Withdraw { case, .. }
            | Request::Show { case } => Some(case),
        }
    }
}

impl Ask {
    /// The case that what was asked names.
    pub fn case(&self) -> Option<CaseId>
        ensures { result ≡ case_of_ask self.now }
    {
        match self {
            Ask::Request(request) => request.case(),
            Ask::Bad(_) => None,
        }
    }
}
