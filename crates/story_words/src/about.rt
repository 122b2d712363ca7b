//! Which case an entry is about, and what a request names.
ghost use Rattle.std.specs.Prelude.{◌≡◌};
ghost use Rattle.story_words.specs.About.{subject_of, subject_of_denial};

use wf_names::{CaseId, Name};
use wf_talk::{Ask, Denial, Edit, Reply, Request};

/// The case that an entry is about, if it is about one: the case that was opened, the one that an
/// edit would have stranded, or the one that the request names.
pub fn subject(ask: &Ask, reply: &Reply) -> Option<CaseId>
    ensures { result ≡ subject_of ask.now reply.now }
{
    match reply {
        Reply::Opened { case, .. } => Some(*case),
        Reply::Denied(denial) => subject_of_denial(ask, denial),
        _ => ask.case(),
    }
}

fn subject_of_denial(ask: &Ask, denial: &Denial) -> Option<CaseId>
    ensures { result ≡ subject_of_denial ask.now denial.now }
{
    match denial {
        Denial::Strands { case, .. } => Some(*case),
        _ => ask.case(),
    }
}

/// The name of who asks, or of the workflow that a case is to be opened of; empty where neither is
/// named.
pub(crate) fn asker(ask: &Ask) -> &str {
    match ask {
        Ask::Request(
            Request::Claim { user: name, .. }
            | Request::Finish { user: name, .. }
            | Request::GiveBack { user: name, .. }
            | Request::Worklist { user: name }
            | Request::Release { by: name, .. }
            | Request::Withdraw { by: name, .. }
            | Request::Change { by: name, .. }
            | Request::WhatIf { by: name, .. }
            | Request::OpenCase { flow: name },
        ) => name.as_str(),
        _ => "",
    }
}

/// The step of a case that is asked about.
pub(crate) fn step_asked(ask: &Ask) -> Option<(CaseId, Name)> {
    match ask {
        Ask::Request(
            Request::Claim { case, step, .. }
            | Request::Finish { case, step, .. }
            | Request::GiveBack { case, step, .. }
            | Request::Release { case, step, .. },
        ) => Some((*case, *step)),
        _ => None,
    }
}

/// The relation whose pairs an edit that is asked for, or asked about, would change.
pub(crate) fn relation_asked(ask: &Ask) -> Option<Name> {
    let Ask::Request(Request::Change { edit, .. } | Request::WhatIf { edit, .. }) = ask else {
        return None;
    };
    match edit {
        Edit::Relate { relation, .. } | Edit::Unrelate { relation, .. } => Some(*relation),
        _ => None,
    }
}
