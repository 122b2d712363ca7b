//! Which entries count for a request.
ghost use Rattle.std.specs.Prelude.{◌≡◌};
ghost use Rattle.wf_board.specs.Counting.{changed_case, changes_any, counts_for, is_edited};
ghost use Rattle.wf_board.specs.Counting.{is_number};

use wf_names::CaseId;
use wf_talk::{Ask, Entry, Reply, Request};

/// Whether an entry counts for what is asked: it changed what the decision rests on.
pub fn counts(entry: &Entry, ask: &Ask) -> bool
    ensures { result ≡ counts_for entry.now ask.now }
{
    match *ask {
        Ask::Request(Request::OpenCase { .. }) => is_edited(&entry.reply),
        Ask::Request(Request::Claim { case, .. }) => {
            is_edited(&entry.reply) || changes(entry, case)
        }
        Ask::Request(Request::Change { .. } | Request::Worklist { .. } | Request::WhatIf { .. }) =>
            changes_any(entry),
        _ => false,
    }
}

/// Whether a reply to an edit changed the policy.
fn is_edited(reply: &Reply) -> bool
    ensures { result ≡ is_edited reply.now }
{
    matches!(reply, Reply::Edited { .. })
}

/// Whether an entry changed the policy or any case.
fn changes_any(entry: &Entry) -> bool
    ensures { result ≡ changes_any entry.now }
{
    is_edited(&entry.reply) || changed_case(&entry.ask, &entry.reply).is_some()
}

/// Whether an entry changed the case with a number.
fn changes(entry: &Entry, case: CaseId) -> bool
    ensures { result ≡ is_number case (changed_case entry.now.ask entry.now.reply) }
{
    match changed_case(&entry.ask, &entry.reply) {
        Some(changed) => changed == case,
        None => false,
    }
}

/// The case that a reply changed, where this was asked.
fn changed_case(ask: &Ask, reply: &Reply) -> Option<CaseId>
    ensures { result ≡ changed_case ask.now reply.now }
{
    match reply {
        Reply::Opened { case, .. } => Some(*case),
        Reply::Granted(_)
        | Reply::Finished { .. }
        | Reply::Returned
        | Reply::Released
        | Reply::Withdrawn => ask.case(),
        _ => None,
    }
}
