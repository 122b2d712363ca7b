//! The words of replies, and what each stands for.
ghost use Rattle.std.specs.Prelude.{◌≡◌};
ghost use Rattle.entry_reader.specs.Values.{row_read};
ghost use Rattle.entry_reader.specs.Told as told;

use wf_names::Phase;
use wf_talk::{Bad, Denial, Missing, Reply};

/// Which reply it is, of those that tell more than a word.
#[derive(Clone, Copy)]
pub(crate) enum ReplyKind {
    Granted,
    Finished,
    Opened,
    Edited,
    Shown,
    Work,
    WhatIf,
    Denied,
    Again,
    Bad,
}

impl ReplyKind {
    /// The kind that a key tells.
    pub(crate) fn read(key: &str) -> Option<ReplyKind>
        ensures { result ≡ row_read told.reply_kinds key.now }
    {
        match key {
            "granted" => Some(ReplyKind::Granted),
            "finished" => Some(ReplyKind::Finished),
            "opened" => Some(ReplyKind::Opened),
            "edited" => Some(ReplyKind::Edited),
            "view" => Some(ReplyKind::Shown),
            "worklist" => Some(ReplyKind::Work),
            "what_if" => Some(ReplyKind::WhatIf),
            "denied" => Some(ReplyKind::Denied),
            "again" => Some(ReplyKind::Again),
            "bad" => Some(ReplyKind::Bad),
            _ => None,
        }
    }
}

/// Which denial it is, of those that tell more than a word.
#[derive(Clone, Copy)]
pub(crate) enum DenialKind {
    Unsatisfiable,
    Taken,
    Order,
    Role,
    Rule,
    Stranded,
    NotHeld,
    Unknown,
    Strands,
}

impl DenialKind {
    /// The kind that a key tells.
    pub(crate) fn read(key: &str) -> Option<DenialKind>
        ensures { result ≡ row_read told.denial_kinds key.now }
    {
        match key {
            "unsatisfiable" => Some(DenialKind::Unsatisfiable),
            "taken" => Some(DenialKind::Taken),
            "order" => Some(DenialKind::Order),
            "role" => Some(DenialKind::Role),
            "rule" => Some(DenialKind::Rule),
            "stranded" => Some(DenialKind::Stranded),
            "not_held" => Some(DenialKind::NotHeld),
            "unknown" => Some(DenialKind::Unknown),
            "strands" => Some(DenialKind::Strands),
            _ => None,
        }
    }
}

/// The reply that is a word alone.
pub(crate) fn reply_word(word: &str) -> Option<Reply>
    ensures { result ≡ row_read told.reply_words word.now }
{
    match word {
        "returned" => Some(Reply::Returned),
        "released" => Some(Reply::Released),
        "withdrawn" => Some(Reply::Withdrawn),
        "no_memory" => Some(Reply::NoMemory),
        _ => None,
    }
}

/// The denial that is a word alone.
pub(crate) fn denial_word(word: &str) -> Option<Denial>
    ensures { result ≡ row_read told.denial_words word.now }
{
    match word {
        "no_flow" => Some(Denial::NoFlow),
        "retired" => Some(Denial::Retired),
        "full" => Some(Denial::Full),
        "no_case" => Some(Denial::NoCase),
        "closed" => Some(Denial::Closed),
        "no_step" => Some(Denial::NoStep),
        "no_user" => Some(Denial::NoUser),
        "not_admin" => Some(Denial::NotAdmin),
        "fixed" => Some(Denial::Fixed),
        "already" => Some(Denial::Already),
        "absent" => Some(Denial::Absent),
        "last_admin" => Some(Denial::LastAdmin),
        _ => None,
    }
}

/// Why a line is no request, where it is a word alone.
pub(crate) fn bad_word(word: &str) -> Option<Bad>
    ensures { result ≡ row_read told.bad_words word.now }
{
    match word {
        "syntax" => Some(Bad::Syntax),
        "object" => Some(Bad::Object),
        "do" => Some(Bad::Do),
        "lane" => Some(Bad::Lane),
        "extra" => Some(Bad::Extra),
        _ => None,
    }
}

/// Of which kind nothing has a name.
pub(crate) fn missing_word(word: &str) -> Option<Missing>
    ensures { result ≡ row_read told.missing_words word.now }
{
    match word {
        "flow" => Some(Missing::Flow),
        "step" => Some(Missing::Step),
        "relation" => Some(Missing::Relation),
        "user" => Some(Missing::User),
        "role" => Some(Missing::Role),
        _ => None,
    }
}

/// Where a case stands.
pub(crate) fn phase_word(word: &str) -> Option<Phase>
    ensures { result ≡ row_read told.phases word.now }
{
    match word {
        "open" => Some(Phase::Live),
        "done" => Some(Phase::Done),
        "withdrawn" => Some(Phase::Withdrawn),
        _ => None,
    }
}
