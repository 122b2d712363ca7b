//! Counting replies.
ghost use Rattle.std.specs.Prelude.{◌≡◌};
ghost use Rattle.trial_command.specs.Counts.{counts_of};

use wf_talk::{Entry, Reply};

/// How often each kind of reply was given.
#[derive(Clone, Copy)]
pub(crate) struct Counts {
    pub(crate) opened: u64,
    pub(crate) granted: u64,
    pub(crate) finished: u64,
    pub(crate) edited: u64,
    pub(crate) denied: u64,
    pub(crate) no_memory: u64,
}

/// The counts of the replies in entries.
pub(crate) fn count_replies(entries: &[Entry]) -> Counts
    ensures { result ≡ counts_of entries.now }
{
    let mut counts = Counts {
        opened: 0,
        granted: 0,
        finished: 0,
        edited: 0,
        denied: 0,
        no_memory: 0,
    };
    'counting: for entry in entries {
        match &entry.reply {
            Reply::Opened { .. } => counts.opened += 1,
            Reply::Granted(_) => counts.granted += 1,
            Reply::Finished { .. } => counts.finished += 1,
            Reply::Edited { .. } => counts.edited += 1,
            Reply::Denied(_) => counts.denied += 1,
            Reply::NoMemory => counts.no_memory += 1,
            _ => {}
        }
    }
    counts
}
