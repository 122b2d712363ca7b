//! Entries of the journal, looked through and added.
ghost use Rattle.std.specs.Prelude.{◌≡◌, ◌≤◌, ◌<◌, ◌+◌, [], ◌∷◌, ◌++◌, nat_eq, nat_lt, length};
ghost use Rattle.std.specs.Prelude.{drop};
ghost use Rattle.wf_board.specs.Counting.{count_of, counted, counted_end};
ghost use Rattle.wf_desk.specs.Docket.{entry_for};

use wf_board::counts;
use wf_talk::{Ask, Entry, Job, Journal, Reply};

/// The entries from a place on.
#[tactic(auto, using(crate::proofs::DocketLaws::rest_from, crate::proofs::DocketLaws::rest_none))]
pub fn entries_from(journal: &Journal, place: u32) -> &[Entry]
    ensures { result.now ≡ drop place journal.now.entries }
{
    let entries = journal.as_slice();
    let len = entries.len();
    let from = if (place as usize) < len {
        place as usize
    } else {
        len
    };
    &entries[from..]
}

/// Whether one of these entries counts for what is asked.
pub(crate) fn any_counts(entries: &[Entry], ask: &Ask) -> bool
    ensures { result ≡ nat_lt 0 (counted ask.now entries.now) }
{
    'counting: for entry in entries {
        if counts(entry, ask) {
            return true;
        }
    }
    false
}

/// Whether one of these entries is of a lane.
pub(crate) fn any_of_lane(entries: &[Entry], lane: u8) -> bool
    ensures { result ≡ nat_lt 0 (count_of (λ e. nat_eq e.lane lane) entries.now) }
{
    'looking: for entry in entries {
        if entry.lane == lane {
            return true;
        }
    }
    false
}

/// The place of the last entry that counts for what is asked.
pub fn last_counting(journal: &Journal, ask: &Ask) -> u32
    requires some { 1 ≤ counted ask.now journal.now.entries }
    requires small { length journal.now.entries < 4294967296 }
    ensures { result + 1 ≡ counted_end ask.now journal.now.entries }
{
    last_place(journal.as_slice(), ask) as u32
}

fn last_place(entries: &[Entry], ask: &Ask) -> usize
    requires { 1 ≤ counted ask.now entries.now }
    ensures last { result + 1 ≡ counted_end ask.now entries.now }
    ensures within { result < length entries.now }
{
    let mut place = entries.len();
    'looking: while 0 < place {
        place -= 1;
        if counts(&entries[place], ask) {
            return place;
        }
    }
    unreachable!()
}

/// Adds the entry of a job at the end, where there is room.
pub fn add_entry(journal: &mut Journal, job: &Job, reply: Reply) -> u32
    requires room { 0 < journal.old.spare }
    requires small { length journal.old.entries < 4294967296 }
    ensures at { result ≡ length journal.old.entries }
    ensures added { journal.new.entries ≡ journal.old.entries ++ entry_for job.now
        (length journal.old.entries) reply ∷ [] }
    ensures room { journal.old.spare ≤ journal.new.spare + 1 }
{
    let at = journal.len() as u32;
    let entry = Entry {
        at,
        lane: job.lane,
        line: job.line,
        ask: job.ask,
        reply,
    };
    journal.push(entry).unwrap();
    at
}
