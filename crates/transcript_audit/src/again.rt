//! What an entry that is answered again rests on.
ghost use Rattle.std.specs.Prelude.{◌≡◌, ◌≤◌, max, length};
ghost use Rattle.wf_board.specs.Counting.{counted, lane_end};
ghost use Rattle.transcript_audit.specs.Keeping.{again_in};

use wf_board::counts;
use wf_talk::{Ask, Entry, Reply};

/// The rounds and the place of a reply that is `again`.
pub(crate) fn again_in(reply: &Reply) -> Option<(u8, u32)>
    ensures { result ≡ again_in reply.now }
{
    match reply {
        Reply::Again { rounds, at } => Some((*rounds, *at)),
        _ => None,
    }
}

/// The place behind a lane's last entry, or a place from which on to look, if that is later.
pub(crate) fn own_start(entries: &[Entry], start: usize, lane: u8) -> usize
    requires { start ≤ length entries.now }
    ensures own { result ≡ max (lane_end lane entries.now) start }
    ensures within { result ≤ length entries.now }
{
    let mut place = entries.len();
    'looking: while start < place {
        if entries[place - 1].lane == lane {
            return place;
        }
        place -= 1;
    }
    place
}

/// How many of these entries count for what is asked.
pub(crate) fn count(entries: &[Entry], ask: &Ask) -> usize
    ensures { result ≡ counted ask.now entries.now }
{
    let mut count = 0;
    'counting: for entry in entries {
        if counts(entry, ask) {
            count += 1;
        }
    }
    count
}
