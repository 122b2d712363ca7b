//! Turns of two lanes over the policy for payments, in a given order, and what comes of them.

use fixtures::{PAY, STAFFED};
use wf_desk::Event;

/// In lane 0 ann prepares a payment, which bob then claims to approve, twice; in lane 1 cyd takes
/// the approval and gives it back, twice. Bob's approval would leave nobody to pay.
pub(crate) const CLAIMS: &str = r#"{"do":"open","flow":"pay"}
{"do":"claim","case":0,"step":"prepare","user":"ann"}
{"do":"finish","case":0,"step":"prepare","user":"ann"}
{"do":"claim","case":0,"step":"approve","user":"bob"}
{"do":"claim","case":0,"step":"approve","user":"bob"}
{"do":"claim","case":0,"step":"approve","user":"cyd","lane":1}
{"do":"give_back","case":0,"step":"approve","user":"cyd","lane":1}
{"do":"claim","case":0,"step":"approve","user":"cyd","lane":1}
{"do":"give_back","case":0,"step":"approve","user":"cyd","lane":1}
"#;

// In lane 0 ann prepares a payment, which bob then claims to approve, twice; in lane 1 eve takes
// from dan the role of a clerk.
const STALE_CLAIMS: &str = r#"{"do":"open","flow":"pay"}
{"do":"claim","case":0,"step":"prepare","user":"ann"}
{"do":"finish","case":0,"step":"prepare","user":"ann"}
{"do":"claim","case":0,"step":"approve","user":"bob"}
{"do":"dismiss","by":"eve","user":"dan","role":"clerk","lane":1}
{"do":"claim","case":0,"step":"approve","user":"bob"}
"#;

// Lane 0 opens two cases and gives dan a role, twice; lane 1 adds a user, and opens two.
const OPENINGS: &str = r#"{"do":"open","flow":"pay"}
{"do":"open","flow":"pay"}
{"do":"enrol","by":"eve","user":"dan","role":"boss"}
{"do":"enrol","by":"eve","user":"dan","role":"boss"}
{"do":"add_user","by":"eve","user":"fay","lane":1}
{"do":"open","flow":"pay","lane":1}
{"do":"open","flow":"pay","lane":1}
"#;

// A lane begins, commits or serves.
const B0: Event = Event::Begin(0);

const C0: Event = Event::Commit(0);

pub(crate) const S0: Event = Event::Serve(0);

pub(crate) const S1: Event = Event::Serve(1);

/// A schedule of one batch, and what comes of it: the mark of each turn, and the replies of the
/// entries, with the number of the case, of the edit, or of the entry at which it is told again.
#[derive(Clone, Copy)]
pub(crate) struct Schedule {
    pub(crate) policy: &'static str,
    pub(crate) rounds: u8,
    pub(crate) requests: &'static str,
    pub(crate) turns: &'static [Event],
    pub(crate) marks: &'static str,
    pub(crate) replies: &'static str,
}

// Nothing has changed since the task was taken; its lane has no task any more.
const FRESH: Schedule = Schedule {
    policy: PAY,
    rounds: 1,
    requests: CLAIMS,
    turns: &[S0, S0, S0, B0, C0, C0],
    marks: "served 0, served 1, served 2, began 3, recorded 3, no task",
    replies: "opened 0, granted, finished, stranded",
};

// A task is not for the next job once its own was served; a lane with no job left holds no task.
const SERVED: Schedule = Schedule {
    turns: &[S0, S0, B0, S0, C0, S0, B0, S0, S0, B0, C0],
    marks: "served 0, served 1, began 2, served 2, not next, served 3, began 4, served 4, no job, \
        no job, no task",
    replies: "opened 0, granted, finished, stranded, stranded",
    ..FRESH
};

// With one round: the case was claimed and given back since the task was taken.
const ONE_ROUND: Schedule = Schedule {
    turns: &[S0, S0, S0, B0, S1, S1, C0, S0],
    marks: "served 0, served 1, served 2, began 3, served 3, served 4, recorded 5, served 6",
    replies: "opened 0, granted, finished, granted, returned, again 4, stranded",
    ..FRESH
};

// With two rounds the first task is lost; the second is lost too, or it is fresh.
const TWO_ROUNDS: Schedule = Schedule {
    rounds: 2,
    turns: &[S0, S0, S0, B0, S1, S1, C0, B0, C0, B0, S1, S1, C0, B0],
    marks: "served 0, served 1, served 2, began 3, served 3, served 4, lost, began 5, recorded 5, \
        began 6, served 6, served 7, lost, began 8",
    replies: "opened 0, granted, finished, granted, returned, stranded, granted, returned",
    ..FRESH
};

// With one round: dan is dismissed since the task was taken, on whose snapshot he could pay.
const DISMISSED: Schedule = Schedule {
    policy: STAFFED,
    requests: STALE_CLAIMS,
    turns: &[S0, S0, S0, B0, S1, C0, S0],
    marks: "served 0, served 1, served 2, began 3, served 3, recorded 4, served 5",
    replies: "opened 0, granted, finished, edited 1, again 3, stranded",
    ..FRESH
};

// With two rounds the task is lost, and found again on the new policy.
const FOUND_AGAIN: Schedule = Schedule {
    rounds: 2,
    turns: &[S0, S0, S0, B0, S1, C0, B0, C0, S0],
    marks: "served 0, served 1, served 2, began 3, served 3, lost, began 4, recorded 4, served 5",
    replies: "opened 0, granted, finished, edited 1, stranded, stranded",
    ..DISMISSED
};

// An opening is stale once the policy has changed, an edit once a case has, too. With one round the
// first opening and the first edit of lane 0 are answered again, and the next are fresh.
const OPENED: Schedule = Schedule {
    requests: OPENINGS,
    turns: &[B0, S1, C0, B0, C0, B0, S1, C0, B0, C0],
    marks: "began 0, served 0, recorded 1, began 2, recorded 2, began 3, served 3, recorded 4, \
        began 5, recorded 5",
    replies: "edited 1, again 0, opened 0, opened 1, again 3, edited 2",
    ..DISMISSED
};

// With two rounds each is lost at first; the edit is lost twice.
const LOST_TWICE: Schedule = Schedule {
    rounds: 2,
    turns: &[B0, S1, C0, B0, C0, S0, B0, S1, C0, B0, S1, C0],
    marks: "began 0, served 0, lost, began 1, recorded 1, served 2, began 3, served 3, lost, \
        began 4, served 4, recorded 5",
    replies: "edited 1, opened 0, opened 1, opened 2, opened 3, again 4",
    ..OPENED
};

/// All of the schedules.
pub(crate) const ALL: &[Schedule] = &[
    FRESH,
    SERVED,
    ONE_ROUND,
    TWO_ROUNDS,
    DISMISSED,
    FOUND_AGAIN,
    OPENED,
    LOST_TWICE,
];
