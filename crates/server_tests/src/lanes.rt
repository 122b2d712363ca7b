//! Sessions of several lanes, each on a thread of its own: that searches run beside the turns of
//! other lanes, that what comes too late is answered again, that every line is answered, and that
//! lines which threads make are those of one thread.

use crate::world::World;
use fixtures::{PAY, STAFFED};
use std::alloc::{AllocError, Global};
use std::sync::Wait;
use std::sync::atomic::{AtomicU64, Ordering};
use std::thread::{Threads, yield_now};
use wf_outside::MemSink;
use wf_server::{Gate, run};
use wf_talk::{Entry, Reply};

/// What has to come of a run that ends well.
#[derive(Clone, Copy)]
enum Trial<'a> {
    /// With its lines held so, each of these parts stands in what it writes.
    Held([Hold; 2], &'a [&'a str]),
    /// Eight cases are opened, and ann and cyd get their steps in each, and nothing else is
    /// answered: watched or not, and the searches outside the turns are from the first number to
    /// the second.
    Whole(bool, [u64; 2]),
}

// How often a gate looks whether what it waits for has come.
const LOOKS: u32 = 1_000_000_000;

/// A line that is held at a gate, and the line that it waits for.
#[derive(Clone, Copy)]
struct Hold {
    line: u32,
    until: u32,
}

/// Holds each of two lines until another line has entered. A line that waits too long is a miss.
/// It counts the lines that enter, all of them.
#[derive(Drop)]
struct TwoHolds {
    watches: bool,
    holds: [Hold; 2],
    entered: [AtomicU64; 2],
    misses: AtomicU64,
    count: AtomicU64,
}

impl TwoHolds {
    fn new(watches: bool, holds: [Hold; 2]) -> TwoHolds {
        TwoHolds {
            watches,
            holds,
            entered: [AtomicU64::new(0), AtomicU64::new(0)],
            misses: AtomicU64::new(0),
            count: AtomicU64::new(0),
        }
    }

    // Notes a line for the holds that wait for it.
    fn note(&self, line: u32) {
        self.count.fetch_add(1, Ordering::SeqCst);
        for k in 0..2 {
            if self.holds[k].until == line {
                self.entered[k].store(1, Ordering::SeqCst);
            }
        }
    }

    // Waits until the line of this hold has entered.
    fn wait(&self, k: usize) {
        for _ in 0..LOOKS {
            if self.entered[k.min(1)].load(Ordering::SeqCst) == 1 {
                return;
            }
            yield_now();
        }
        self.misses.fetch_add(1, Ordering::SeqCst);
    }

    // Whether no line waited too long, and both that were waited for have entered.
    fn is_kept(&self) -> bool {
        self.misses.load(Ordering::SeqCst) == 0
            && self.entered[0].load(Ordering::SeqCst) == 1
            && self.entered[1].load(Ordering::SeqCst) == 1
    }
}

impl Gate for TwoHolds {
    fn watches(&self) -> bool {
        self.watches
    }

    fn solving(&self, _lane: u8, line: u32) {
        self.note(line);
        for k in 0..2 {
            if self.holds[k].line == line {
                self.wait(k);
            }
        }
    }
}

// Two cases are prepared; then in each of two lanes a step is finished and cyd claims the next.
const CLAIMS: &str = r#"{"do":"open","flow":"pay"}
{"do":"open","flow":"pay"}
{"do":"claim","case":0,"step":"prepare","user":"ann"}
{"do":"claim","case":1,"step":"prepare","user":"bob"}

{"do":"finish","case":0,"step":"prepare","user":"ann","lane":0}
{"do":"claim","case":0,"step":"approve","user":"cyd","lane":0}
{"do":"finish","case":1,"step":"prepare","user":"bob","lane":1}
{"do":"claim","case":1,"step":"approve","user":"cyd","lane":1}
"#;

/// Whether two claims are searched for at once: each waits at the gate for the other.
pub fn two_claims_solve_at_once<R: Threads + Wait + Sync>(
    rt: &R,
    alloc: Global,
) -> Result<bool, AllocError> {
    let holds = [Hold { line: 6, until: 8 }, Hold { line: 8, until: 6 }];
    let parts = [
        r#""lane":0,"line":6,"reply":{"granted":{"plan":["ann","cyd","bob"]}}}"#,
        r#""lane":1,"line":8,"reply":{"granted":{"plan":["bob","cyd","ann"]}}}"#,
    ];
    let trial = Trial::Held(holds, &parts);
    passes(rt, alloc, PAY, CLAIMS, "2", "1", trial)
}

// A case is prepared; then lane 0 claims its next step, while lane 1 dismisses dan and opens a
// case.
const STALE: &str = r#"{"do":"open","flow":"pay"}
{"do":"claim","case":0,"step":"prepare","user":"ann"}
{"do":"finish","case":0,"step":"prepare","user":"ann"}

{"do":"claim","case":0,"step":"approve","user":"bob","lane":0}
{"do":"dismiss","by":"eve","user":"dan","role":"clerk","lane":1}
{"do":"open","flow":"pay","lane":1}
"#;

/// Whether a claim is answered again where the policy was changed meanwhile: the dismissal waits
/// for the claim to be searched for, and the claim until the dismissal is done.
pub fn stale_task_meets_its_commit<R: Threads + Wait + Sync>(
    rt: &R,
    alloc: Global,
) -> Result<bool, AllocError> {
    let holds = [Hold { line: 5, until: 4 }, Hold { line: 4, until: 6 }];
    let parts = [
        r#"{"at":3,"lane":1,"line":5,"reply":{"edited":{"number":1}}}"#,
        r#""lane":0,"line":4,"reply":{"again":{"at":3,"rounds":1}}}"#,
        r#""lane":1,"line":6,"reply":{"opened":{"case":1,"plan":["#,
    ];
    let trial = Trial::Held(holds, &parts);
    passes(rt, alloc, STAFFED, STALE, "2", "1", trial)
}

/// Whether in each of eight lanes a case is opened, prepared by ann, and claimed by cyd. The
/// openings and the claims are searched for outside the turns, but where there are no rounds.
pub fn eight_lanes_answer_each_line_once<R: Threads + Wait + Sync>(
    rt: &R,
    alloc: Global,
) -> Result<bool, AllocError> {
    let (all, none) = (Trial::Whole(true, [24, 24]), Trial::Whole(true, [0, 0]));
    Ok(
        passes(rt, alloc, PAY, EIGHT_CASES, "8", "2", all)?
            && passes(rt, alloc, PAY, EIGHT_CASES, "8", "0", none)?,
    )
}

/// Whether they are where nobody watches, with one to eight searches: the first opening is searched
/// for, and those beside it may be. Each claim has a plan at hand, which is the one of its case,
/// and is searched for nowhere.
pub fn plans_at_hand_answer_on_eight_lanes<R: Threads + Wait + Sync>(
    rt: &R,
    alloc: Global,
) -> Result<bool, AllocError> {
    let trial = Trial::Whole(false, [1, 8]);
    passes(rt, alloc, PAY, EIGHT_CASES, "8", "2", trial)
}

// Each lane works on the case with its own number.
const EIGHT_CASES: &str = r#"{"do":"open","flow":"pay","lane":0}
{"do":"open","flow":"pay","lane":1}
{"do":"open","flow":"pay","lane":2}
{"do":"open","flow":"pay","lane":3}
{"do":"open","flow":"pay","lane":4}
{"do":"open","flow":"pay","lane":5}
{"do":"open","flow":"pay","lane":6}
{"do":"open","flow":"pay","lane":7}

{"do":"claim","case":0,"step":"prepare","user":"ann","lane":0}
{"do":"finish","case":0,"step":"prepare","user":"ann","lane":0}
{"do":"claim","case":1,"step":"prepare","user":"ann","lane":1}
{"do":"finish","case":1,"step":"prepare","user":"ann","lane":1}
{"do":"claim","case":2,"step":"prepare","user":"ann","lane":2}
{"do":"finish","case":2,"step":"prepare","user":"ann","lane":2}
{"do":"claim","case":3,"step":"prepare","user":"ann","lane":3}
{"do":"finish","case":3,"step":"prepare","user":"ann","lane":3}
{"do":"claim","case":4,"step":"prepare","user":"ann","lane":4}
{"do":"finish","case":4,"step":"prepare","user":"ann","lane":4}
{"do":"claim","case":5,"step":"prepare","user":"ann","lane":5}
{"do":"finish","case":5,"step":"prepare","user":"ann","lane":5}
{"do":"claim","case":6,"step":"prepare","user":"ann","lane":6}
{"do":"finish","case":6,"step":"prepare","user":"ann","lane":6}
{"do":"claim","case":7,"step":"prepare","user":"ann","lane":7}
{"do":"finish","case":7,"step":"prepare","user":"ann","lane":7}

{"do":"claim","case":0,"step":"approve","user":"cyd","lane":0}
{"do":"claim","case":1,"step":"approve","user":"cyd","lane":1}
{"do":"claim","case":2,"step":"approve","user":"cyd","lane":2}
{"do":"claim","case":3,"step":"approve","user":"cyd","lane":3}
{"do":"claim","case":4,"step":"approve","user":"cyd","lane":4}
{"do":"claim","case":5,"step":"approve","user":"cyd","lane":5}
{"do":"claim","case":6,"step":"approve","user":"cyd","lane":6}
{"do":"claim","case":7,"step":"approve","user":"cyd","lane":7}
"#;

// Sixteen clerks, each of whom knows the next one. Who signs and who seals have to know each other,
// which none do.
const PACT: &str = r#"
format = 1
admin = "chief"
roles = ["chief", "clerk"]

[users]
a = ["clerk"]
b = ["clerk"]
c = ["clerk"]
d = ["clerk"]
e = ["clerk"]
eve = ["chief"]
f = ["clerk"]
g = ["clerk"]
h = ["clerk"]
i = ["clerk"]
j = ["clerk"]
k = ["clerk"]
l = ["clerk"]
m = ["clerk"]
n = ["clerk"]
o = ["clerk"]
p = ["clerk"]

[relations]
knows = { pairs = [
  ["a", "b"], ["b", "c"], ["c", "d"], ["d", "e"], ["e", "f"], ["f", "g"], ["g", "h"], ["h", "i"],
  ["i", "j"], ["j", "k"], ["k", "l"], ["l", "m"], ["m", "n"], ["n", "o"], ["o", "p"],
] }

[flows.pact]
steps = ["sign", "seal"]
permit = { sign = ["clerk"], seal = ["clerk"] }
rules = [
  { form = "pair", relation = "knows", first = "sign", second = "seal" },
  { form = "pair", relation = "knows", first = "seal", second = "sign" },
]
"#;

// Each is denied with a tree of 272 branches, so that the batch is one whose lines threads make.
const PACTS: &str = r#"{"do":"open","flow":"pact"}
{"do":"open","flow":"pact"}
{"do":"open","flow":"pact"}
{"do":"open","flow":"pact"}
{"do":"open","flow":"pact"}
{"do":"open","flow":"pact"}
{"do":"open","flow":"pact"}
{"do":"open","flow":"pact"}
"#;

/// Whether a session of two lanes writes what one of one lane does, where all lines are of one
/// lane.
pub fn long_lines_are_written_alike<R: Threads + Wait + Sync>(
    rt: &R,
    alloc: Global,
) -> Result<bool, AllocError> {
    let mut beside = world_of_pacts(alloc, "2")?;
    is_written_alone(rt, alloc, &mut beside)
}

fn is_written_alone<R: Threads + Wait + Sync>(
    rt: &R,
    alloc: Global,
    beside: &mut World,
) -> Result<bool, AllocError> {
    let mut alone = world_of_pacts(alloc, "1")?;
    Ok(are_alike(rt, alloc, beside, &mut alone))
}

fn are_alike<R: Threads + Wait + Sync>(
    rt: &R,
    alloc: Global,
    beside: &mut World,
    alone: &mut World,
) -> bool {
    denies_pacts(rt, alloc, beside)
        && denies_pacts(rt, alloc, alone)
        && alone.sink.bytes() == beside.sink.bytes()
}

fn world_of_pacts(alloc: Global, lanes: &str) -> Result<World, AllocError> {
    World::new(alloc, &["serve", "policy", "--lanes", lanes], PACT, PACTS)
}

// Whether a run ends well, and denies the first and the last opening for the rules: a does not know
// a, and b does not know a.
fn denies_pacts<R: Threads + Wait + Sync>(rt: &R, alloc: Global, world: &mut World) -> bool {
    let parts = [
        r#""at":0,"lane":0,"line":0,"reply":{"denied":{"unsatisfiable":{"step":"sign","#,
        r#""at":7,"lane":0,"line":7,"reply":{"denied":{"unsatisfiable":{"step":"sign","#,
        r#"["a",{"step":"seal","users":[["a",{"rule":0}],["b",{"rule":1}],["c",{"rule":0}],"#,
    ];
    let gate = TwoHolds::new(false, [FREE, FREE]);
    ending_of(rt, alloc, &gate, world).0 == 0 && has_parts(&world.sink, &parts)
}

// Whether a run on these lanes, with these rounds, passes a trial.
fn passes<R: Threads + Wait + Sync>(
    rt: &R,
    alloc: Global,
    policy: &str,
    input: &str,
    lanes: &str,
    rounds: &str,
    trial: Trial<'_>,
) -> Result<bool, AllocError> {
    let words = ["serve", "policy", "--lanes", lanes, "--rounds", rounds];
    let mut world = World::new(alloc, &words, policy, input)?;
    Ok(passes_in(rt, alloc, &mut world, trial))
}

fn passes_in<R: Threads + Wait + Sync>(
    rt: &R,
    alloc: Global,
    world: &mut World,
    trial: Trial<'_>,
) -> bool {
    match trial {
        Trial::Held(holds, parts) => writes(rt, alloc, world, holds, parts),
        Trial::Whole(watches, searches) => is_whole(rt, alloc, world, watches, searches),
    }
}

// At which no line waits.
const FREE: Hold = Hold {
    line: 1_000_000,
    until: 1_000_000,
};

fn is_whole<R: Threads + Wait + Sync>(
    rt: &R,
    alloc: Global,
    world: &mut World,
    watches: bool,
    searches: [u64; 2],
) -> bool {
    let gate = TwoHolds::new(watches, [FREE, FREE]);
    let (status, counts) = ending_of(rt, alloc, &gate, world);
    let count = gate.count.load(Ordering::SeqCst);
    status == 0 && counts == [8, 16, 8, 0] && searches[0] <= count && count <= searches[1]
}

// The status of a run, and how often a case was opened, a step granted, one finished, and something
// else answered.
fn ending_of<R: Threads + Wait + Sync>(
    rt: &R,
    alloc: Global,
    gate: &TwoHolds,
    world: &mut World,
) -> (u8, [u32; 4]) {
    let report = run(
        rt,
        alloc,
        &world.words,
        gate,
        &mut world.shelf,
        &mut world.source,
        &mut world.sink,
    );
    (report.status, counts_of(report.entries.as_slice()))
}

fn counts_of(entries: &[Entry]) -> [u32; 4] {
    let mut counts = [0u32; 4];
    for entry in entries {
        let k = match &entry.reply {
            Reply::Opened { .. } => 0,
            Reply::Granted(_) => 1,
            Reply::Finished { .. } => 2,
            _ => 3,
        };
        counts[k] = counts[k].saturating_add(1);
    }
    counts
}

fn writes<R: Threads + Wait + Sync>(
    rt: &R,
    alloc: Global,
    world: &mut World,
    holds: [Hold; 2],
    parts: &[&str],
) -> bool {
    let gate = TwoHolds::new(true, holds);
    let status = ending_of(rt, alloc, &gate, world).0;
    status == 0 && has_parts(&world.sink, parts) && gate.is_kept()
}

fn has_parts(sink: &MemSink, parts: &[&str]) -> bool {
    let Ok(text) = str::from_utf8(sink.bytes()) else {
        return false;
    };
    for part in parts {
        if !text.contains(*part) {
            return false;
        }
    }
    true
}
