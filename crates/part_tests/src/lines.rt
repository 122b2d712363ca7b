//! The lines of a transcript that are read fastest, of which no clause says that they are.
ghost use Rattle.std.specs.Prelude.{Some};

use crate::fixture::{Look, is_right};
use basics::Fault;
use entry_reader::{NotText, Place, TextFault, guess_place, read_plain, read_reply};
use fixtures::PAY;
use plain_words::say;
use policy_book::Policy;
use std::alloc::{AllocError, Global};
use std::test::Fail;
use wf_names::{CaseId, FlowId};
use wf_talk::{Ask, FlowOf, Request};

// Each case is of the first workflow.
struct OneFlow;

impl FlowOf for OneFlow {
    ghost flows = { λ _ _. Some 0 };

    fn flow_of(&self, _case: CaseId) -> Option<FlowId> {
        Some(FlowId(0))
    }
}

// The place of all lines.
const PLACE: Place = Place {
    at: 4,
    lane: 1,
    line: 7,
};

// What all lines are replies to.
const ASK: Ask = Ask::Request(Request::Show { case: CaseId(0) });

const LINES: &[&str] = &[
    "{\"at\":4,\"lane\":1,\"line\":7,\
    \"reply\":{\"granted\":{\"plan\":[\"ann\",\"cyd\",\"bob\"]}}}\n",
    "{\"at\":4,\"lane\":1,\"line\":7,\"reply\":{\"finished\":{\"done\":true}}}\n",
    "{\"at\":4,\"lane\":1,\"line\":7,\
    \"reply\":{\"opened\":{\"case\":3,\"plan\":[\"ann\",\"cyd\",\"bob\"]}}}\n",
    "{\"at\":4,\"lane\":1,\"line\":7,\"reply\":\"returned\"}\n",
];

// Denials in the first workflow. Whether a tree shows anything is not looked at here.
const DENIALS: &[&str] = &[
    r#""no_case""#,
    r#"{"taken":"bob"}"#,
    r#"{"order":"approve"}"#,
    r#"{"rule":2}"#,
    r#"{"not_held":{"held":"cyd"}}"#,
    r#"{"unknown":"relation"}"#,
    r#"{"unsatisfiable":{"holder":"pay"}}"#,
    r#"{"unsatisfiable":{"step":"pay","users":[]}}"#,
    r#"{"stranded":{"step":"pay","users":[["bob",{"rule":255}],["cyd",{"twin":"bob"}]]}}"#,
    r#"{"strands":{"case":3,"tree":{"step":"approve","users":[["ann",{"holder":"pay"}]]}}}"#,
];

// What is no denial as it is written: a comma is missing or one too many, a twin is no user, there
// is a blank, a step is not the workflow's, a number is no rule's or begins with a zero, a bracket
// is missing, or a leaf or the denial has one more key.
const OTHERS: &[&str] = &[
    r#"{"stranded":{"step":"pay","users":[["bob",{"rule":0}]["cyd",{"twin":"bob"}]]}}"#,
    r#"{"stranded":{"step":"pay","users":[["bob",{"rule":0}],["cyd",{"twin":"bob"}],]}}"#,
    r#"{"stranded":{"step":"pay","users":[["bob",{"rule":0}],["cyd",{"twin":"bib"}]]}}"#,
    r#"{"stranded":{"step":"pay","users":[["bob",{"rule":0}], ["cyd",{"twin":"bob"}]]}}"#,
    r#"{"stranded":{"step":"pays","users":[["bob",{"rule":0}],["cyd",{"twin":"bob"}]]}}"#,
    r#"{"stranded":{"step":"pay","users":[["bob",{"rule":256}]]}}"#,
    r#"{"stranded":{"step":"pay","users":[["bob",{"rule":01}]]}}"#,
    r#"{"stranded":{"step":"pay","users":[["bob",{"rule":0}]}}"#,
    r#"{"stranded":{"step":"pay","users":[["bob",{"rule":0,"twin":"bob"}]]}}"#,
    r#"{"stranded":{"step":"pay","users":[["bob",{"rule":0}]]},"rule":0}"#,
];

/// Whether each line is read, and is one that is read fastest or not, as its list says.
pub fn plain_lines_are_read(alloc: Global) -> Result<bool, Fail> {
    is_right(alloc, PAY, Look::Lines)
}

pub(crate) fn are_read(alloc: Global, p: &Policy) -> Result<bool, Fail> {
    Ok(are_lines(alloc, p)? && are_denials(alloc, p)?)
}

// Whether each of the lines is read the fast way, at its place.
fn are_lines(alloc: Global, p: &Policy) -> Result<bool, AllocError> {
    for line in LINES {
        if guess_place(line.as_bytes()) != Some(PLACE) || !is_plain(alloc, p, line)? {
            return Ok(false);
        }
    }
    Ok(true)
}

// Whether each of the denials is read, the fast way and the slow way, and each of the others is
// refused both ways; and whether a tree with as many nodes one below the other as a workflow may
// have steps is read the fast way too, and one with one more the slow way alone.
fn are_denials(alloc: Global, p: &Policy) -> Result<bool, AllocError> {
    Ok(
        are_told(alloc, p, DENIALS, true)?
            && are_told(alloc, p, OTHERS, false)?
            && is_tower(alloc, p, 24, true)?
            && is_tower(alloc, p, 25, false)?,
    )
}

// Whether each of these denials is read both ways, or is refused both ways.
fn are_told(alloc: Global, p: &Policy, denials: &[&str], read: bool) -> Result<bool, AllocError> {
    for denial in denials {
        if !is_denial(alloc, p, denial, read, read)? {
            return Ok(false);
        }
    }
    Ok(true)
}

// Whether a denial by a tree of `nodes` nodes, each with one branch, is read the slow way, and the
// fast way or not.
fn is_tower(alloc: Global, p: &Policy, nodes: usize, fast: bool) -> Result<bool, AllocError> {
    let mut text = String::new(alloc);
    match push_tower(&mut text, nodes) {
        Ok(()) => is_denial(alloc, p, text.as_str(), fast, true),
        Err(e) => Err(e),
    }
}

fn push_tower(text: &mut String, nodes: usize) -> Result<(), AllocError> {
    text.push_str(r#"{"stranded":"#)?;
    for _ in 0..nodes {
        text.push_str(r#"{"step":"pay","users":[["ann","#)?;
    }
    text.push_str(r#"{"rule":0}"#)?;
    for _ in 0..nodes {
        text.push_str("]]}")?;
    }
    text.push_str("}")
}

// Whether a denial is read the fast way and the slow way, or not, as these say.
fn is_denial(
    alloc: Global,
    p: &Policy,
    denial: &str,
    fast: bool,
    slow: bool,
) -> Result<bool, AllocError> {
    let front = r#"{"at":4,"lane":1,"line":7,"reply":{"denied":"#;
    let mut line = String::new(alloc);
    match say(&mut line, &[front, denial, "}}\n"]) {
        Ok(()) => is_read(alloc, p, line.as_str(), fast, slow),
        Err(e) => Err(e),
    }
}

fn is_read(
    alloc: Global,
    p: &Policy,
    line: &str,
    fast: bool,
    slow: bool,
) -> Result<bool, AllocError> {
    Ok(is_plain(alloc, p, line)? == fast && is_line(alloc, p, line)? == slow)
}

// Whether a line is read the fast way.
fn is_plain(alloc: Global, p: &Policy, line: &str) -> Result<bool, AllocError> {
    match read_plain(alloc, p, &OneFlow, &ASK, PLACE, line.as_bytes()) {
        Ok(read) => Ok(read.is_some()),
        Err(e) => Err(e),
    }
}

// Whether a line is read the slow way.
fn is_line(alloc: Global, p: &Policy, line: &str) -> Result<bool, AllocError> {
    match read_reply(alloc, p, &OneFlow, &ASK, line.as_bytes()) {
        Ok(_) => Ok(true),
        Err(Fault::Cause(NotText)) => Ok(false),
        Err(Fault::NoMemory) => Err(AllocError),
    }
}
