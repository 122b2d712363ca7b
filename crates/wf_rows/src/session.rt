//! Serves whole sessions, and audits what was written.

use crate::outside::{put_text, sink_of, words_of};
use crate::row::{list, number, text};
use crate::told::are_told;
use fixtures::source_of;
use std::alloc::{AllocError, Global};
use toml::Value;
use wf_outside::{MemShelf, MemSink, MemSource};
use wf_server::run_alone;

/// Whether each request of a session is answered, and its transcript is legal. A session has the
/// words that serve it, `serve`, and those that audit its transcript, `audit`, over a policy file
/// and requests, which stand under the names `policy` and `requests`, with the pieces of
/// `more_policy` behind the policy, and the number of its `entries`. A transcript that it has
/// itself stands under the name `transcript`, for what is told of it.
pub fn is_legal(alloc: Global, session: &Value) -> Result<bool, AllocError> {
    let mut transcript = sink_of(alloc, session)?;
    Ok(is_served(alloc, session, &mut transcript)? && is_found_legal(alloc, session, &transcript)?)
}

fn is_served(alloc: Global, session: &Value, transcript: &mut MemSink) -> Result<bool, AllocError> {
    let mut source = source_of(alloc, text(session.get("requests")).as_bytes())?;
    let entries = entries_of(alloc, session, "serve", &mut source, transcript)?;
    Ok(entries.is_some() && entries == number(session.get("entries")))
}

// Whether the audit of a transcript says that it is legal.
fn is_found_legal(
    alloc: Global,
    session: &Value,
    transcript: &MemSink,
) -> Result<bool, AllocError> {
    let mut said = sink_of(alloc, session)?;
    Ok(is_audited(alloc, session, transcript, &mut said)? && said.bytes() == b"legal\n".as_slice())
}

fn is_audited(
    alloc: Global,
    session: &Value,
    transcript: &MemSink,
    said: &mut MemSink,
) -> Result<bool, AllocError> {
    let mut source = source_of(alloc, transcript.bytes())?;
    Ok(entries_of(alloc, session, "audit", &mut source, said)?.is_some())
}

// How many entries the run by the words of this key tells, where it ends well.
fn entries_of(
    alloc: Global,
    session: &Value,
    words: &str,
    source: &mut MemSource,
    sink: &mut MemSink,
) -> Result<Option<u64>, AllocError> {
    let mut shelf = shelf_of(alloc, session)?;
    entries_over(alloc, list(session.get(words)), &mut shelf, source, sink)
}

fn entries_over(
    alloc: Global,
    words: &[Value],
    shelf: &mut MemShelf,
    source: &mut MemSource,
    sink: &mut MemSink,
) -> Result<Option<u64>, AllocError> {
    let words = words_of(alloc, words)?;
    let report = run_alone(alloc, &words, shelf, source, sink);
    if report.status != 0 {
        return Ok(None);
    }
    Ok(Some(report.entries.len() as u64))
}

fn shelf_of(alloc: Global, session: &Value) -> Result<MemShelf, AllocError> {
    let mut files = Vec::new(alloc);
    put_text(alloc, session, "policy", "more_policy", &mut files)?;
    put_text(alloc, session, "requests", "more_requests", &mut files)?;
    put_text(alloc, session, "transcript", "more_transcript", &mut files)?;
    Ok(MemShelf::new(files, Vec::new(alloc)))
}

/// Whether all that a session says is told of it is told; each `telling` has its words, `tell`, its
/// `output`, and its `status`, where that is not 0.
pub fn is_told_of(alloc: Global, session: &Value) -> Result<bool, AllocError> {
    let mut shelf = shelf_of(alloc, session)?;
    are_told(alloc, session, &mut shelf)
}
