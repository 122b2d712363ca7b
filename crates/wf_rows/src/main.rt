//! Runs each row of its files over a source, a sink and a shelf in memory, and each trial that no
//! row can say, and says which do not hold.
#![tactic(auto)]

mod disk;
mod outside;
mod row;
mod session;
mod told;
mod trials;

use crate::disk::count_loads;
use crate::outside::{shelf_of, sink_of, source_of, with_pieces, words_of};
use crate::row::{is_row, list, number, text};
use crate::session::{is_legal, is_told_of};
use crate::told::{is_fault_told, is_told};
use crate::trials::{LANES, PARTS, try_lanes, try_parts, try_sessions};
use std::alloc::{AllocError, AllocGlobal, Global};
use std::fs;
use std::rt::Files;
use std::sync::Wait;
use std::test::Fail;
use std::thread::Threads;
use toml::{Table, Value};
use wf_outside::{MemShelf, MemSink, MemSource};
use wf_server::{Report, run_alone};

// The files: commands with what comes of them, faulty policies, the forms of rules that the first
// format lacks, devices that fail with texts made to break it, limits, sessions that go on, the
// clauses of cases, and what is told in words.
const FILES: [&str; 8] = [
    "rows.toml",
    "policies.toml",
    "forms.toml",
    "hostile.toml",
    "limits.toml",
    "resumed.toml",
    "clauses.toml",
    "told.toml",
];

// Whole sessions; and those of the examples, with what is told of them.
const SESSIONS: [&str; 2] = ["sessions.toml", "stories.toml"];

fn main(rt: HostRuntime) -> Result<(), Fail> {
    run_files(&rt)?;
    run_trials(&rt)
}

// Runs the rows of all files, the loads of the disk, and the sessions.
fn run_files(rt: &(impl Print + Files + AllocGlobal)) -> Result<(), Fail> {
    for file in FILES {
        let holding = rows_of(rt, file)?;
        println!(rt; "{file}: {holding} rows hold")?;
    }
    let right = count_loads(rt, rt.alloc());
    println!(rt; "the disk: {right} loads are right")?;
    for file in SESSIONS {
        let legal = sessions_of(rt, file)?;
        println!(rt; "{file}: {legal} sessions are legal")?;
    }
    Ok(())
}

// How many rows of a file hold.
fn rows_of(rt: &(impl Print + Files + AllocGlobal), file: &str) -> anyhow::Result<u32> {
    let rows = table_of(rt, file)?;
    count_rows(rt, rt.alloc(), &rows)
}

// How many sessions of a file are legal.
fn sessions_of(rt: &(impl Print + Files + AllocGlobal), file: &str) -> anyhow::Result<u32> {
    let sessions = table_of(rt, file)?;
    count_sessions(rt, rt.alloc(), &sessions)
}

// Runs the trials that no row can say.
fn run_trials<R: Print + AllocGlobal + Threads + Wait + Sync>(rt: &R) -> Result<(), Fail> {
    tell(rt, &PARTS, &try_parts(rt, rt.alloc())?)?;
    tell(rt, &trials::SESSIONS, &try_sessions(rt.alloc())?)?;
    tell(rt, &LANES, &try_lanes(rt, rt.alloc())?)?;
    Ok(())
}

// What was found by trials of these names.
fn tell(rt: &impl Print, names: &[&str], found: &[bool]) -> anyhow::Result<()> {
    for i in 0..names.len().min(found.len()) {
        let (name, right) = (names[i], if found[i] { "right" } else { "WRONG" });
        println!(rt; "{name}: {right}")?;
    }
    Ok(())
}

fn table_of(rt: &(impl Files + AllocGlobal), file: &str) -> anyhow::Result<Table> {
    let text = fs::read_to_string(rt, file)?;
    Ok(toml::table_from_str(rt.alloc(), text.as_str())?)
}

// How many rows hold; the others are named.
fn count_rows(rt: &impl Print, alloc: Global, rows: &Table) -> anyhow::Result<u32> {
    let mut holding = 0u32;
    for row in list(rows.get("row")) {
        if is_row(row) && holds(alloc, rows, row)? {
            holding = holding.saturating_add(1);
        } else {
            println!(rt; "does not hold: {}", text(row.get("name")))?;
        }
    }
    Ok(holding)
}

// How many sessions are answered, found legal and told rightly; the others are named.
fn count_sessions(rt: &impl Print, alloc: Global, sessions: &Table) -> anyhow::Result<u32> {
    let mut legal = 0u32;
    for session in list(sessions.get("session")) {
        if is_legal(alloc, session)? && is_told_of(alloc, session)? {
            legal = legal.saturating_add(1);
        } else {
            println!(rt; "is not legal: {}", text(session.get("name")))?;
        }
    }
    Ok(legal)
}

// Whether a row's command ends as the row says, and the fault of its policy file is told as it
// says.
fn holds(alloc: Global, rows: &Table, row: &Value) -> Result<bool, AllocError> {
    let mut shelf = shelf_of(alloc, rows, row)?;
    if row.get("tell").is_some() {
        return is_told(alloc, row, &mut shelf);
    }
    Ok(holds_with(alloc, row, &mut shelf)? && is_fault_told(alloc, row, &mut shelf)?)
}

fn holds_with(alloc: Global, row: &Value, shelf: &mut MemShelf) -> Result<bool, AllocError> {
    let mut source = source_of(alloc, row)?;
    holds_over(alloc, row, shelf, &mut source)
}

fn holds_over(
    alloc: Global,
    row: &Value,
    shelf: &mut MemShelf,
    source: &mut MemSource,
) -> Result<bool, AllocError> {
    let mut sink = sink_of(alloc, row)?;
    holds_into(alloc, row, shelf, source, &mut sink)
}

fn holds_into(
    alloc: Global,
    row: &Value,
    shelf: &mut MemShelf,
    source: &mut MemSource,
    sink: &mut MemSink,
) -> Result<bool, AllocError> {
    let words = words_of(alloc, list(row.get("words")))?;
    let report = run_alone(alloc, &words, shelf, source, sink);
    ends_rightly(alloc, row, &report, sink.bytes())
}

// Whether the status is the row's, and the text of the fault where the row has one, and this is all
// that the row's command writes.
fn ends_rightly(
    alloc: Global,
    row: &Value,
    report: &Report,
    written: &[u8],
) -> Result<bool, AllocError> {
    Ok(
        number(row.get("status")) == Some(report.status as u64)
            && tells(alloc, report, row)?
            && writes(alloc, row, written)?,
    )
}

fn tells(alloc: Global, report: &Report, row: &Value) -> Result<bool, AllocError> {
    let fault = text(row.get("fault"));
    if fault.is_empty() {
        return Ok(true);
    }
    let told = format!(in alloc; "{}", report.fault)?;
    Ok(told.as_str() == fault)
}

fn writes(alloc: Global, row: &Value, written: &[u8]) -> Result<bool, AllocError> {
    let wanted = with_pieces(alloc, text(row.get("output")), list(row.get("more_output")))?;
    Ok(written == wanted.as_slice())
}
