//! Sessions up to the most cases that there may be, and up to the most that may be open: no job is
//! answered with want of memory.

use crate::world::World;
use std::alloc::{AllocError, Global};
use wf_server::{Report, run_alone};
use wf_talk::{Denial, Entry, Reply};

// A policy under which a case is opened at once.
const SMALL: &str = r#"
format = 1
admin = "chief"
roles = ["chief"]
users = { eve = ["chief"] }

[flows.pay]
steps = ["pay"]
permit = { pay = ["chief"] }
"#;

const OPEN: &str = "{\"do\":\"open\",\"flow\":\"pay\"}\n";

/// What a report has to tell: how many entries and batches, how many cases were opened, and the
/// number of the last one. One opening is denied since there are too many cases.
type Told = (usize, usize, u32, u16);

/// Whether by opening and withdrawing in turn every number is given once.
pub fn numbers_end(alloc: Global) -> Result<bool, AllocError> {
    is_served(alloc, 65_535, true, (131_071, 128, 65_535, 65_534))
}

/// Whether no case is opened beside 1,024 others, and one again where one of them was withdrawn.
/// The batch ends at 1,024 lines.
pub fn open_cases_are_limited(alloc: Global) -> Result<bool, AllocError> {
    is_served(alloc, 1_025, false, (1_027, 2, 1_025, 1_024))
}

fn is_served(alloc: Global, cases: u16, in_turn: bool, told: Told) -> Result<bool, AllocError> {
    let mut input = String::new(alloc);
    put_openings(alloc, cases, in_turn, &mut input)?;
    is_served_with(alloc, input.as_str(), told)
}

// Cases are opened and withdrawn in turn, or all are opened and one is withdrawn; then one is
// opened.
fn put_openings(
    alloc: Global,
    cases: u16,
    in_turn: bool,
    all: &mut String,
) -> Result<(), AllocError> {
    for case in 0..cases {
        all.push_str(OPEN)?;
        if in_turn {
            put_withdrawal(alloc, case, all)?;
        }
    }
    if !in_turn {
        put_withdrawal(alloc, 7, all)?;
    }
    all.push_str(OPEN)
}

fn put_withdrawal(alloc: Global, case: u16, all: &mut String) -> Result<(), AllocError> {
    let line = format!(in alloc; "{{\"do\":\"withdraw\",\"by\":\"eve\",\"case\":{case}}}\n")?;
    all.push_str(line.as_str())
}

fn is_served_with(alloc: Global, input: &str, told: Told) -> Result<bool, AllocError> {
    let mut world = World::new(alloc, &["serve", "policy"], SMALL, input)?;
    Ok(is_served_in(alloc, &mut world, told))
}

fn is_served_in(alloc: Global, world: &mut World, told: Told) -> bool {
    let report = run_alone(
        alloc,
        &world.words,
        &mut world.shelf,
        &mut world.source,
        &mut world.sink,
    );
    tells(&report, told)
}

fn tells(report: &Report, told: Told) -> bool {
    let (entries, batches, opened, last) = told;
    report.status == 0
        && report.entries.len() == entries
        && report.batch_ends.len() == batches
        && answers(report.entries.as_slice(), opened, last)
}

// Whether entries tell these openings, one that was denied, and no want of memory.
fn answers(entries: &[Entry], all: u32, at_last: u16) -> bool {
    let mut opened = 0u32;
    let mut last = 0u16;
    let mut full = 0u32;
    for entry in entries {
        match &entry.reply {
            Reply::Opened { case, .. } => {
                opened = opened.saturating_add(1);
                last = case.0;
            }
            Reply::Denied(Denial::Full) => full = full.saturating_add(1),
            Reply::NoMemory => return false,
            _ => {}
        }
    }
    opened == all && last == at_last && full == 1
}
