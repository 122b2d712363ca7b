//! The jobs of a text that is there as a whole.
ghost use Rattle.std.specs.Prelude.{◌≡◌, ◌<◌, ◌≤◌, ◌+◌, ℕ, List, true, [], ◌++◌, length, take};
ghost use Rattle.std.specs.Prelude.{None, IfOk, OnOk};
ghost use Rattle.wf_names.specs.declared.limits.TheConstants.{SESSION_LINE_LIMIT};
ghost use Rattle.line_reader.specs.Jobs.{jobs_of_input, next_input};
ghost use Rattle.line_reader.specs.Cutter.{ends_after};
ghost use Rattle.line_reader.specs.Laws.{AreInOrder, AreNamedJobs};
ghost use Rattle.line_reader.specs.Whole.{HasCutUp};

use crate::{Cutter, Stop};
use std::alloc::{AllocError, Global};
use wf_talk::{Ends, Job, Jobs};

/// The jobs of a text, and for each of its batches that has a job, the count of jobs up to its end.
#[derive(Drop)]
pub struct Batch {
    pub jobs: Jobs,
    pub ends: Ends,
}

/// A text that is cut as a whole.
#[derive(Drop)]
pub struct CutText {
    pub batch: Batch,
    /// Where the cutting stopped, if it met a limit.
    pub stop: Option<Stop>,
    /// The number of the line that comes next, behind the text.
    pub lines: u32,
}

/// The jobs of a whole text, with the ends of their batches. Where the text meets a limit, the
/// lines before it count alone.
pub fn jobs_of(alloc: Global, bytes: &[u8], lanes: u8) -> Result<Batch, AllocError>
    ensures jobs { IfOk result (λ batch. batch.jobs ≡ (jobs_of_input bytes.now true lanes).jobs) }
    ensures ends { IfOk result (λ batch. batch.ends ≡ (jobs_of_input bytes.now true lanes).ends) }
    ensures order { IfOk result (λ batch. 0 < lanes → AreInOrder lanes batch.jobs batch.ends) }
    ensures named { IfOk result (λ batch. AreNamedJobs batch.jobs) }
{
    match cut_text(alloc, bytes, lanes) {
        Ok(text) => Ok(text.batch),
        Err(e) => Err(e),
    }
}

/// The same, with where the cutting stopped, and which line comes behind the text: the last line of
/// the text has a number of its own, with its LF or without.
pub fn cut_text(alloc: Global, bytes: &[u8], lanes: u8) -> Result<CutText, AllocError>
    ensures jobs { IfOk result (λ text. text.batch.jobs
        ≡ (jobs_of_input bytes.now true lanes).jobs) }
    ensures ends { IfOk result (λ text. text.batch.ends
        ≡ (jobs_of_input bytes.now true lanes).ends) }
    ensures stop { IfOk result (λ text. text.stop ≡ (jobs_of_input bytes.now true lanes).stop) }
    ensures lines { IfOk result (λ text. text.lines
        ≡ (next_input (jobs_of_input bytes.now true lanes)).number) }
    ensures few { IfOk result (λ text. text.lines ≤ SESSION_LINE_LIMIT) }
    ensures order { IfOk result (λ text. 0 < lanes
        → AreInOrder lanes text.batch.jobs text.batch.ends) }
    ensures named { IfOk result (λ text. AreNamedJobs text.batch.jobs) }
{
    let mut cutter = Cutter::new(alloc, lanes, 0);
    let mut whole = Batch {
        jobs: Jobs::new(alloc),
        ends: Ends::new(alloc),
    };
    cut_bytes(&mut whole, &mut cutter, bytes)?;
    cutter.finish(true)?;
    let stop = cutter.stop();
    let lines = cutter.next_number();
    add_batch(&mut whole, cutter.take_batch().as_slice())?;
    Ok(CutText {
        batch: whole,
        stop,
        lines,
    })
}

// Cuts all of the bytes, as far as they are within the limits.
fn cut_bytes(whole: &mut Batch, cutter: &mut Cutter, bytes: &[u8]) -> Result<(), AllocError>
    requires { (lanes : ℕ) × HasCutUp lanes whole.old.jobs whole.old.ends cutter.old [] }
    ensures { OnOk result ((lanes : ℕ) → HasCutUp lanes whole.old.jobs whole.old.ends
        cutter.old [] →
        HasCutUp lanes whole.new.jobs whole.new.ends cutter.new bytes.now) }
{
    let mut at = 0;
    'cutting: while at < bytes.len() {
        if cutter.stop().is_some() {
            return Ok(());
        }
        at += cut_some(whole, cutter, &bytes[at..])?;
    }
    Ok(())
}

// Cuts some of the bytes that are left, and adds a batch that has ended. Answers how many were cut.
fn cut_some(whole: &mut Batch, cutter: &mut Cutter, left: &[u8]) -> Result<usize, AllocError>
    requires some { 0 < length left.now }
    requires going { cutter.old.stop ≡ None }
    requires cut { (lanes : ℕ) × ((seen : List ℕ)
        × HasCutUp lanes whole.old.jobs whole.old.ends cutter.old seen) }
    ensures some { IfOk result (λ n. 0 < n) }
    ensures within { IfOk result (λ n. n ≤ length left.now) }
    ensures cut { IfOk result (λ n. (lanes : ℕ) (seen : List ℕ) →
        HasCutUp lanes whole.old.jobs whole.old.ends cutter.old seen →
        HasCutUp lanes whole.new.jobs whole.new.ends cutter.new (seen ++ take n left.now)) }
{
    let count = cutter.feed(left)?;
    if cutter.has_batch() {
        add_batch(whole, cutter.take_batch().as_slice())?;
    }
    Ok(count)
}

// Adds the jobs of a batch and its end, if it has a job.
fn add_batch(whole: &mut Batch, batch: &[Job]) -> Result<(), AllocError>
    requires few { length whole.old.jobs + length batch.now ≤ SESSION_LINE_LIMIT }
    ensures jobs { OnOk result (whole.new.jobs ≡ whole.old.jobs ++ batch.now) }
    ensures ends { OnOk result (whole.new.ends
        ≡ ends_after whole.old.ends (length whole.old.jobs) batch.now) }
{
    if batch.is_empty() {
        return Ok(());
    }
    whole.jobs.push_all(batch)?;
    whole.ends.push(whole.jobs.len() as u32)
}
