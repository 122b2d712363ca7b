//! Cutting the input into lines, jobs and batches, in whatever pieces it comes.
ghost use Rattle.std.specs.Prelude.{◌≡◌, ◌≢◌, ◌≤◌, ◌<◌, ◌+◌, ℕ, [], ◌∷◌, ◌++◌, length, take};
ghost use Rattle.std.specs.Prelude.{slice_index, None, Some, IfOk, OnOk, OnErr, MatchBool, true};
ghost use Rattle.wf_names.specs.declared.limits.TheConstants.{LINE_LIMIT, SESSION_LINE_LIMIT};
ghost use Rattle.wf_names.specs.declared.limits.TheConstants.{BATCH_LINE_LIMIT};
ghost use Rattle.line_reader.specs.declared.stop.Stop.{Stop};
ghost use Rattle.line_reader.specs.Jobs as jobs;
ghost use Rattle.line_reader.specs.Cutter.{CanCut, Cuts, CutsOn, IsEnded, IsSound, emptied};

use crate::Stop;
use memchr::memchr;
use std::alloc::{AllocError, Global};
use std::marker::Model;
use std::mem;
use wf_names::{BATCH_LINE_LIMIT, LINE_LIMIT, SESSION_LINE_LIMIT};
use wf_talk::{Ends, Job, Jobs, Line};
use wire_json::{Asked, RequestReader};

/// What is cut of an input and not handed over yet: the jobs of a batch, and the line that is open.
#[derive(Drop)]
pub struct Cutter {
    alloc: Global,
    requests: RequestReader,
    // How many lanes serve the jobs.
    lanes: u8,
    // The bytes of the open line.
    line: Line,
    // The number of the open line, counted from 0.
    number: u32,
    jobs: Jobs,
    // How many jobs the last batch had, for which there is room at once in the next one.
    room: usize,
    // How many of the jobs stand before the open batch.
    from: usize,
    // The ends of the batches that have ended and have a job.
    ends: Ends,
    stop: Option<Stop>,
}

impl Model for Cutter {
    ghost use Rattle.line_reader.specs.Jobs.{Cut};

    ghost Value = { Cut };

    ghost view = { λ c. record {
      lanes = c.lanes;
      line = c.line;
      number = c.number;
      jobs =
          c.jobs;
      from = c.from;
      ends = c.ends;
      stop = c.stop;
    } };
}

impl Cutter {
    /// A cutter before the first byte, which counts lines from a number on.
    pub fn new(alloc: Global, lanes: u8, number: u32) -> Cutter
        requires { number ≤ SESSION_LINE_LIMIT }
        ensures start { result ≡ jobs.start_from lanes number }
        ensures sound { IsSound result }
    {
        Cutter {
            alloc,
            requests: RequestReader::new(alloc),
            lanes,
            line: Line::new(alloc),
            number,
            jobs: Jobs::new(alloc),
            room: 0,
            from: 0,
            ends: Ends::new(alloc),
            stop: None,
        }
    }

    /// Where the cutting stopped, if it has.
    pub fn stop(&self) -> Option<Stop>
        ensures { result ≡ self.now.stop }
    {
        self.stop
    }

    /// The number of the first line of an input that follows what was cut, where that ends here.
    pub fn next_number(&self) -> u32
        requires { IsSound self.now }
        ensures { result ≡ (jobs.next_input self.now).number }
    {
        if self.line.len() == 0 {
            self.number
        } else {
            self.number + 1
        }
    }

    /// Whether a batch has ended that is not handed over yet.
    pub fn has_batch(&self) -> bool
        ensures { MatchBool result (self.now.ends ≢ []) (self.now.ends ≡ []) }
    {
        self.ends.len() != 0
    }

    /// Cuts the next bytes of a piece: a whole line with its end, a run of a line without it, or
    /// one byte. Answers how many bytes were cut. No byte is cut after one that ends a batch, or at
    /// which the cutting stops.
    pub fn feed(&mut self, piece: &[u8]) -> Result<usize, AllocError>
        requires some { 0 < length piece.now }
        requires ready { CanCut self.old }
        ensures within { IfOk result (λ n. n ≤ length piece.now) }
        ensures cuts { IfOk result (λ n. Cuts self.old self.new (take n piece.now)) }
        ensures on { OnOk result (CutsOn self.old self.new) }
        ensures sound { IsSound self.new }
        ensures unchanged { OnErr result (self.new ≡ self.old) }
    {
        let run = self.plain_len(piece);
        if run == 0 {
            self.step(piece[0])?;
            return Ok(1);
        }
        if self.has_line(piece, run) {
            self.end_whole_line(&piece[..run])?;
            return Ok(run + 1);
        }
        self.push_plain(&piece[..run])?;
        Ok(run)
    }

    /// Ends the input, or what was read of it: where it has ended, what follows the last line end
    /// is a line too, unless it is empty. The open batch ends.
    #[tactic(auto, using(crate::proofs::CutLaws::finished))]
    pub fn finish(&mut self, ended: bool) -> Result<(), AllocError>
        requires handed { self.old.ends ≡ [] }
        requires sound { IsSound self.old }
        ensures finished { OnOk result (self.new ≡ jobs.end_batch (jobs.flush ended self.old)) }
        ensures ended { OnOk result (IsEnded self.new) }
        ensures sound { IsSound self.new }
        ensures unchanged { OnErr result (self.new ≡ self.old) }
    {
        let count = self.jobs.len();
        self.flush(ended)?;
        match self.end_batch() {
            Ok(()) => Ok(()),
            Err(e) => {
                self.jobs.truncate(count);
                Err(e)
            }
        }
    }

    /// Hands the batch over that has ended.
    pub fn take_batch(&mut self) -> Jobs
        requires { IsEnded self.old }
        ensures batch { result ≡ self.old.jobs }
        ensures left { self.new ≡ emptied self.old }
    {
        self.room = self.jobs.len();
        self.from = 0;
        self.ends.truncate(0);
        mem::replace(&mut self.jobs, Jobs::new(self.alloc))
    }

    // How many bytes at the front of the piece are no LF and within the limits.
    fn plain_len(&self, piece: &[u8]) -> usize
        requires sound { IsSound self.now }
        ensures within { result ≤ length piece.now }
        ensures plain { (k : ℕ) → k < result → slice_index piece.now k ≢ 10 }
        ensures lines { 0 < result → self.now.number < SESSION_LINE_LIMIT }
        ensures short { length self.now.line + result ≤ LINE_LIMIT }
    {
        if self.number >= SESSION_LINE_LIMIT {
            return 0;
        }
        let run = memchr(b'\n', piece).unwrap_or(piece.len());
        run.min(LINE_LIMIT - self.line.len())
    }

    // Whether the first `run` bytes of a piece are a whole line, with its end behind them.
    fn has_line(&self, piece: &[u8], run: usize) -> bool
        ensures empty { result ≡ true → self.now.line ≡ [] }
        ensures within { result ≡ true → run < length piece.now }
        ensures end { result ≡ true → slice_index piece.now run ≡ 10 }
    {
        self.line.len() == 0 && run < piece.len() && piece[run] == b'\n'
    }

    // Adds bytes to the open line.
    fn push_plain(&mut self, bytes: &[u8]) -> Result<(), AllocError>
        ensures pushed { OnOk result (self.new
            ≡ record self.old { line = self.old.line ++ bytes.now }) }
        ensures unchanged { OnErr result (self.new ≡ self.old) }
    {
        self.line.push_all(bytes)
    }

    // The next byte.
    #[tactic(auto, unfolding(crate::specs::Jobs::step))]
    fn step(&mut self, byte: u8) -> Result<(), AllocError>
        requires { CanCut self.old }
        ensures fed { OnOk result (self.new ≡ jobs.step self.old byte) }
        ensures unchanged { OnErr result (self.new ≡ self.old) }
    {
        if self.number >= SESSION_LINE_LIMIT {
            self.stop = Some(Stop::TooManyLines);
            return Ok(());
        }
        if byte == b'\n' {
            return self.end_line();
        }
        if self.line.len() >= LINE_LIMIT {
            self.stop = Some(Stop::LineTooLong(self.number));
            return Ok(());
        }
        self.line.push(byte)
    }

    #[tactic(auto, unfolding(crate::specs::Jobs::end_line))]
    fn end_line(&mut self) -> Result<(), AllocError>
        requires few { length self.old.jobs < BATCH_LINE_LIMIT }
        requires begins { self.old.from ≤ length self.old.jobs }
        requires within { self.old.number < SESSION_LINE_LIMIT }
        ensures ended { OnOk result (self.new ≡ jobs.end_line self.old) }
        ensures unchanged { OnErr result (self.new ≡ self.old) }
    {
        let line = without_cr(self.line.as_slice());
        if line.is_empty() {
            return self.end_empty_line();
        }
        match self.requests.read(line, self.lanes) {
            Ok(asked) => self.end_job_line(asked),
            Err(e) => Err(e),
        }
    }

    // Ends a line that was not copied: it stands in the piece, and no line is open.
    #[tactic(auto, unfolding(crate::specs::Jobs::end_line))]
    fn end_whole_line(&mut self, line: &[u8]) -> Result<(), AllocError>
        requires few { length self.old.jobs < BATCH_LINE_LIMIT }
        requires begins { self.old.from ≤ length self.old.jobs }
        requires within { self.old.number < SESSION_LINE_LIMIT }
        ensures ended { OnOk result (self.new
            ≡ jobs.end_line (record self.old { line = line.now })) }
        ensures unchanged { OnErr result (self.new ≡ self.old) }
    {
        let line = without_cr(line);
        if line.is_empty() {
            return self.end_empty_line();
        }
        match self.requests.read(line, self.lanes) {
            Ok(asked) => self.end_job_line(asked),
            Err(e) => Err(e),
        }
    }

    #[tactic(auto, unfolding(crate::specs::Jobs::end_batch))]
    fn end_empty_line(&mut self) -> Result<(), AllocError>
        requires few { length self.old.jobs ≤ BATCH_LINE_LIMIT }
        requires within { self.old.number < SESSION_LINE_LIMIT }
        ensures ended { OnOk result (self.new ≡ jobs.end_batch (jobs.next_line self.old)) }
        ensures unchanged { OnErr result (self.new ≡ self.old) }
    {
        self.end_batch()?;
        self.next_line();
        Ok(())
    }

    #[tactic(auto, unfolding(crate::specs::Jobs::end_full_batch, crate::specs::Jobs::end_batch))]
    fn end_job_line(&mut self, asked: Asked) -> Result<(), AllocError>
        requires few { length self.old.jobs < BATCH_LINE_LIMIT }
        requires begins { self.old.from ≤ length self.old.jobs }
        requires within { self.old.number < SESSION_LINE_LIMIT }
        ensures ended { OnOk result (self.new
            ≡ jobs.end_full_batch (jobs.with_job self.old
            (record { lane = asked.lane; line = self.old.number; ask = asked.ask }))) }
        ensures unchanged { OnErr result (self.new ≡ self.old) }
    {
        let count = self.jobs.len();
        self.add_job(asked)?;
        match self.end_full_batch() {
            Ok(()) => {
                self.next_line();
                Ok(())
            }
            Err(e) => {
                self.jobs.truncate(count);
                Err(e)
            }
        }
    }

    // Begins the next line.
    fn next_line(&mut self)
        requires { self.old.number < SESSION_LINE_LIMIT }
        ensures { self.new ≡ jobs.next_line self.old }
    {
        self.line.truncate(0);
        self.number += 1;
    }

    #[tactic(auto, unfolding(crate::specs::Jobs::end_full_batch))]
    fn end_full_batch(&mut self) -> Result<(), AllocError>
        requires few { length self.old.jobs ≤ BATCH_LINE_LIMIT }
        requires begins { self.old.from ≤ length self.old.jobs }
        ensures ended { OnOk result (self.new ≡ jobs.end_full_batch self.old) }
        ensures unchanged { OnErr result (self.new ≡ self.old) }
    {
        if self.from + BATCH_LINE_LIMIT as usize <= self.jobs.len() {
            return self.end_batch();
        }
        Ok(())
    }

    #[tactic(auto, unfolding(crate::specs::Jobs::end_batch))]
    fn end_batch(&mut self) -> Result<(), AllocError>
        requires few { length self.old.jobs ≤ BATCH_LINE_LIMIT }
        ensures ended { OnOk result (self.new ≡ jobs.end_batch self.old) }
        ensures unchanged { OnErr result (self.new ≡ self.old) }
    {
        let count = self.jobs.len();
        if self.from < count {
            self.ends.push(count as u32)?;
            self.from = count;
        }
        Ok(())
    }

    #[tactic(auto, unfolding(crate::specs::Jobs::flush))]
    fn flush(&mut self, ended: bool) -> Result<(), AllocError>
        ensures flushed { OnOk result (self.new ≡ jobs.flush ended self.old) }
        ensures one { length self.new.jobs ≤ length self.old.jobs + 1 }
        ensures before { record self.new {
          jobs = take (length self.old.jobs) self.new.jobs;
        } ≡ self.old }
        ensures unchanged { OnErr result (self.new ≡ self.old) }
    {
        if !ended || self.stop.is_some() || self.line.len() == 0 {
            return Ok(());
        }
        match self.requests.read(self.line.as_slice(), self.lanes) {
            Ok(asked) => self.add_job(asked),
            Err(e) => Err(e),
        }
    }

    // Adds the job of the open line.
    fn add_job(&mut self, asked: Asked) -> Result<(), AllocError>
        ensures added { OnOk result (self.new
            ≡ record self.old {
              jobs = self.old.jobs ++ record
                  { lane = asked.lane; line = self.old.number; ask = asked.ask } ∷ [];
            }) }
        ensures unchanged { OnErr result (self.new ≡ self.old) }
    {
        self.make_room()?;
        self.jobs.add(&Job {
            lane: asked.lane,
            line: self.number,
            ask: asked.ask,
        })
    }

    // Makes room for the jobs of a batch that begins.
    fn make_room(&mut self) -> Result<(), AllocError>
        ensures { self.new ≡ self.old }
    {
        if self.jobs.len() == 0 && self.room > 0 {
            self.jobs = Jobs::from_vec(Vec::with_capacity(self.alloc, self.room)?);
            self.room = 0;
        }
        Ok(())
    }
}

// A line without one CR at its end.
#[tactic(auto, unfolding(crate::specs::Jobs::without_cr))]
fn without_cr(line: &[u8]) -> &[u8]
    ensures { result.now ≡ jobs.without_cr line.now }
{
    match line {
        [before @ .., b'\r'] => before,
        _ => line,
    }
}
