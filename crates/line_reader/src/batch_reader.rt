//! Reading an input up to the end of each batch, and no further than the piece in which it ends.
ghost use Rattle.std.specs.Prelude.{◌≡◌, ◌≢◌, ◌≤◌, ◌<◌, ℕ, List, [], length, Option, None, Some};
ghost use Rattle.std.specs.Prelude.{true, false, IfOk, OnOk, OnErr};
ghost use Rattle.wf_names.specs.declared.limits.TheConstants.{SESSION_LINE_LIMIT};
ghost use Rattle.line_reader.specs.Jobs.{start_from};
ghost use Rattle.line_reader.specs.Cutter.{CutsOn};
ghost use Rattle.line_reader.specs.BatchReader.{BatchReaderShape, Handed, handed_more, HasRead};
ghost use Rattle.line_reader.specs.BatchReader.{IsReadUp, ReadsBatch, CanReadOn, CountsPause};
ghost use Rattle.line_reader.specs.BatchReader.{GoesOnReading, left_to_read};
ghost use Rattle.line_reader.specs.Pausing.{HasCut, PausesBy, AdvancesTo, PausesAs, StepsAs};
ghost use Rattle.line_reader.specs.Pausing.{ClosesAs, FinishesAs, CountsPauseStep};

use crate::{Cutter, Pieces, Stop};
use std::alloc::{AllocError, Global};
use std::marker::Model;
use wf_outside::Source;
use wf_talk::Jobs;

/// Where reading paused.
#[derive(Clone, Copy)]
pub enum Paused {
    /// At the end of a batch.
    Batch,
    /// At the end of the input.
    End,
    /// At a fault of the source.
    Failed,
    /// Where the cutting stopped.
    Stopped(Stop),
    /// Where an allocation was refused.
    NoMemory,
}

/// The jobs that were read, and where reading paused behind them. Where an allocation was refused
/// there are none.
#[derive(Drop)]
pub struct Reading {
    pub jobs: Jobs,
    pub paused: Paused,
}

/// A reader of an input: what is cut of it and not handed over, and the pieces that are cut.
#[derive(Drop)]
pub struct BatchReader {
    alloc: Global,
    cutter: Cutter,
    // What is passed is cut.
    pieces: Pieces,
}

impl Model for BatchReader {
    ghost use Rattle.line_reader.specs.Cutter.{IsSound};
    ghost use Rattle.line_reader.specs.BatchReader.{BatchReaderShape};

    ghost Value = { BatchReaderShape };

    ghost view = { λ r. record { cut = r.cutter; pending = r.pieces.ahead; room = r.pieces.room } };

    ghost invariant = { λ r. IsSound r.cutter };
}

impl BatchReader {
    /// A reader before the first byte, that counts lines from `number` on, and takes at most `room`
    /// bytes at once.
    pub fn new(
        alloc: Global,
        lanes: u8,
        number: u32,
        room: usize,
    ) -> Result<BatchReader, AllocError>
        requires room { 0 < room }
        requires number { number ≤ SESSION_LINE_LIMIT }
        ensures { IfOk result (λ r. r
            ≡ record { cut = start_from lanes number; pending = []; room = room }) }
    {
        Ok(BatchReader {
            alloc,
            cutter: Cutter::new(alloc, lanes, number),
            pieces: Pieces::new(alloc, room)?,
        })
    }

    /// Reads on up to the end of the next batch that has a job, and hands its jobs over. Where the
    /// input ends, or no more of it can be read, so does the open batch. Where there is no memory,
    /// nothing is handed over, and what was read is kept.
    pub fn next_batch<S: Source>(&mut self, source: &mut S) -> Reading
        requires { CanReadOn self.old }
        ensures reads { (before : Option (List ℕ)) (h : Handed)
            → HasRead before (S.left source.old) h self.old →
            ReadsBatch before (S.left source.new) self.new.room (handed_more h result.jobs)
            result.paused }
        ensures up { (before : Option (List ℕ)) (h : Handed)
            → HasRead before (S.left source.old) h self.old →
            IsReadUp before (S.left source.new) h
            × IsReadUp before (S.left source.new) (handed_more h result.jobs) }
        ensures goes_on { result.paused ≡ Paused.Batch → (before : Option (List ℕ)) (h : Handed)
            → HasRead before (S.left source.old) h self.old →
            HasRead before (S.left source.new) (handed_more h result.jobs) self.new }
        ensures kept { result.paused ≡ Paused.NoMemory → (result.jobs ≡ [])
            × ((before : Option (List ℕ)) (h : Handed)
            → HasRead before (S.left source.old) h self.old →
            HasRead before (S.left source.new) h self.new) }
        ensures ready { result.paused ≡ Paused.Batch → GoesOnReading self.old self.new }
        ensures room { self.new.room ≡ self.old.room }
        ensures counts { CountsPause result.paused (S.faults source.old) (S.faults source.new) }
    {
        let paused = self.read_batch(source);
        match self.close_batch(paused) {
            Paused::NoMemory => Reading {
                jobs: Jobs::new(self.alloc),
                paused: Paused::NoMemory,
            },
            paused => Reading {
                jobs: self.cutter.take_batch(),
                paused,
            },
        }
    }

    // Reads up to the end of a batch that has a job, or of what can be read.
    fn read_batch<S: Source>(&mut self, source: &mut S) -> Paused
        requires { CanReadOn self.old }
        ensures reads { (before : Option (List ℕ)) (h : Handed)
            → HasRead before (S.left source.old) h self.old →
            PausesBy before (S.left source.new) h self.new result }
        ensures pauses { PausesAs self.new (S.left source.new) result }
        ensures less { result ≡ Paused.Batch → left_to_read self.new < left_to_read self.old }
        ensures room { self.new.room ≡ self.old.room }
        ensures counts { CountsPause result (S.faults source.old) (S.faults source.new) }
    {
        'reading: loop {
            match self.advance(source) {
                None => {}
                Some(paused) => return paused,
            }
        }
    }

    // Cuts some of the piece, or takes the next one where all of it is cut.
    fn advance<S: Source>(&mut self, source: &mut S) -> Option<Paused>
        requires { CanReadOn self.old }
        ensures reads { (before : Option (List ℕ)) (h : Handed)
            → HasRead before (S.left source.old) h self.old →
            AdvancesTo before (S.left source.new) h self.new result }
        ensures steps { StepsAs self.old self.new (S.left source.new) result }
        ensures less { result ≡ Some Paused.Batch → left_to_read self.new < left_to_read self.old }
        ensures room { self.new.room ≡ self.old.room }
        ensures counts { CountsPauseStep result (S.faults source.old) (S.faults source.new) }
    {
        if !self.pieces.ahead().is_empty() {
            return self.cut_on();
        }
        match self.pieces.fill(source) {
            Ok(true) => None,
            Ok(false) => Some(Paused::End),
            Err(_) => Some(Paused::Failed),
        }
    }

    // Cuts some of what is left of the piece; reading pauses where that ends a batch or stops the
    // cutting.
    fn cut_on(&mut self) -> Option<Paused>
        requires ready { CanReadOn self.old }
        requires some { 0 < length self.old.pending }
        ensures reads { (before after : Option (List ℕ)) (h : Handed)
            → HasRead before after h self.old → AdvancesTo before after h self.new result }
        ensures steps { (left : Option (List ℕ)) → StepsAs self.old self.new left result }
        ensures less { result ≡ Some Paused.Batch → left_to_read self.new < left_to_read self.old }
        ensures room { self.new.room ≡ self.old.room }
        ensures no_fault { result ≢ Some Paused.Failed }
    {
        match self.cut_some() {
            Ok(()) => {}
            Err(_) => return Some(Paused::NoMemory),
        }
        if let Some(stop) = self.cutter.stop() {
            return Some(Paused::Stopped(stop));
        }
        if self.cutter.has_batch() {
            return Some(Paused::Batch);
        }
        None
    }

    // Cuts some of what is left of the piece.
    fn cut_some(&mut self) -> Result<(), AllocError>
        requires ready { CanReadOn self.old }
        requires some { 0 < length self.old.pending }
        ensures reads { OnOk result ((before after : Option (List ℕ)) (h : Handed)
            → HasRead before after h self.old → HasCut before after h self.new) }
        ensures on { OnOk result (CutsOn self.old.cut self.new.cut) }
        ensures ahead { OnOk result (length self.new.pending < self.new.room) }
        ensures room { self.new.room ≡ self.old.room }
        ensures unchanged { OnErr result (self.new ≡ self.old) }
    {
        let count = self.cutter.feed(self.pieces.ahead())?;
        self.pieces.pass(count);
        Ok(())
    }

    // Ends the open batch where reading paused otherwise than at the end of a batch.
    fn close_batch(&mut self, paused: Paused) -> Paused
        requires { (left : Option (List ℕ)) × PausesAs self.old left paused }
        ensures closes { ClosesAs self.old.cut self.new.cut paused result }
        ensures pending { self.new.pending ≡ self.old.pending }
        ensures room { self.new.room ≡ self.old.room }
    {
        match paused {
            Paused::Batch | Paused::NoMemory => paused,
            Paused::End => self.finish(true, paused),
            Paused::Failed | Paused::Stopped(_) => self.finish(false, paused),
        }
    }

    // Ends the input, or what was read of it.
    fn finish(&mut self, ended: bool, paused: Paused) -> Paused
        requires { self.old.cut.ends ≡ [] }
        ensures finishes { FinishesAs self.old.cut self.new.cut ended paused result }
        ensures pending { self.new.pending ≡ self.old.pending }
        ensures room { self.new.room ≡ self.old.room }
    {
        match self.cutter.finish(ended) {
            Ok(()) => paused,
            Err(_) => Paused::NoMemory,
        }
    }
}
