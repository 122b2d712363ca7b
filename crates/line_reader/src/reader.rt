//! A reader of lines.
ghost use Rattle.std.specs.Prelude.{◌≡◌, ◌≤◌, ◌<◌, ◌+◌, ◌-◌, ◌++◌, ℕ, List, [], length, take, drop};
ghost use Rattle.std.specs.Prelude.{Option, None, Some, true, false, IfOk, OnOk, OnErr};
ghost use Rattle.wf_outside.specs.Laws.Outside.{HasTaken, IsAtEnd};
ghost use Rattle.line_reader.specs.Reader.{has_end, pending, ReadsTo, CountsAs};
ghost use Rattle.line_reader.specs.Steps.{IsReadingLine, StepsTo, CountsStep, FindsEnd};

use crate::{Pieces, Read};
use basics::List as Bytes;
use memchr::memchr;
use std::alloc::{AllocError, Global};
use std::marker::Model;
use wf_outside::Source;

/// A reader of lines: the line that was read last, and the pieces of the input behind it.
#[derive(Drop)]
pub struct LineReader {
    // The line that was handed over last, or the front of the next one.
    line: Bytes<u8>,
    handed: bool,
    // What is passed is in lines.
    pieces: Pieces,
    limit: usize,
}

impl Model for LineReader {
    ghost use Rattle.std.specs.Prelude.{◌≡◌, ◌≤◌, ◌<◌, false, length};
    ghost use Rattle.line_reader.specs.Reader.{ReaderShape, has_end};

    ghost Value = { ReaderShape };

    ghost view = { λ r. record {
      line = r.line;
      handed = r.handed;
      ahead = r.pieces.ahead;
      limit = r.limit;
      room = r.pieces.room;
    } };

    ghost invariant = { λ r. (0 < r.pieces.room)
        × (r.handed ≡ false → length r.line ≤ r.limit) ×
        (r.handed ≡ false → has_end r.line ≡ false) };
}

impl LineReader {
    /// A reader before the first byte, of lines of at most `limit` bytes without their line ends.
    /// It takes at most `room` bytes at once.
    pub fn new(alloc: Global, room: usize, limit: usize) -> Result<LineReader, AllocError>
        requires { 0 < room }
        ensures { IfOk result (λ r. r ≡ record
            { line = []; handed = false; ahead = []; limit = limit; room = room }) }
    {
        Ok(LineReader {
            line: Bytes::new(alloc),
            handed: false,
            pieces: Pieces::new(alloc, room)?,
            limit,
        })
    }

    /// The line that was read last.
    pub fn line(&self) -> &[u8]
        ensures { result.now ≡ self.now.line }
    {
        self.line.as_slice()
    }

    /// Reads the next line. After `Failed` and `NoMemory` what was taken of it is kept.
    pub fn next<S: Source>(&mut self, source: &mut S) -> Read
        ensures reads { ReadsTo (S.left source.old) (S.left source.new) self.old self.new result }
        ensures limit { self.new.limit ≡ self.old.limit }
        ensures room { self.new.room ≡ self.old.room }
        ensures counts { CountsAs result (S.faults source.old) (S.faults source.new) }
    {
        self.begin();
        'reading: loop {
            match self.advance(source) {
                None => {}
                Some(read) => return read,
            }
        }
    }

    // Begins the next line, where one was handed over.
    fn begin(&mut self)
        ensures pending { pending self.new ≡ pending self.old }
        ensures begun { IsReadingLine self.new }
        ensures limit { self.new.limit ≡ self.old.limit }
        ensures room { self.new.room ≡ self.old.room }
    {
        if self.handed {
            self.line.truncate(0);
            self.handed = false;
        }
    }

    // Reads on in the piece, or takes the next one where all of it is in lines.
    fn advance<S: Source>(&mut self, source: &mut S) -> Option<Read>
        requires { IsReadingLine self.old }
        ensures steps { StepsTo (S.left source.old) (S.left source.new) self.old self.new result }
        ensures limit { self.new.limit ≡ self.old.limit }
        ensures room { self.new.room ≡ self.old.room }
        ensures counts { CountsStep result (S.faults source.old) (S.faults source.new) }
    {
        if !self.ahead().is_empty() {
            return self.read_on();
        }
        match self.pieces.fill(source) {
            Ok(true) => None,
            Ok(false) => Some(self.finish()),
            Err(_) => Some(Read::Failed),
        }
    }

    // Reads on in the piece.
    fn read_on(&mut self) -> Option<Read>
        requires begun { IsReadingLine self.old }
        requires some { 0 < length self.old.ahead }
        ensures steps { (left : Option (List ℕ)) → StepsTo left left self.old self.new result }
        ensures limit { self.new.limit ≡ self.old.limit }
        ensures room { self.new.room ≡ self.old.room }
        ensures counts { (count : ℕ) → CountsStep result count count }
    {
        let count = self.ahead().len();
        let free = self.free();
        match self.find_end() {
            Some(n) if n <= free => match self.read_line(n + 1) {
                Ok(()) => Some(Read::Line),
                Err(_) => Some(Read::NoMemory),
            },
            None if count <= free => match self.read_all() {
                Ok(()) => None,
                Err(_) => Some(Read::NoMemory),
            },
            _ => Some(Read::TooLong),
        }
    }

    // What was taken and is not in lines.
    fn ahead(&self) -> &[u8]
        ensures ahead { result.now ≡ self.now.ahead }
        ensures within { length self.now.ahead ≤ self.now.room }
    {
        self.pieces.ahead()
    }

    // How many bytes the line may still have.
    fn free(&self) -> usize
        requires { IsReadingLine self.now }
        ensures { result ≡ self.now.limit - length self.now.line }
    {
        self.limit - self.line.len()
    }

    // The place of the first LF in what was taken.
    fn find_end(&self) -> Option<usize>
        ensures { FindsEnd self.now.ahead result }
    {
        memchr(b'\n', self.ahead())
    }

    // Takes the rest of the line from the piece, and hands the line over.
    fn read_line(&mut self, count: usize) -> Result<(), AllocError>
        requires kept { self.old.handed ≡ false }
        requires within { count ≤ length self.old.ahead }
        ensures read { OnOk result (self.new
            ≡ record self.old {
              line = self.old.line ++ take count self.old.ahead;
              handed = true;
              ahead = drop count self.old.ahead;
            }) }
        ensures unchanged { OnErr result (self.new ≡ self.old) }
    {
        self.line.push_all(&self.pieces.ahead()[..count])?;
        self.pieces.pass(count);
        self.handed = true;
        Ok(())
    }

    // Takes all of the piece into the line, which does not end in it.
    fn read_all(&mut self) -> Result<(), AllocError>
        requires kept { self.old.handed ≡ false }
        requires going { has_end (self.old.line ++ self.old.ahead) ≡ false }
        requires fits { length self.old.line + length self.old.ahead ≤ self.old.limit }
        ensures read { OnOk result (self.new
            ≡ record self.old { line = self.old.line ++ self.old.ahead; ahead = [] }) }
        ensures unchanged { OnErr result (self.new ≡ self.old) }
    {
        let ahead = self.pieces.ahead();
        let count = ahead.len();
        self.line.push_all(ahead)?;
        self.pieces.pass(count);
        Ok(())
    }

    // Hands over the last line of the input, if there is one.
    fn finish(&mut self) -> Read
        requires begun { IsReadingLine self.old }
        requires none { self.old.ahead ≡ [] }
        ensures reads { (before after : Option (List ℕ)) → HasTaken before after [] → IsAtEnd after
            → ReadsTo before after self.old self.new result }
        ensures no_fault { (count : ℕ) → CountsAs result count count }
        ensures limit { self.new.limit ≡ self.old.limit }
        ensures room { self.new.room ≡ self.old.room }
    {
        if self.line.len() == 0 {
            return Read::End;
        }
        self.handed = true;
        Read::Line
    }
}
