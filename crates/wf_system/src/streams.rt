//! Standard input and output, and files, as sources and sinks. They tell no content, since what
//! the system gives and takes cannot be known; what a reader or a writer tells is kept.
ghost use Rattle.std.specs.Prelude.{◌≡◌, ◌≤◌, ◌<◌, false, length, take, None, IfOk, OnOk, OnErr};
ghost use Rattle.std.specs.Io.KnownBytes.{Keeps, ReadConsumes, WriteAppends};
ghost use Rattle.wf_outside.specs.Laws.Outside.{HasTaken, Rose, with_bytes};
ghost use Rattle.wf_system.specs.Streams.{reader_left, writer_held};

use std::io::{Read, Write};
use wf_outside::{Failed, Sink, Source};

/// A reader as a source: standard input, or an opened file.
#[derive(Drop)]
pub struct StdinSource<R: Read + Drop> {
    reader: R,
    faults: u64,
}

impl<R: Read + Drop> StdinSource<R> {
    /// A source of what the reader gives, with no fault so far.
    pub fn new(reader: R) -> Self
        ensures left { reader_left R.remaining result ≡ R.remaining reader }
        ensures none { result.faults ≡ 0 }
    {
        StdinSource { reader, faults: 0 }
    }
}

impl<R: Read + Drop> Source for StdinSource<R> {
    ghost left = { λ _. None };

    ghost faults = { λ s. s.faults };

    #[tactic(auto, unfolding(wf_outside::specs::Laws::Outside::bytes_before))]
    fn take(&mut self, buf: &mut [u8]) -> Result<usize, Failed>
        // The bytes are those that the reader gave; none only at its end, and a fault loses none.
        ensures gives { ReadConsumes (reader_left R.remaining self.old)
            (reader_left R.remaining self.new) result buf.new }

        // The clauses of every source.
        ensures within { IfOk result (λ n. n ≤ length buf.old) }
        ensures taken { IfOk result (λ n. HasTaken None None (take n buf.new)) }
        ensures faults { self.old.faults ≤ self.new.faults }
        ensures rose { OnErr result (Rose self.old.faults self.new.faults) }
        ensures stays { OnOk result (self.new.faults ≡ self.old.faults) }
    {
        match self.reader.read(buf) {
            Ok(count) => Ok(count),
            Err(_) => {
                self.faults = self.faults.saturating_add(1);
                Err(Failed)
            }
        }
    }
}

/// A writer as a sink: standard output. What the writer keeps back it writes when it is flushed.
#[derive(Drop)]
pub struct StdoutSink<W: Write + Drop> {
    writer: W,
    kept: bool,
    faults: u64,
}

impl<W: Write + Drop> StdoutSink<W> {
    /// A sink into the writer, with no fault so far.
    pub fn new(writer: W) -> Self
        ensures held { writer_held W.contents result ≡ W.contents writer }
        ensures none { result.faults ≡ 0 }
        ensures flushed { result.kept ≡ false }
    {
        StdoutSink {
            writer,
            kept: false,
            faults: 0,
        }
    }
}

impl<W: Write + Drop> Sink for StdoutSink<W> {
    ghost held = { λ _. None };

    ghost faults = { λ s. s.faults };

    ghost is_flushed = { λ s. s.kept ≡ false };

    #[tactic(auto, unfolding(wf_outside::specs::Laws::Outside::with_bytes))]
    fn put(&mut self, bytes: &[u8]) -> Result<usize, Failed>
        // The bytes that count as taken are those that the writer took; after a fault there are
        // none.
        ensures takes { WriteAppends (writer_held W.contents self.old)
            (writer_held W.contents self.new) result bytes.now }

        // The clauses of every sink.
        ensures within { IfOk result (λ n. n ≤ length bytes.now) }
        ensures some { IfOk result (λ n. 0 < length bytes.now → 0 < n) }
        ensures taken { IfOk result (λ n. None ≡ with_bytes None (take n bytes.now)) }
        ensures faults { self.old.faults ≤ self.new.faults }
        ensures rose { OnErr result (Rose self.old.faults self.new.faults) }
        ensures stays { OnOk result (self.new.faults ≡ self.old.faults) }
    {
        self.kept = true;
        match self.writer.write(bytes) {
            Ok(count) if count > 0 || bytes.is_empty() => Ok(count),
            _ => {
                self.faults = self.faults.saturating_add(1);
                Err(Failed)
            }
        }
    }

    fn flush(&mut self) -> Result<(), Failed>
        // The writer holds what it held.
        ensures keeps { Keeps (writer_held W.contents self.old)
            (writer_held W.contents self.new) }

        // The clauses of every sink.
        ensures flushed { OnOk result (self.new.kept ≡ false) }
        ensures faults { self.old.faults ≤ self.new.faults }
        ensures rose { OnErr result (Rose self.old.faults self.new.faults) }
        ensures stays { OnOk result (self.new.faults ≡ self.old.faults) }
    {
        match self.writer.flush() {
            Ok(()) => {
                self.kept = false;
                Ok(())
            }
            Err(_) => {
                self.faults = self.faults.saturating_add(1);
                Err(Failed)
            }
        }
    }
}
