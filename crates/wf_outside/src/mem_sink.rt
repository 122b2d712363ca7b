ghost use Rattle.std.specs.Prelude.{◌≡◌, ◌≤◌, ◌<◌, ◌++◌, ◌↔◌, ℕ, List, [], length, take, Some};
ghost use Rattle.std.specs.Prelude.{IsTrue, IsErr, IsOk, IfOk, OnErr};
ghost use Rattle.wf_outside.specs.Laws.Memory.{after_call, after_fault, piece_len, is_refusing};
ghost use Rattle.wf_outside.specs.Laws.Outside.{with_bytes};

use crate::counts::Counts;
use crate::{Failed, Sink};
use std::alloc::{AllocError, Global};
use std::marker::Model;

/// A sink in memory with room for `room` bytes, of which one call takes at most `most`, and chosen
/// calls fail.
#[derive(Drop)]
pub struct MemSink {
    bytes: Vec<u8>,
    room: usize,
    most: usize,
    counts: Counts,
}

impl Model for MemSink {
    ghost use Rattle.std.specs.Prelude.{◌≤◌, length, vec_capacity};
    ghost use Rattle.wf_outside.specs.Laws.Memory.{MemSinkShape};

    ghost Value = { MemSinkShape };

    ghost view = { λ s.
        record { bytes = s.bytes.items; room = s.room; most = s.most; counts = s.counts } };

    ghost invariant = { λ s. (length s.bytes.items ≤ s.room) × (s.room ≤ vec_capacity s.bytes) };
}

impl MemSink {
    /// It holds nothing yet. The calls with the numbers in `failing`, from 0, fail; so does each
    /// call that can take none of the bytes it is given, as every one does where `most` is 0.
    pub fn new(
        alloc: Global,
        room: usize,
        most: usize,
        failing: Vec<u64>,
    ) -> Result<Self, AllocError>
        ensures { IfOk result (λ sink. sink
            ≡ record {
              bytes = [];
              room = room;
              most = most;
              counts = record
                  { failing = failing.items; calls = 0; faults = 0 };
            }) }
    {
        let mut bytes = Vec::new(alloc);
        bytes.reserve(room)?;
        Ok(MemSink {
            bytes,
            room,
            most,
            counts: Counts::new(failing),
        })
    }

    /// The bytes that were put.
    pub fn bytes(&self) -> &[u8]
        ensures { result.now ≡ self.now.bytes }
    {
        &self.bytes
    }

    /// How many calls have failed.
    pub fn faults(&self) -> u64
        ensures { result ≡ self.now.counts.faults }
    {
        self.counts.faults()
    }
}

impl Sink for MemSink {
    ghost held = { λ s. Some s.bytes };

    ghost faults = { λ s. s.counts.faults };

    ghost is_flushed = { λ _. Unit {0} };

    #[tactic(auto, unfolding(crate::specs::Laws::Outside::with_bytes))]
    fn put(&mut self, bytes: &[u8]) -> Result<usize, Failed>
        // The call fails exactly where its number says so or none can be taken, and then nothing
        // else happens.
        ensures fails { IsErr result ↔ IsTrue (is_refusing self.old (length bytes.now)) }
        ensures failed { OnErr result (self.new
            ≡ record self.old { counts = after_fault self.old.counts }) }

        // Else as many bytes as may be taken are put behind those that are there.
        ensures count { IfOk result (λ n. n ≡ piece_len self.old (length bytes.now)) }
        ensures after { IfOk result (λ n. self.new
            ≡ record self.old {
              bytes = self.old.bytes ++ take n bytes.now;
              counts = after_call
                  self.old.counts;
            }) }

        // The clauses of every sink.
        ensures within { IfOk result (λ n. n ≤ length bytes.now) }
        ensures some { IfOk result (λ n. 0 < length bytes.now → 0 < n) }
        ensures taken { IfOk result (λ n. Some self.new.bytes
            ≡ with_bytes (Some self.old.bytes) (take n bytes.now)) }
    {
        let count = self.most.min(bytes.len().min(self.room - self.bytes.len()));
        if self.counts.is_failing() || (0 < bytes.len() && count == 0) {
            self.counts.fail();
            return Err(Failed);
        }
        self.counts.pass();
        self.bytes.extend_from_slice(&bytes[..count]).unwrap();
        Ok(count)
    }

    // It keeps nothing back, so this is none of the calls that are counted.
    fn flush(&mut self) -> Result<(), Failed>
        ensures never { IsOk result }
        ensures same { self.new ≡ self.old }
    {
        Ok(())
    }
}
