ghost use Rattle.std.specs.Prelude.{◌≡◌, ◌≤◌, ◌<◌, ◌++◌, ◌↔◌, ℕ, List, length, take, drop, min};
ghost use Rattle.std.specs.Prelude.{Some, IsTrue, IsErr, IfOk, OnErr};
ghost use Rattle.wf_outside.specs.Laws.Memory.{is_failing, after_call, after_fault, GivesFront};
ghost use Rattle.wf_outside.specs.Laws.Outside.{Rose, HasTaken, IsAtEnd};

use crate::counts::Counts;
use crate::{Failed, Source};
use std::marker::Model;

/// A source of bytes in memory, of which one call gives at most a greatest length, and chosen calls
/// fail.
#[derive(Drop)]
pub struct MemSource {
    bytes: Vec<u8>,
    at: usize,
    most: usize,
    counts: Counts,
}

impl Model for MemSource {
    ghost use Rattle.std.specs.Prelude.{◌≤◌, ◌<◌, length, drop};
    ghost use Rattle.wf_outside.specs.Laws.Memory.{MemSourceShape};

    ghost Value = { MemSourceShape };

    ghost view = { λ s.
        record { left = drop s.at s.bytes.items; most = s.most; counts = s.counts } };

    ghost invariant = { λ s. (s.at ≤ length s.bytes.items) × (0 < s.most) };
}

impl MemSource {
    /// All of `bytes` are to come, at most `most` at a time; the calls with the numbers in
    /// `failing`, from 0, fail.
    pub fn new(bytes: Vec<u8>, most: usize, failing: Vec<u64>) -> Self
        requires { 0 < most }
        ensures { result ≡ record {
          left = bytes.items;
          most = most;
          counts = record
              { failing = failing.items; calls = 0; faults = 0 };
        } }
    {
        MemSource {
            bytes,
            at: 0,
            most,
            counts: Counts::new(failing),
        }
    }

    /// The bytes that are still to come.
    pub fn left(&self) -> &[u8]
        ensures { result.now ≡ self.now.left }
    {
        &self.bytes[self.at..]
    }

    /// How many calls have failed.
    pub fn faults(&self) -> u64
        ensures { result ≡ self.now.counts.faults }
    {
        self.counts.faults()
    }
}

// Copies the front of `left` into `buf`, at most `most` bytes; how many they are.
fn copy_front(left: &[u8], buf: &mut [u8], most: usize) -> usize
    ensures count { result ≡ min most (min (length buf.old) (length left.now)) }
    ensures front { buf.new ≡ take result left.now ++ drop result buf.old }
{
    let count = most.min(buf.len().min(left.len()));
    buf[..count].copy_from_slice(&left[..count]);
    count
}

impl Source for MemSource {
    ghost left = { λ s. Some s.left };

    ghost faults = { λ s. s.counts.faults };

    fn take(&mut self, buf: &mut [u8]) -> Result<usize, Failed>
        // The call fails exactly where its number says so, and then nothing else happens.
        ensures fails { IsErr result ↔ IsTrue (is_failing self.old.counts) }
        ensures failed { OnErr result (self.new
            ≡ record self.old { counts = after_fault self.old.counts }) }
        ensures untouched { OnErr result (buf.new ≡ buf.old) }

        // Else as many bytes as may come stand at the front of `buf`.
        ensures gives { IfOk result (GivesFront self.old self.new buf.old buf.new) }

        // The clauses of every source.
        ensures within { IfOk result (λ n. n ≤ length buf.old) }
        ensures taken { IfOk result (λ n. HasTaken (Some self.old.left) (Some self.new.left)
            (take n buf.new)) }
        ensures ended { IfOk result (λ n. n ≡ 0 → 0 < length buf.old
            → IsAtEnd (Some self.new.left)) }
    {
        if self.counts.is_failing() {
            self.counts.fail();
            return Err(Failed);
        }
        self.counts.pass();
        let count = copy_front(&self.bytes[self.at..], buf, self.most);
        self.at += count;
        Ok(count)
    }
}
