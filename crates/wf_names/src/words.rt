//! Kernels over words of bits, several words at a time.
ghost use Rattle.std.specs.Prelude.{◌≡◌, ℕ, ◌+◌, ◌≤◌, ◌<◌, length, bit_and, bit_or, count_ones};
ghost use Rattle.std.specs.List.{sum_by};
ghost use Rattle.std.specs.Simd.Lanes.{chunk, zip2};
ghost use Rattle.wf_names.specs.Words.{minus, IsMixedFrom};

use std::simd::prelude::*;

/// The words of one vector.
const LANES: usize = 8;

/// Keeps in each word the bits that are also in the word of `by` at its place.
#[tactic(auto, using(crate::proofs::Mixing::mixing))]
pub fn meet_words(into: &mut [u64], by: &[u64])
    requires { length into.old ≡ length by.now }
    ensures { into.new ≡ zip2 bit_and into.old by.now }
{
    let whole = into.len() / LANES * LANES;
    'lanes: for lane in 0..into.len() / LANES {
        meet_lanes(into, by, lane * LANES);
    }
    'rest: for i in whole..into.len() {
        into[i] &= by[i];
    }
}

// The same for one vector of words.
fn meet_lanes(into: &mut [u64], by: &[u64], at: usize)
    requires lengths { length into.old ≡ length by.now }
    requires room { at + 8 ≤ length by.now }
    ensures { IsMixedFrom bit_and at into.old by.now into.new }
{
    let own = u64x8::from_slice(&into[at..]);
    let other = u64x8::from_slice(&by[at..]);
    (own & other).copy_to_slice(&mut into[at..]);
}

/// Keeps in each word the bits that are not in the word of `by` at its place.
#[tactic(auto, using(crate::proofs::Mixing::mixing))]
pub fn strike_words(into: &mut [u64], by: &[u64])
    requires { length into.old ≡ length by.now }
    ensures { into.new ≡ zip2 minus into.old by.now }
{
    let whole = into.len() / LANES * LANES;
    'lanes: for lane in 0..into.len() / LANES {
        strike_lanes(into, by, lane * LANES);
    }
    'rest: for i in whole..into.len() {
        into[i] ^= into[i] & by[i];
    }
}

fn strike_lanes(into: &mut [u64], by: &[u64], at: usize)
    requires lengths { length into.old ≡ length by.now }
    requires room { at + 8 ≤ length by.now }
    ensures { IsMixedFrom minus at into.old by.now into.new }
{
    let own = u64x8::from_slice(&into[at..]);
    let other = u64x8::from_slice(&by[at..]);
    (own ^ (own & other)).copy_to_slice(&mut into[at..]);
}

/// Puts into each word the bits of the word of `by` at its place.
#[tactic(auto, using(crate::proofs::Mixing::mixing))]
pub fn join_words(into: &mut [u64], by: &[u64])
    requires { length into.old ≡ length by.now }
    ensures { into.new ≡ zip2 bit_or into.old by.now }
{
    let whole = into.len() / LANES * LANES;
    'lanes: for lane in 0..into.len() / LANES {
        join_lanes(into, by, lane * LANES);
    }
    'rest: for i in whole..into.len() {
        into[i] |= by[i];
    }
}

fn join_lanes(into: &mut [u64], by: &[u64], at: usize)
    requires lengths { length into.old ≡ length by.now }
    requires room { at + 8 ≤ length by.now }
    ensures { IsMixedFrom bit_or at into.old by.now into.new }
{
    let own = u64x8::from_slice(&into[at..]);
    let other = u64x8::from_slice(&by[at..]);
    (own | other).copy_to_slice(&mut into[at..]);
}

/// How many bits are set.
pub fn count_words(words: &[u64]) -> u64
    requires { length words.now ≤ 4294967296 }
    ensures { result ≡ sum_by count_ones words.now }
{
    let whole = words.len() / LANES * LANES;
    let mut count: u64 = 0;
    'lanes: for lane in 0..words.len() / LANES {
        count += count_lanes(words, lane * LANES);
    }
    'rest: for i in whole..words.len() {
        count += words[i].count_ones() as u64;
    }
    count
}

// The same for one vector of words.
fn count_lanes(words: &[u64], at: usize) -> u64
    requires room { at + 8 ≤ length words.now }
    ensures { result ≡ sum_by count_ones (chunk at 8 words.now) }
{
    u64x8::from_slice(&words[at..]).count_ones().reduce_sum()
}
