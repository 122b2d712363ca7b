//! Sets of users, kept as one bit for each user up to the limit.
ghost use Rattle.std.specs.Prelude.{◌≡◌, ℕ, length, replicate, ◌<◌, ◌≤◌, ◌==◌, ◌&&◌, ◌||◌, not};
ghost use Rattle.std.specs.Prelude.{true, false, nat_lt, IsTrue, MatchOption};
ghost use Rattle.wf_names.specs.declared.limits.TheConstants.{USER_LIMIT};
ghost use Rattle.wf_names.specs.declared.user_set.TheConstants.{USER_WORDS};
ghost use Rattle.wf_names.specs.UserSets.{count_below, has_bit, has_user, IsBitFrom, IsNextIn};

use crate::words::{count_words, join_words, meet_words, strike_words};
use crate::{USER_LIMIT, UserId};
use std::marker::Model;

/// The words of a set.
const USER_WORDS: usize = USER_LIMIT as usize / 64;

/// A set of users. Contracts see its words, and whether a user is in them.
#[derive(Clone, Copy)]
pub struct UserSet {
    words: [u64; USER_WORDS],
}

impl Model for UserSet {
    ghost use Rattle.std.specs.Prelude.{ℕ, List};

    ghost Value = { List ℕ };

    ghost view = { λ s. s.words };

    ghost inverse = { λ words. record { words = words } };
}

impl UserSet {
    /// The set of no user.
    pub fn empty() -> UserSet
        ensures none { (v : ℕ) → has_user result v ≡ false }
    {
        UserSet { words: no_words() }
    }

    /// The set of all users below a number.
    pub fn up_to(users: u16) -> UserSet
        requires { users ≤ USER_LIMIT }
        ensures { (v : ℕ) → has_user result v ≡ nat_lt v users }
    {
        let mut words = no_words();
        let whole = users as usize / 64;
        'words: for i in 0..whole {
            words[i] = u64::MAX;
        }
        if whole < USER_WORDS {
            words[whole] = low_bits(users % 64);
        }
        UserSet { words }
    }

    /// Puts a user in.
    pub fn insert(&mut self, u: UserId)
        requires { u < USER_LIMIT }
        ensures { (v : ℕ) → has_user self.new v ≡ (v == u || has_user self.old v) }
    {
        self.words[u.0 as usize / 64] |= 1 << (u.0 % 64);
    }

    /// Takes a user out.
    pub fn remove(&mut self, u: UserId)
        requires { u < USER_LIMIT }
        ensures { (v : ℕ) → has_user self.new v ≡ (not (v == u) && has_user self.old v) }
    {
        self.words[u.0 as usize / 64] &= !(1 << (u.0 % 64));
    }

    /// Whether a user is in the set; none from the limit on is.
    pub fn has(&self, u: UserId) -> bool
        ensures member { result ≡ has_user self.now u }
        ensures within { IsTrue result → u < USER_LIMIT }
    {
        match self.words.get(u.0 as usize / 64) {
            Some(word) => word >> (u.0 % 64) & 1 == 1,
            None => false,
        }
    }

    /// Keeps those who are in another set too.
    #[tactic(auto, using(crate::proofs::UserBits::met_users))]
    pub fn meet(&mut self, by: &UserSet)
        ensures { (v : ℕ) → has_user self.new v ≡ (has_user self.old v && has_user by.now v) }
    {
        meet_words(&mut self.words, &by.words);
    }

    /// Takes those out who are in another set.
    #[tactic(auto, using(crate::proofs::UserBits::struck_users))]
    pub fn strike(&mut self, by: &UserSet)
        ensures { (v : ℕ) → has_user self.new v ≡ (has_user self.old v && not (has_user by.now v)) }
    {
        strike_words(&mut self.words, &by.words);
    }

    /// Puts those in who are in another set.
    #[tactic(auto, using(crate::proofs::UserBits::joined_users))]
    pub fn join(&mut self, by: &UserSet)
        ensures { (v : ℕ) → has_user self.new v ≡ (has_user self.old v || has_user by.now v) }
    {
        join_words(&mut self.words, &by.words);
    }

    /// The words of the set: the user u is the bit u % 64 of the word u / 64.
    pub fn as_words(&self) -> &[u64]
        ensures { result.now ≡ self.now }
    {
        &self.words
    }

    /// How many users are in the set.
    pub fn count(&self) -> u32
        ensures { result ≡ count_below USER_LIMIT (has_user self.now) }
    {
        count_users(&self.words)
    }

    /// The least user of the set whose number is not below `from`.
    pub fn next(&self, from: u32) -> Option<UserId>
        ensures { MatchOption result ((v : ℕ) → from ≤ v → has_user self.now v ≡ false)
            (IsNextIn self.now from) }
    {
        next_in(&self.words, from as usize)
    }
}

// Words without a bit.
fn no_words() -> [u64; USER_WORDS]
    ensures { result ≡ replicate USER_WORDS 0 }
{
    [0; USER_WORDS]
}

// The word whose lowest `count` bits are set.
fn low_bits(count: u16) -> u64
    requires { count < 64 }
    ensures { (k : ℕ) → has_bit result k ≡ nat_lt k count }
{
    (1 << count) - 1
}

fn count_users(words: &[u64]) -> u32
    requires { length words.now ≡ USER_WORDS }
    ensures { result ≡ count_below USER_LIMIT (has_user words.now) }
{
    count_words(words) as u32
}

// The least user in words whose number is not below `from`.
fn next_in(words: &[u64], from: usize) -> Option<UserId>
    requires { length words.now ≡ USER_WORDS }
    ensures { MatchOption result ((v : ℕ) → from ≤ v → has_user words.now v ≡ false)
        (IsNextIn words.now from) }
{
    let first = from / 64;
    if first >= words.len() {
        return None;
    }
    if let Some(bit) = bit_from(words[first], (from % 64) as u32) {
        return Some(UserId(first as u16 * 64 + bit));
    }
    'words: for i in first + 1..words.len() {
        if let Some(bit) = bit_from(words[i], 0) {
            return Some(UserId(i as u16 * 64 + bit));
        }
    }
    None
}

// The least bit of a word that is set and not below `from`.
fn bit_from(word: u64, from: u32) -> Option<u16>
    requires { from < 64 }
    ensures { MatchOption result ((i : ℕ) → from ≤ i → has_bit word i ≡ false)
        (IsBitFrom word from) }
{
    let rest = word >> from;
    if rest == 0 {
        None
    } else {
        Some((from + rest.trailing_zeros()) as u16)
    }
}
