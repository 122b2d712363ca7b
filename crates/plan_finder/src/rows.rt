//! Sets of users as rows of bits.

ghost use Rattle.std.specs.Prelude.{◌≤◌};

use std::alloc::{AllocError, Global};

/// Rows of one width, one behind the other.
#[derive(Drop)]
pub(crate) struct Rows {
    words: Vec<u64>,
    width: usize,
}

impl Rows {
    /// A number of empty rows, each of `width` words.
    pub(crate) fn new(alloc: Global, count: usize, width: usize) -> Result<Rows, AllocError> {
        Ok(Rows {
            words: vec![in alloc; 0u64; count.saturating_mul(width)]?,
            width,
        })
    }

    /// A row; an empty one where there is none.
    pub(crate) fn row(&self, at: usize) -> &[u64] {
        let from = at.wrapping_mul(self.width);
        let to = from.wrapping_add(self.width);
        match self.words.get(from..to) {
            Some(row) => row,
            None => &[],
        }
    }

    /// A row to be changed; an empty one where there is none.
    pub(crate) fn row_mut(&mut self, at: usize) -> &mut [u64] {
        let from = at.wrapping_mul(self.width);
        let to = from.wrapping_add(self.width);
        if from <= to && to <= self.words.len() {
            &mut self.words[from..to]
        } else {
            &mut []
        }
    }

    /// Puts a row at a place, which comes to be behind the others where it is not there yet.
    pub(crate) fn put_at(&mut self, at: usize, row: &[u64]) -> Result<(), AllocError> {
        if self.row(at).len() > 0 {
            put(self.row_mut(at), row);
        } else if let Some(words) = row.get(0..self.width) {
            self.words.extend_from_slice(words)?;
        }
        Ok(())
    }

    /// Puts an empty row at a place, as `put_at` does.
    pub(crate) fn clear_at(&mut self, at: usize) -> Result<(), AllocError> {
        if self.row(at).len() > 0 {
            clear(self.row_mut(at));
            return Ok(());
        }
        for _ in 0..self.width {
            self.words.push(0)?;
        }
        Ok(())
    }

    /// Makes room for `count` rows more.
    pub(crate) fn reserve(&mut self, count: usize) -> Result<(), AllocError> {
        self.words.reserve(count.saturating_mul(self.width))
    }

    /// The first `count` rows, one behind the other; none where there are fewer.
    pub(crate) fn front(&self, count: usize) -> &[u64] {
        match self.words.get(0..count.saturating_mul(self.width)) {
            Some(rows) => rows,
            None => &[],
        }
    }

    /// The first `count` rows to be changed, one behind the other; none where there are fewer.
    pub(crate) fn front_mut(&mut self, count: usize) -> &mut [u64] {
        let to = count.saturating_mul(self.width);
        if to <= self.words.len() {
            &mut self.words[0..to]
        } else {
            &mut []
        }
    }
}

/// Takes all users out.
pub(crate) fn clear(row: &mut [u64]) {
    for word in row.iter_mut() {
        *word = 0;
    }
}

/// Makes a row the same as another.
pub(crate) fn put(row: &mut [u64], other: &[u64]) {
    for at in 0..row.len().min(other.len()) {
        row[at] = other[at];
    }
}

/// Makes many words the same as others, where there are as many.
pub(crate) fn put_all(words: &mut [u64], others: &[u64]) {
    if words.len() == others.len() {
        words.copy_from_slice(others);
    }
}

/// Makes a row those of another one who are not in it.
pub(crate) fn turn(row: &mut [u64], everyone: &[u64]) {
    for at in 0..row.len().min(everyone.len()) {
        row[at] = everyone[at] & !row[at];
    }
}

/// Puts the first `users` users in.
pub(crate) fn add_first(row: &mut [u64], users: u16) {
    let mut left = users;
    for word in row.iter_mut() {
        if left >= 64 {
            *word = u64::MAX;
        } else {
            *word |= (1u64 << (left & 63)).wrapping_sub(1);
        }
        left = left.saturating_sub(64);
    }
}

/// Keeps the users of another row alone, and tells whether somebody went.
pub(crate) fn meet(row: &mut [u64], other: &[u64]) -> bool {
    let mut changed = false;
    for at in 0..row.len().min(other.len()) {
        let left = row[at] & other[at];
        if left != row[at] {
            changed = true;
            row[at] = left;
        }
    }
    changed
}

/// What became of a row.
#[derive(Clone, Copy)]
pub(crate) struct Kept {
    /// Somebody went.
    pub(crate) changed: bool,
    /// Nobody is left.
    pub(crate) none: bool,
}

/// Keeps the users of another row alone.
pub(crate) fn keep(row: &mut [u64], other: &[u64]) -> Kept {
    let mut gone = 0u64;
    let mut stay = 0u64;
    for at in 0..row.len().min(other.len()) {
        let left = row[at] & other[at];
        gone |= left ^ row[at];
        stay |= left;
        row[at] = left;
    }
    Kept {
        changed: gone != 0,
        none: stay == 0,
    }
}

/// Puts the users of another row in, and tells whether somebody of a third one is still not in.
pub(crate) fn join_wants(row: &mut [u64], other: &[u64], wanted: &[u64]) -> bool {
    let mut wants = 0u64;
    for at in 0..row.len().min(other.len()).min(wanted.len()) {
        row[at] |= other[at];
        wants |= wanted[at] & !row[at];
    }
    wants != 0
}

/// Puts the users of another row in.
pub(crate) fn join(row: &mut [u64], other: &[u64]) {
    for at in 0..row.len().min(other.len()) {
        row[at] |= other[at];
    }
}

/// Takes the users of another row out.
pub(crate) fn strike(row: &mut [u64], other: &[u64]) {
    for at in 0..row.len().min(other.len()) {
        row[at] &= !other[at];
    }
}

/// Whether two rows have a user in common.
pub(crate) fn meets(row: &[u64], other: &[u64]) -> bool {
    for at in 0..row.len().min(other.len()) {
        if row[at] & other[at] != 0 {
            return true;
        }
    }
    false
}

/// Whether a row has a user who is not in another.
pub(crate) fn exceeds(row: &[u64], other: &[u64]) -> bool {
    for at in 0..row.len().min(other.len()) {
        if row[at] & !other[at] != 0 {
            return true;
        }
    }
    false
}

/// Whether a row has nobody.
pub(crate) fn is_empty(row: &[u64]) -> bool {
    for word in row.iter() {
        if *word != 0 {
            return false;
        }
    }
    true
}

/// How many users a row has.
pub(crate) fn count(row: &[u64]) -> u32 {
    let mut users = 0u32;
    for word in row.iter() {
        users = users.saturating_add(word.count_ones());
    }
    users
}

/// Whether a row has `least` users at least.
pub(crate) fn has_many(row: &[u64], least: u32) -> bool {
    let mut users = 0u32;
    for word in row.iter() {
        if users >= least {
            return true;
        }
        users = users.saturating_add(word.count_ones());
    }
    users >= least
}

/// How many users two rows have in common.
pub(crate) fn count_common(row: &[u64], other: &[u64]) -> u32 {
    let mut users = 0u32;
    for at in 0..row.len().min(other.len()) {
        users = users.saturating_add((row[at] & other[at]).count_ones());
    }
    users
}

/// Whether a row has a user.
pub(crate) fn has_user(row: &[u64], user: u16) -> bool {
    match row.get((user >> 6) as usize) {
        Some(word) => *word & (1u64 << (user & 63)) != 0,
        None => false,
    }
}

/// Puts a user in.
pub(crate) fn add_user(row: &mut [u64], user: u16) {
    let at = (user >> 6) as usize;
    if at < row.len() {
        row[at] |= 1u64 << (user & 63);
    }
}

/// Takes a user out.
pub(crate) fn take_user(row: &mut [u64], user: u16) {
    let at = (user >> 6) as usize;
    if at < row.len() {
        row[at] &= !(1u64 << (user & 63));
    }
}

/// The user at a place among those of a row, in ascending order.
pub(crate) fn nth_user(row: &[u64], place: u32) -> Option<u16> {
    let mut skip = place;
    for (at, word) in row.iter().enumerate() {
        let ones = word.count_ones();
        if skip < ones {
            return Some(user_at(at, nth_one(*word, skip)));
        }
        skip = skip.saturating_sub(ones);
    }
    None
}

/// A user who is in just one of two rows, other than these two.
pub(crate) fn first_apart(row: &[u64], other: &[u64], u: u16, v: u16) -> Option<u16> {
    for at in 0..row.len().min(other.len()) {
        let left = (row[at] ^ other[at]) & !word_of(at, u) & !word_of(at, v);
        if left != 0 {
            return Some(user_at(at, left.trailing_zeros()));
        }
    }
    None
}

/// Writes a number to the place of each user who is in the first row and not in the second.
pub(crate) fn number_struck(before: &[u64], after: &[u64], numbers: &mut [u8], number: u8) {
    for at in 0..before.len().min(after.len()) {
        let mut struck = before[at] & !after[at];
        for _ in 0..64u8 {
            if struck == 0 {
                break;
            }
            let user = user_at(at, struck.trailing_zeros()) as usize;
            struck &= struck.wrapping_sub(1);
            if user < numbers.len() {
                numbers[user] = number;
            }
        }
    }
}

// The word at a place of the row of one user.
fn word_of(at: usize, user: u16) -> u64 {
    if at == (user >> 6) as usize {
        1u64 << (user & 63)
    } else {
        0
    }
}

/// Whether a row has just one user.
pub(crate) fn has_one(row: &[u64]) -> bool {
    let mut found = false;
    for word in row.iter() {
        if *word != 0 {
            if found || *word & word.wrapping_sub(1) != 0 {
                return false;
            }
            found = true;
        }
    }
    found
}

/// The one user of a row, if there is just one.
pub(crate) fn only_user(row: &[u64]) -> Option<u16> {
    if has_one(row) { nth_user(row, 0) } else { None }
}

/// The word at a place of a row; 0 where there is none.
pub(crate) fn word_at(row: &[u64], at: usize) -> u64 {
    match row.get(at) {
        Some(word) => *word,
        None => 0,
    }
}

/// The number of the user whom a bit of a word stands for.
pub(crate) fn user_at(at: usize, place: u32) -> u16 {
    (at.wrapping_mul(64).wrapping_add((place & 63) as usize) & 0xffff) as u16
}

// The place of the one of a word that comes behind `skip` others.
fn nth_one(word: u64, skip: u32) -> u32 {
    let mut left = word;
    for _ in 0..skip {
        left &= left.wrapping_sub(1);
    }
    left.trailing_zeros()
}
