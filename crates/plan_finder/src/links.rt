//! What a rule between two steps leaves to their blocks.

use crate::bits::{bit, has_bit};
use crate::matching::users_of;
use crate::problem::{Link, Problem, place_of};
use crate::rows::{Rows, clear, count, join_wants, keep, user_at};
use crate::state::State;
use crate::work::Work;

/// The steps are to have one user. Tells whether they still can.
pub(crate) fn make_same(state: &mut State, x: u8, s: u8) -> bool {
    if x == s {
        return true;
    }
    match (state.is_open(x), state.is_open(s)) {
        (true, true) => true,
        (true, false) => keep_options(state, x, bit(state.home(s))),
        (false, true) => keep_options(state, s, bit(state.home(x))),
        (false, false) => state.home(x) == state.home(s),
    }
}

/// The steps are to have two users. Tells whether they still can.
pub(crate) fn make_other(state: &mut State, x: u8, s: u8) -> bool {
    if x == s {
        return false;
    }
    match (state.is_open(x), state.is_open(s)) {
        (true, true) => true,
        (true, false) => keep_options(state, x, !bit(state.home(s))),
        (false, true) => keep_options(state, s, !bit(state.home(x))),
        (false, false) => state.home(x) != state.home(s),
    }
}

/// Keeps of the options of an open step those in a set, and tells whether one is left.
pub(crate) fn keep_options(state: &mut State, s: u8, set: u32) -> bool {
    let left = state.options.at(s) & set;
    state.options.set(s, left);
    left != 0
}

/// The blocks that are to be looked at.
#[derive(Clone, Copy)]
pub(crate) struct Changed {
    /// Those that changed since they were looked at.
    pub(crate) blocks: u32,
    /// The one that is looked at.
    pub(crate) now: u32,
}

impl Changed {
    // Whether a block may have changed since rules were followed from it.
    fn has(&self, b: u8) -> bool {
        has_bit(self.blocks | self.now, b)
    }
}

/// A state that is brought to what the rules leave.
#[derive(Drop)]
pub(crate) struct Settling<'a> {
    pub(crate) problem: &'a Problem,
    pub(crate) state: &'a mut State,
    pub(crate) work: &'a mut Work,
    pub(crate) changed: Changed,
}

impl Settling<'_> {
    /// The user of the first step is to be related to that of the second. Tells whether that can
    /// still be; blocks that lose users come to be among those that changed.
    pub(crate) fn make_related(&mut self, link: Link<'_>, x: u8, s: u8) -> bool {
        match (self.state.is_open(x), self.state.is_open(s)) {
            (true, true) => true,
            (true, false) => !self.reach(link.turned(), s, x)
                || keep_step(self.state, self.work, x),
            (false, true) => !self.reach(link, x, s) || keep_step(self.state, self.work, s),
            (false, false) if self.state.home(x) == self.state.home(s) => {
                keep_block(self.state, link.own.row(0), x, &mut self.changed)
            }
            (false, false) => self.make_blocks_related(link, x, s),
        }
    }

    // The same for steps of two blocks.
    fn make_blocks_related(&mut self, link: Link<'_>, x: u8, s: u8) -> bool {
        if self.reach(link, x, s) && !keep_reached(self.state, self.work, s, &mut self.changed) {
            return false;
        }
        !self.reach(link.turned(), s, x)
            || keep_reached(self.state, self.work, x, &mut self.changed)
    }

    // Into the spare row go those to whom some user of a step's block is related, of the users of
    // another step at least. Tells whether that was done: where the block did not change, the other
    // step has been left those alone before.
    fn reach(&mut self, link: Link<'_>, x: u8, to: u8) -> bool {
        let home = self.state.home(x);
        if !self.changed.has(home) {
            self.spend_on(home);
            return false;
        }
        clear(self.work.spare.row_mut(0));
        self.add_ahead(link, x, to);
        true
    }

    // The work of a look at the rows of the users of a block.
    fn spend_on(&mut self, b: u8) {
        let users = count(self.state.block(b)) as usize;
        let _ = self.work.spend(users.saturating_mul(self.problem.width));
    }

    /// To the spare row come those to whom some user of a step's block is related, of the users of
    /// another step at least.
    pub(crate) fn add_ahead(&mut self, link: Link<'_>, x: u8, to: u8) {
        let home = self.state.home(x);
        self.spend_on(home);
        unite(
            self.work.spare.row_mut(0),
            self.state.block(home),
            link.ahead,
            link.places,
            users_of(self.state, to),
        );
    }
}

// Puts the rows of the users of a row in, until all who are wanted are in.
fn unite(into: &mut [u64], from: &[u64], rows: &Rows, places: &[u16], wanted: &[u64]) {
    for (at, word) in from.iter().enumerate() {
        let mut left = *word;
        for _ in 0..64u8 {
            if left == 0 {
                break;
            }
            let user = user_at(at, left.trailing_zeros());
            left &= left.wrapping_sub(1);
            if !join_wants(into, rows.row(place_of(places, user)), wanted) {
                return;
            }
        }
    }
}

/// An open step keeps the users of the spare row. Tells whether one is left.
pub(crate) fn keep_step(state: &mut State, work: &Work, s: u8) -> bool {
    !keep(state.step_mut(s), work.spare.row(0)).none
}

/// The block of a step keeps the users of a row. Tells whether one is left.
fn keep_block(state: &mut State, row: &[u64], s: u8, changed: &mut Changed) -> bool {
    let b = state.home(s);
    let kept = keep(state.block_mut(b), row);
    if kept.changed {
        changed.blocks |= bit(b);
    }
    !kept.none
}

/// The block of a step keeps the users of the spare row. Tells whether one is left.
pub(crate) fn keep_reached(state: &mut State, work: &Work, s: u8, changed: &mut Changed) -> bool {
    keep_block(state, work.spare.row(0), s, changed)
}
