//! How far a search has come: the blocks of steps of one user, and what is still open.

use crate::bits::{Cells, NEW, bit, has_bit, pop};
use crate::problem::Problem;
use crate::rows::{
    Rows, add_user, clear, exceeds, has_one, has_user, is_empty, join, meets, put, put_all, strike,
};
use crate::work::Work;
use std::alloc::{AllocError, Global};

/// A state of the search.
#[derive(Drop)]
pub(crate) struct State {
    /// The users who may still have each step, and behind them those who may still stand for each
    /// block.
    rows: Rows,
    /// How many steps there are.
    steps: u8,
    /// The steps that stand in no block.
    pub(crate) open: u32,
    /// How many blocks there are.
    pub(crate) blocks: u8,
    /// The steps of each block.
    pub(crate) members: Cells,
    /// The block of each step that is not open.
    homes: Cells,
    /// The blocks that each open step may still join, and `NEW`.
    pub(crate) options: Cells,
}

impl State {
    /// A state in which no step is open yet, and without blocks.
    pub(crate) fn new(alloc: Global, steps: u8, width: usize) -> Result<State, AllocError> {
        Ok(State {
            rows: Rows::new(alloc, (steps as usize).saturating_mul(2), width)?,
            steps,
            open: 0,
            blocks: 0,
            members: Cells::all(0),
            homes: Cells::all(0),
            options: Cells::all(NEW),
        })
    }

    /// Makes this state the same as another one with as many steps.
    pub(crate) fn become_same(&mut self, other: &State) {
        let count = (other.steps as usize).saturating_add(other.blocks as usize);
        put_all(self.rows.front_mut(count), other.rows.front(count));
        self.open = other.open;
        self.blocks = other.blocks;
        self.members = other.members;
        self.homes = other.homes;
        self.options = other.options;
    }

    /// The users who may still have an open step.
    pub(crate) fn step(&self, s: u8) -> &[u64] {
        self.rows.row(s as usize)
    }

    /// The users who may still have an open step, to be changed.
    pub(crate) fn step_mut(&mut self, s: u8) -> &mut [u64] {
        self.rows.row_mut(s as usize)
    }

    /// The users who may still stand for a block.
    pub(crate) fn block(&self, b: u8) -> &[u64] {
        self.rows
            .row((b as usize).saturating_add(self.steps as usize))
    }

    /// The users who may still stand for a block, to be changed.
    pub(crate) fn block_mut(&mut self, b: u8) -> &mut [u64] {
        let at = (b as usize).saturating_add(self.steps as usize);
        self.rows.row_mut(at)
    }

    /// Whether a step stands in no block.
    pub(crate) fn is_open(&self, s: u8) -> bool {
        has_bit(self.open, s)
    }

    /// The block of a step that is not open.
    pub(crate) fn home(&self, s: u8) -> u8 {
        self.homes.block(s)
    }

    /// All blocks.
    pub(crate) fn all_blocks(&self) -> u32 {
        bit(self.blocks).wrapping_sub(1)
    }

    /// Puts an open step into a block; `NEW` among the options is a block of its own.
    pub(crate) fn place(&mut self, s: u8, b: u8) {
        self.open &= !bit(s);
        self.homes.set(s, b as u32);
        self.members.set(b, self.members.at(b) | bit(s));
    }

    /// Opens a block for those who may have a step and stand for no other block; None where there
    /// is no room.
    pub(crate) fn open_block(&mut self, s: u8, work: &mut Work) -> Option<u8> {
        let b = self.blocks;
        if b >= self.steps {
            return None;
        }
        self.find_taken(work);
        put(work.spare.row_mut(0), self.step(s));
        strike(work.spare.row_mut(0), work.taken.row(0));
        put(self.block_mut(b), work.spare.row(0));
        self.blocks = b.saturating_add(1);
        self.offer(b);
        self.place(s, b);
        Some(b)
    }

    // Gives a new block to the options of the steps that may have one.
    fn offer(&mut self, b: u8) {
        for s in 0..self.steps {
            let options = self.options.at(s);
            if options & NEW != 0 {
                self.options.set(s, options | bit(b));
            }
        }
    }

    /// The block that has `user` as its only user, if there is one.
    pub(crate) fn block_of_user(&self, user: u16) -> Option<u8> {
        for b in 0..self.blocks {
            if has_user(self.block(b), user) {
                return Some(b);
            }
        }
        None
    }

    /// Opens a block for one user.
    pub(crate) fn open_for(&mut self, user: u16) -> u8 {
        let b = self.blocks;
        let row = self.block_mut(b);
        clear(row);
        add_user(row, user);
        self.blocks = b.saturating_add(1);
        b
    }

    // Finds the users who alone stand for a block.
    fn find_taken(&self, work: &mut Work) {
        clear(work.taken.row_mut(0));
        for b in 0..self.blocks {
            if has_one(self.block(b)) {
                join(work.taken.row_mut(0), self.block(b));
            }
        }
    }

    /// Takes away the options that nobody is left for, and tells whether each open step keeps one.
    pub(crate) fn refresh(&mut self, problem: &Problem, work: &mut Work) -> bool {
        self.find_taken(work);
        for s in 0..problem.steps {
            if self.is_open(s) && !self.refresh_step(s, work) {
                work.steps.raise(s);
                return false;
            }
        }
        true
    }

    fn refresh_step(&mut self, s: u8, work: &Work) -> bool {
        let options = self.options.at(s);
        let mut left = 0;
        let mut blocks = options & self.all_blocks();
        for _ in 0..32u8 {
            let Some(b) = pop(&mut blocks) else { break };
            if meets(self.block(b), self.step(s)) {
                left |= bit(b);
            }
        }
        if options & NEW != 0 && exceeds(self.step(s), work.taken.row(0)) {
            left |= NEW;
        }
        self.options.set(s, left);
        left != 0 && !is_empty(self.step(s))
    }
}
