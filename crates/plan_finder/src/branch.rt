//! A node of the search, and its branches.

use crate::bits::{NEW, bit, has_bit, pop};
use crate::choice::Choice;
use crate::laws::settle;
use crate::problem::Problem;
use crate::rows::{Rows, add_user, clear, count, count_common, meet, nth_user, put, take_user};
use crate::state::State;
use crate::work::Work;
use std::alloc::{AllocError, Global};

/// A node: where it was reached, what it branches over, and the branches that are left.
#[derive(Drop)]
pub(crate) struct Node {
    pub(crate) state: State,
    choice: Choice,
    options: u32,
    users: Rows,
}

impl Node {
    /// A node to be used.
    pub(crate) fn new(alloc: Global, problem: &Problem) -> Result<Node, AllocError> {
        Ok(Node {
            state: State::new(alloc, problem.steps, problem.width)?,
            choice: Choice::Nothing,
            options: 0,
            users: Rows::new(alloc, 1, problem.width)?,
        })
    }

    /// Becomes the node of a state and of what it branches over.
    pub(crate) fn become_node(&mut self, state: &State, choice: Choice) {
        self.state.become_same(state);
        self.choice = choice;
        self.options = 0;
        match choice {
            Choice::Step(s) => self.options = state.options.at(s),
            Choice::Block(b) => put(self.users.row_mut(0), state.block(b)),
            Choice::Nothing => {}
        }
    }

    /// Takes the next branch, and makes `now` what it leads to. None where no branch is left, else
    /// whether everything can still be met there.
    pub(crate) fn take_branch(
        &mut self,
        problem: &Problem,
        now: &mut State,
        work: &mut Work,
        run: u8,
    ) -> Option<bool> {
        match self.choice {
            Choice::Step(s) => {
                let option = self.take_option(s, run)?;
                now.become_same(&self.state);
                Some(join_block(problem, now, work, s, option))
            }
            Choice::Block(b) => {
                let user = self.take_user(work, run)?;
                now.become_same(&self.state);
                Some(fix_user(problem, now, work, b, user))
            }
            Choice::Nothing => None,
        }
    }

    // The next option of a step. Every other run tries a new block last, and of the blocks the one
    // with the most users first.
    fn take_option(&mut self, s: u8, run: u8) -> Option<u8> {
        let new_first = run & 1 == 0;
        if new_first && self.options & NEW != 0 {
            self.options &= !NEW;
            return Some(31);
        }
        let mut blocks = self.options & !NEW;
        let first = pop(&mut blocks);
        let Some(lowest) = first else {
            return pop(&mut self.options);
        };
        let option = if new_first {
            lowest
        } else {
            self.widest(s, lowest)
        };
        self.options &= !bit(option);
        Some(option)
    }

    // Of the blocks among the options the one that has the most users in common with a step.
    fn widest(&self, s: u8, lowest: u8) -> u8 {
        let mut option = lowest;
        let mut most = count_common(self.state.block(lowest), self.state.step(s));
        for b in 0..self.state.blocks {
            let users = count_common(self.state.block(b), self.state.step(s));
            if has_bit(self.options, b) && users > most {
                option = b;
                most = users;
            }
        }
        option
    }

    // The next user of a block: ascending in the first run, by chance later.
    fn take_user(&mut self, work: &mut Work, run: u8) -> Option<u16> {
        let place = if run == 0 {
            0
        } else {
            work.below(count(self.users.row(0)))
        };
        let user = nth_user(self.users.row(0), place)?;
        take_user(self.users.row_mut(0), user);
        Some(user)
    }
}

// Puts an open step into a block, or into one of its own.
fn join_block(problem: &Problem, now: &mut State, work: &mut Work, s: u8, option: u8) -> bool {
    if bit(option) == NEW {
        return match now.open_block(s, work) {
            Some(b) => settle(problem, now, work, bit(b)),
            None => false,
        };
    }
    put(work.spare.row_mut(0), now.step(s));
    let _ = meet(now.block_mut(option), work.spare.row(0));
    now.place(s, option);
    settle(problem, now, work, bit(option))
}

// Gives a block its user.
fn fix_user(problem: &Problem, now: &mut State, work: &mut Work, b: u8, user: u16) -> bool {
    let row = now.block_mut(b);
    clear(row);
    add_user(row, user);
    settle(problem, now, work, bit(b))
}
