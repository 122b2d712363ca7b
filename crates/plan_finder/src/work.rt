//! What a search counts and learns.

use crate::bits::Cells;
use crate::rows::Rows;
use std::alloc::{AllocError, Global};
use wf_names::RULE_LIMIT;

/// The work that is left to a run, the weights of rules and steps that failed, and two rows.
#[derive(Drop)]
pub(crate) struct Work {
    left: u64,
    rules: [u32; RULE_LIMIT],
    /// What the search for a tree adds to the weights of rules, where it blames any.
    tried: [u32; RULE_LIMIT],
    blames: bool,
    pub(crate) steps: Cells,
    seed: u64,
    /// A row to work on.
    pub(crate) spare: Rows,
    /// A row as it was before.
    pub(crate) before: Rows,
    /// The users who alone stand for a block.
    pub(crate) taken: Rows,
}

impl Work {
    /// No work, and a weight of 1 for each rule and step.
    pub(crate) fn new(alloc: Global, width: usize) -> Result<Work, AllocError> {
        Ok(Work {
            left: 0,
            rules: [1; RULE_LIMIT],
            tried: [0; RULE_LIMIT],
            blames: false,
            steps: Cells::all(1),
            seed: 1,
            spare: Rows::new(alloc, 1, width)?,
            before: Rows::new(alloc, 1, width)?,
            taken: Rows::new(alloc, 1, width)?,
        })
    }

    /// Begins a run with so much work.
    pub(crate) fn begin(&mut self, run: u8, work: u64) {
        self.left = work;
        self.seed = 0x9e37_79b9_7f4a_7c15u64.wrapping_mul((run as u64).wrapping_add(1)) | 1;
    }

    /// Counts work, and tells whether some is left.
    pub(crate) fn spend(&mut self, work: usize) -> bool {
        self.left = self.left.saturating_sub(work as u64);
        self.left > 0
    }

    /// The weight of a rule.
    pub(crate) fn rule(&self, k: usize) -> u32 {
        match self.rules.get(k) {
            Some(weight) => *weight,
            None => 0,
        }
    }

    /// One more for a rule that could not be met.
    pub(crate) fn blame(&mut self, k: usize) {
        if k < RULE_LIMIT {
            self.rules[k] = self.rules[k].saturating_add(1);
        }
    }

    /// From now on the search for a tree blames rules.
    pub(crate) fn blame_in_tree(&mut self) {
        self.blames = true;
    }

    /// The weight of a rule for the search for a tree.
    pub(crate) fn tree_rule(&self, k: usize) -> u32 {
        match self.tried.get(k) {
            Some(more) => self.rule(k).saturating_add(*more),
            None => self.rule(k),
        }
    }

    /// One more for a rule that left nobody for a step, where the search for a tree blames rules.
    pub(crate) fn blame_tried(&mut self, k: usize) {
        if self.blames && k < RULE_LIMIT {
            self.tried[k] = self.tried[k].saturating_add(1);
        }
    }

    /// A number below another, which depends on the run and on what was asked before.
    pub(crate) fn below(&mut self, count: u32) -> u32 {
        self.seed ^= self.seed << 13;
        self.seed ^= self.seed >> 7;
        self.seed ^= self.seed << 17;
        let mixed = (self.seed >> 32) & 0xffff_ffff;
        (mixed.checked_rem(count as u64).unwrap_or(0) & 0xffff_ffff) as u32
    }
}
