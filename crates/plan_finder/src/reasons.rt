//! Rules that keep users from a step, found for all users at once.

use crate::advice::restrict;
use crate::bits::{Cells, bit, pop, pop_law};
use crate::problem::{Law, Problem};
use crate::rows::{number_struck, put};
use crate::work::Work;
use constraint_forms::Assign;
use std::alloc::{AllocError, Global};
use wf_names::{RULE_LIMIT, STEP_LIMIT, StepId};

/// The number that stands where no rule is known.
pub(crate) const NO_RULE: u8 = 0xff;

/// For each depth of a search a rule for each user, which keeps the user from the step that is
/// given there; and the depth at which each step was given.
#[derive(Drop)]
pub(crate) struct Reasons {
    rules: Vec<u8>,
    /// A row without rules.
    none: Vec<u8>,
    users: usize,
    depths: Cells,
}

impl Reasons {
    /// No reasons yet.
    pub(crate) fn new(alloc: Global) -> Reasons {
        Reasons {
            rules: Vec::new(alloc),
            none: Vec::new(alloc),
            users: 0,
            depths: Cells::all(0),
        }
    }

    /// Makes room for the reasons of `users` users.
    pub(crate) fn make_room(&mut self, alloc: Global, users: usize) -> Result<(), AllocError> {
        self.rules = Vec::with_capacity(alloc, users.saturating_mul(STEP_LIMIT))?;
        self.none = Vec::with_capacity(alloc, users)?;
        for _ in 0..users / 64 {
            self.none.extend_from_slice(&[NO_RULE; 64])?;
        }
        self.users = users;
        Ok(())
    }

    /// The rule of a user at a depth.
    pub(crate) fn rule(&self, depth: u8, user: u16) -> u8 {
        let at = (depth as usize)
            .saturating_mul(self.users)
            .saturating_add(user as usize);
        match self.rules.get(at) {
            Some(rule) => *rule,
            None => NO_RULE,
        }
    }

    // No rule for anybody at a depth; its row comes to be where it is not there yet.
    fn clear_row(&mut self, depth: u8) {
        let from = (depth as usize).saturating_mul(self.users);
        let to = from.saturating_add(self.users);
        if from <= to && to <= self.rules.len() {
            put_numbers(&mut self.rules[from..to], self.none.as_slice());
            return;
        }
        for _ in 0..STEP_LIMIT {
            // there is room for all rows
            if self.rules.len() >= to
                || self.rules.extend_from_slice(self.none.as_slice()).is_err()
            {
                break;
            }
        }
    }

    fn row_mut(&mut self, depth: u8) -> &mut [u8] {
        let from = (depth as usize).saturating_mul(self.users);
        let to = from.saturating_add(self.users);
        if from <= to && to <= self.rules.len() {
            &mut self.rules[from..to]
        } else {
            &mut []
        }
    }

    /// Finds the rules that keep users from a step at a depth. Of two rules the one whose steps
    /// were given earlier is taken, so that a tree mentions few of the later ones.
    pub(crate) fn find(
        &mut self,
        problem: &Problem,
        work: &mut Work,
        a: &Assign,
        depth: u8,
        s: u8,
    ) {
        self.depths.set(s, depth as u32);
        self.clear_row(depth);
        let (rules, mut depths) = self.rules_by_depth(problem, a, s);
        put(work.spare.row_mut(0), problem.allowed.row(s as usize));
        for _ in 0..32u8 {
            let Some(deepest) = pop(&mut depths) else {
                break
            };
            let mut left = match rules.get(deepest as usize) {
                Some(set) => *set,
                None => 0,
            };
            for _ in 0..RULE_LIMIT {
                let Some(k) = pop_law(&mut left) else { break };
                let Some(law) = problem.laws.as_slice().get(k) else {
                    continue
                };
                put(work.before.row_mut(0), work.spare.row(0));
                restrict(problem, work, law, a, s);
                self.number(work, depth, k);
            }
        }
    }

    // Gives the number of a rule to the users whom it has kept from a step, and nothing before it.
    fn number(&mut self, work: &Work, depth: u8, k: usize) {
        number_struck(
            work.before.row(0),
            work.spare.row(0),
            self.row_mut(depth),
            (k & 63) as u8,
        );
    }

    // For each depth the rules that name a step and of whose other steps that are assigned none was
    // given deeper; and the depths of some rule.
    fn rules_by_depth(&self, problem: &Problem, a: &Assign, s: u8) -> ([u64; STEP_LIMIT], u32) {
        let mut rules = [0u64; STEP_LIMIT];
        let mut depths = 0u32;
        let mut left = problem.laws_of(s);
        for _ in 0..RULE_LIMIT {
            let Some(k) = pop_law(&mut left) else { break };
            let Some(law) = problem.laws.as_slice().get(k) else {
                break
            };
            let depth = self.depth_of(law, a, s);
            if (depth as usize) < STEP_LIMIT {
                rules[depth as usize] |= 1u64 << (k & 63);
                depths |= bit(depth);
            }
        }
        (rules, depths)
    }

    // The greatest depth of the other steps of a rule that are assigned.
    fn depth_of(&self, law: &Law, a: &Assign, s: u8) -> u8 {
        let mut left = law.scope & !bit(s);
        let mut deepest = 0;
        for _ in 0..32u8 {
            let Some(t) = pop(&mut left) else { break };
            let depth = (self.depths.at(t) & 0xff) as u8;
            if a.at(StepId(t)).is_some() && depth > deepest {
                deepest = depth;
            }
        }
        deepest
    }
}

// Makes numbers the same as others, where there are as many.
fn put_numbers(numbers: &mut [u8], others: &[u8]) {
    if numbers.len() == others.len() {
        numbers.copy_from_slice(others);
    }
}
