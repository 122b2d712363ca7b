//! Small sets and short rows of numbers, each total.

use wf_names::STEP_LIMIT;

/// The member of a set of blocks that stands for a block that is not there yet.
pub(crate) const NEW: u32 = 1 << 31;

/// The set of one member.
pub(crate) fn bit(m: u8) -> u32 {
    1u32 << (m & 31)
}

/// Whether a set has a member.
pub(crate) fn has_bit(set: u32, m: u8) -> bool {
    set & bit(m) != 0
}

/// Takes a member out of a set.
pub(crate) fn pop(set: &mut u32) -> Option<u8> {
    if *set == 0 {
        return None;
    }
    let m = set.trailing_zeros();
    *set &= set.wrapping_sub(1);
    Some((m & 31) as u8)
}

/// Takes a number out of a set of laws.
pub(crate) fn pop_law(set: &mut u64) -> Option<usize> {
    if *set == 0 {
        return None;
    }
    let k = set.trailing_zeros();
    *set &= set.wrapping_sub(1);
    Some((k & 63) as usize)
}

/// A number for each step or block.
#[derive(Clone, Copy)]
pub(crate) struct Cells {
    numbers: [u32; STEP_LIMIT],
}

impl Cells {
    /// The same number for each.
    pub(crate) fn all(number: u32) -> Cells {
        Cells {
            numbers: [number; STEP_LIMIT],
        }
    }

    /// The number of one; 0 from the limit of steps on.
    pub(crate) fn at(&self, m: u8) -> u32 {
        match self.numbers.get(m as usize) {
            Some(number) => *number,
            None => 0,
        }
    }

    /// The number of one, as the number of a block.
    pub(crate) fn block(&self, m: u8) -> u8 {
        (self.at(m) & 31) as u8
    }

    /// Another number for one.
    pub(crate) fn set(&mut self, m: u8, number: u32) {
        if (m as usize) < STEP_LIMIT {
            self.numbers[m as usize] = number;
        }
    }

    /// Adds to the number of each member of a set with two members or more.
    pub(crate) fn add_to(&mut self, set: u32, more: u32) {
        let mut left = set;
        if left & left.wrapping_sub(1) == 0 {
            return;
        }
        for _ in 0..32u8 {
            let Some(m) = pop(&mut left) else { break };
            self.set(m, self.at(m).saturating_add(more));
        }
    }

    /// One more for one.
    pub(crate) fn raise(&mut self, m: u8) {
        self.set(m, self.at(m).saturating_add(1));
    }
}
