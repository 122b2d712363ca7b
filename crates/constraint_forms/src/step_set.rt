//! Sets of steps, kept as the bits of one word.
ghost use Rattle.std.specs.Prelude.{◌≡◌, ℕ, ◌<◌, ◌≤◌, ◌||◌, false, true, length, slice_set};
ghost use Rattle.std.specs.Prelude.{MatchOption};
ghost use Rattle.wf_names.specs.declared.limits.TheConstants.{STEP_LIMIT};
ghost use Rattle.constraint_forms.specs.Assign.{is_member, no_steps, IsNextStep};
ghost use Rattle.constraint_forms.specs.Rules.{count_members};

use std::marker::Model;
use wf_names::{STEP_LIMIT, StepId};

/// A set of steps. Contracts see one flag a step, in the order of the steps' numbers.
#[derive(Clone, Copy, PartialEq, Eq, Hash)]
pub struct StepSet {
    bits: u32,
}

impl Model for StepSet {
    ghost use Rattle.std.specs.Prelude.{ℕ, ◌<◌, ◌^◌, Bool, List};
    ghost use Rattle.wf_names.specs.declared.limits.TheConstants.{STEP_LIMIT};
    ghost use Rattle.constraint_forms.specs.Flags.{flags_of, word_of, word_of-flags_of};

    ghost Value = { List Bool };

    ghost view = { λ s. flags_of STEP_LIMIT s.bits };

    ghost invariant = { λ s. s.bits < 2 ^ STEP_LIMIT };

    ghost inverse = { λ flags. record { bits = word_of flags } };

    ghost inverse_ok = { λ s h i. record { bits = word_of-flags_of STEP_LIMIT s.bits h i } };
}

impl StepSet {
    /// The set of no step.
    pub fn empty() -> StepSet
        ensures value { result ≡ no_steps }
        ensures none { (s : ℕ) → is_member result s ≡ false }
        ensures len { length result ≡ STEP_LIMIT }
    {
        StepSet { bits: 0 }
    }

    /// This set with a step.
    pub fn with(&self, s: StepId) -> StepSet
        requires { s < STEP_LIMIT }
        ensures value { result ≡ slice_set self.now s true }
        ensures len { length self.now ≡ STEP_LIMIT }
    {
        StepSet {
            bits: self.bits | 1 << s.0,
        }
    }

    /// Whether a step is in the set; no step from the limit on is.
    pub fn has(&self, s: StepId) -> bool
        ensures flag { result ≡ is_member self.now s }
        ensures len { length self.now ≡ STEP_LIMIT }
    {
        (s.0 as usize) < STEP_LIMIT && self.bits >> s.0 & 1 == 1
    }

    /// The steps of this set and of another one.
    pub fn union(&self, by: &StepSet) -> StepSet
        ensures either { (s : ℕ) → is_member result s
            ≡ (is_member self.now s || is_member by.now s) }
        ensures len { length result ≡ STEP_LIMIT }
    {
        StepSet {
            bits: self.bits | by.bits,
        }
    }

    /// The least step of the set whose number is not below `from`.
    pub fn next(&self, from: u8) -> Option<StepId>
        ensures next { MatchOption result ((s : ℕ) → from ≤ s → is_member self.now s ≡ false)
            (IsNextStep self.now from) }
        ensures len { length self.now ≡ STEP_LIMIT }
    {
        let bits = self.bits;
        if from as usize >= STEP_LIMIT {
            return None;
        }
        let rest = bits >> from;
        if rest == 0 {
            None
        } else {
            Some(StepId((from as u32 + rest.trailing_zeros()) as u8))
        }
    }

    /// How many steps are in the set.
    pub fn count(&self) -> u8
        ensures { result ≡ count_members self.now }
    {
        let limit = self.limit();
        let mut count = 0;
        'steps: for s in 0..limit {
            if self.has(StepId(s as u8)) {
                count += 1;
            }
        }
        count
    }

    /// How many steps have a flag, members or not.
    pub fn limit(&self) -> usize
        ensures limit { result ≡ STEP_LIMIT }
        ensures len { length self.now ≡ STEP_LIMIT }
    {
        let _ = &self.bits;
        STEP_LIMIT
    }
}
