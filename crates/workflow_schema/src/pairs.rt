//! Sets of pairs of steps, kept as a table of flags.
ghost use Rattle.std.specs.Prelude.{◌≡◌, ◌<◌, false, not, IfErr, IfOk};
ghost use Rattle.std.specs.FinSet as set;
ghost use Rattle.basics.specs.Laws.Pairs.{AllPairs};
ghost use Rattle.wf_names.specs.declared.limits.TheConstants.{STEP_LIMIT};
ghost use Rattle.workflow_schema.specs.Flows.{IsLeastCycle};
ghost use Rattle.workflow_schema.specs.Stored.{IsClosedOrder};

use crate::table::{close, first_own_flag, has_flag, set_flag};
use std::marker::Model;
use wf_names::{STEP_LIMIT, StepId};

/// A finite set of pairs of steps, as the order of a workflow is. A look-up and a change take
/// constant time, and no call takes memory.
#[derive(Drop)]
pub struct StepPairs {
    // Row s has the flag t where the pair (s, t) is in the set.
    rows: [u64; STEP_LIMIT],
}

impl Model for StepPairs {
    ghost use Rattle.std.specs.Prelude.{◌≡◌, length};
    ghost use Rattle.basics.specs.Laws.Pairs.{Pairs, pairs_code};
    ghost use Rattle.wf_names.specs.declared.limits.TheConstants.{STEP_LIMIT};
    ghost use Rattle.workflow_schema.specs.Tables.{pairs_in};

    ghost Value = { Pairs };

    ghost coded = { pairs_code };

    ghost view = { λ p. pairs_in p.rows };

    ghost invariant = { λ p. length p.rows ≡ STEP_LIMIT };
}

impl StepPairs {
    /// The empty set.
    pub fn new() -> StepPairs
        ensures { result ≡ set.empty }
    {
        StepPairs {
            rows: [0; STEP_LIMIT],
        }
    }

    /// Whether the pair `(s, t)` is in the set.
    pub fn has(&self, s: StepId, t: StepId) -> bool
        ensures { result ≡ set.contains self.now (s, t) }
    {
        has_flag(&self.rows, s.0 as usize, t.0)
    }

    /// Puts the pair `(s, t)` into the set and answers whether it is new there.
    pub fn insert(&mut self, s: StepId, t: StepId) -> bool
        requires first { s < STEP_LIMIT }
        requires second { t < STEP_LIMIT }
        ensures added { self.new ≡ set.insert self.old (s, t) }
        ensures fresh { result ≡ not (set.contains self.old (s, t)) }
        ensures unchanged { result ≡ false → self.new ≡ self.old }
    {
        let held = has_flag(&self.rows, s.0 as usize, t.0);
        set_flag(&mut self.rows, s.0 as usize, t.0);
        !held
    }

    /// A set of the same pairs.
    pub fn copy(&self) -> StepPairs
        ensures { result ≡ self.now }
    {
        StepPairs { rows: self.rows }
    }

    /// The table of the pairs of steps of which the first comes before the second by a chain of
    /// these pairs; the least step that comes before itself, where there is one.
    pub(crate) fn closed(&self) -> Result<[u64; STEP_LIMIT], StepId>
        requires { AllPairs (λ _ t. t < STEP_LIMIT) self.now }
        ensures closed { IfOk result (IsClosedOrder self.now) }
        ensures cycle { IfErr result (IsLeastCycle self.now) }
    {
        let mut later = self.rows;
        close(&mut later);
        match first_own_flag(&later) {
            Some(s) => Err(s),
            None => Ok(later),
        }
    }
}
