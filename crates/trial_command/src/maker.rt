//! A policy with the jobs of a number of cases, both determined by a seed.
ghost use Rattle.std.specs.Prelude.{◌≡◌, ◌≤◌, IfOk};
ghost use Rattle.trial_command.specs.Policy.{trial_policy};
ghost use Rattle.trial_command.specs.Jobs.{trial_ends, trial_jobs};

use crate::draws::Generator;
use crate::jobs::batches_of;
use crate::policy::policy_of;
use policy_book::Policy;
use std::alloc::{AllocError, Global};
use wf_talk::{Ends, Jobs};

/// A policy, the jobs that are asked under it, and the ends of their batches.
#[derive(Drop)]
pub struct Trial {
    pub policy: Policy,
    pub jobs: Jobs,
    pub ends: Ends,
}

/// The trial of a seed, with `cases` cases.
#[tactic(auto, using(crate::proofs::Growing::counts), unfolding(crate::specs::Jobs::trial_jobs))]
pub fn make(alloc: Global, seed: u64, cases: u16) -> Result<Trial, AllocError>
    requires some { 1 ≤ cases }
    requires few { cases ≤ 40 }
    ensures policy { IfOk result (λ t. t.policy ≡ trial_policy seed) }
    ensures jobs { IfOk result (λ t. t.jobs ≡ trial_jobs seed cases) }
    ensures ends { IfOk result (λ t. t.ends ≡ trial_ends cases) }
{
    let mut draws = Generator::of(seed);
    let policy = policy_of(alloc, &mut draws)?;
    let (jobs, ends) = batches_of(alloc, draws, cases)?;
    Ok(Trial { policy, jobs, ends })
}
