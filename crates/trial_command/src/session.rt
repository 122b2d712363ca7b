//! The session of a trial: its batches are served one after the other.
ghost use Rattle.std.specs.Prelude.{◌≡◌, ◌<◌, ◌≤◌, ◌+◌, [], length, IfOk, OnOk};
ghost use Rattle.wf_names.specs.declared.limits.TheConstants.{BATCH_LINE_LIMIT};
ghost use Rattle.wf_desk.specs.Desks.{AreOfLanes, IsDone, IsSoundDesk};
ghost use Rattle.trial_command.specs.Run.{IsServedTrial};
ghost use Rattle.trial_command.specs.Serving.{AreForTrial, HasServedAll, HasServedBatch};
ghost use Rattle.trial_command.specs.Serving.{trial_told};

use crate::laws::trials_come_in_batches;
use crate::maker::{Trial, make};
use std::alloc::{AllocError, Global};
use wf_board::Decider;
use wf_board::laws::{histories_are_exact, histories_keep_completable};
use wf_desk::Desk;
use wf_lanes::serve_by_turns;
use wf_talk::{Ends, Job, Jobs, Journal};

/// How many cases a trial has.
const CASES: u16 = 40;
/// How many lanes take turns.
const LANES: u8 = 4;
/// After how many lost rounds a request is answered again: where lanes take turns none is lost.
const ROUNDS: u8 = 0;

/// A session that was served.
#[derive(Drop)]
pub(crate) struct Served {
    pub(crate) entries: Journal,
    pub(crate) jobs: Jobs,
    pub(crate) batch_ends: Ends,
}

/// Serves the trial of a seed.
pub(crate) fn serve_trial<V: Decider>(
    alloc: Global,
    decider: &V,
    seed: u64,
) -> Result<Served, AllocError>
    requires ready { V.ready decider.now }
    ensures { IfOk result (λ s. IsServedTrial seed (trial_told s)) }
{
    let Trial { policy, jobs, ends } = make(alloc, seed, CASES)?;
    trials_come_in_batches();
    histories_keep_completable();
    histories_are_exact();
    let _ = policy.admin();
    let mut desk = Desk::new(alloc, policy, LANES, ROUNDS)?;
    serve_batches(alloc, decider, &mut desk, jobs.as_slice(), ends.as_slice())?;
    let (_, entries) = desk.into_parts();
    Ok(Served {
        entries,
        jobs,
        batch_ends: ends,
    })
}

// Serves the batches of which these are the ends.
fn serve_batches<V: Decider>(
    alloc: Global,
    decider: &V,
    desk: &mut Desk,
    jobs: &[Job],
    batch_ends: &[u32],
) -> Result<(), AllocError>
    requires ready { V.ready decider.now }
    requires jobs { AreForTrial jobs.now batch_ends.now }
    requires lanes { desk.old.lanes ≡ LANES }
    requires first { desk.old.entries ≡ [] }
    requires none { desk.old.jobs ≡ [] }
    ensures { OnOk result (HasServedAll desk.old desk.new jobs.now batch_ends.now) }
{
    let mut start = 0;
    'batches: for end in batch_ends {
        let end = *end as usize;
        serve_batch(alloc, decider, desk, &jobs[start..end])?;
        start = end;
    }
    Ok(())
}

// Serves the jobs of a batch.
fn serve_batch<V: Decider>(
    alloc: Global,
    decider: &V,
    desk: &mut Desk,
    batch: &[Job],
) -> Result<(), AllocError>
    requires ready { V.ready decider.now }
    requires done { IsDone desk.old }
    requires short { length batch.now ≤ BATCH_LINE_LIMIT }
    requires lanes { AreOfLanes desk.old.lanes batch.now }
    requires few { length desk.old.entries + length batch.now < 4294967296 }
    ensures { OnOk result (HasServedBatch desk.old desk.new batch.now) }
{
    desk.load_batch(alloc, batch)?;
    serve_by_turns(alloc, decider, desk);
    // What a desk keeps: each lane's entries answer its jobs, in order.
    let _kept = desk.journal();
    Ok(())
}
