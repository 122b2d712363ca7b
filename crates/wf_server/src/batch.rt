//! Answering the jobs of a batch, and writing the entries.
ghost use Rattle.std.specs.Prelude.{◌≡◌, ◌≢◌, ◌≤◌, ◌<◌, ◌+◌, ℕ, List, [], ◌∷◌, ◌++◌, length};
ghost use Rattle.std.specs.Prelude.{drop, Option, Err, IfErr, OnOk, OnErr};
ghost use Rattle.wf_names.specs.declared.limits.TheConstants.{SESSION_LINE_LIMIT};
ghost use Rattle.wf_board.specs.Laws.Histories.{AreAnsweredOnce};
ghost use Rattle.wf_desk.specs.Desks.{IsDone, IsSoundDesk};
ghost use Rattle.wf_desk.specs.Schedules.{HasGrown};
ghost use Rattle.run_record.specs.Fault.{fault_in, CountsWrites};
ghost use Rattle.run_record.specs.Report.{Told};
ghost use Rattle.wf_server.specs.Batches.{told_of, HasAnsweredAll, HasLoaded};
ghost use Rattle.wf_server.specs.Batches.{IsBatchAdded};
ghost use Rattle.wf_server.specs.Batch.{CanBeServed, CanTake, HasServedJobs, IsServedOn};
ghost use Rattle.wf_server.specs.Batches.{AnswersTo, LoadedTo, IsWriteEnding};
ghost use Rattle.wf_server.specs.Ways.{ServesOnce, setting_of};

use crate::texts::texts_stay;
use crate::way::Way;
use crate::writing::write_entries;
use run_record::RunFault;
use std::alloc::{AllocError, Global};
use wf_desk::Desk;
use wf_outside::Sink;
use wf_talk::{Ends, Entry, Job, Journal};

/// The ends of the batches that a session has answered. Their jobs and their entries are at its
/// desk.
#[derive(Drop)]
pub(crate) struct Answered {
    pub(crate) batch_ends: Ends,
}

impl Answered {
    /// Of a session before its first batch.
    pub(crate) fn new(alloc: Global) -> Answered
        ensures ends { result.batch_ends ≡ [] }
    {
        Answered {
            batch_ends: Ends::new(alloc),
        }
    }
}

/// Answers the jobs of a batch in a way of serving, and writes their entries. The desk comes back.
pub(crate) fn answer_batch<K: Sink, W: Way>(
    alloc: Global,
    way: &W,
    mut desk: Desk,
    told: &mut Answered,
    batch: &[Job],
    sink: &mut K,
) -> (Desk, Result<(), RunFault>)
    requires way { W.ready way.now }
    requires takes { CanTake desk (told_of desk told.old) batch.now }
    ensures on { IsServedOn (W.leaves way.now) desk result.0 }
    ensures answers { (held : Option (List ℕ)) →
        HasAnsweredAll held (K.held sink.old) desk (told_of desk told.old) →
        AnswersTo held (K.held sink.new) (told_of desk told.old) batch.now result.0
        (told_of result.0 told.new) result.1 }
    ensures ending { IfErr result.1 IsWriteEnding }
    ensures counts { CountsWrites (fault_in result.1) (K.faults sink.old) (K.faults sink.new) }
    ensures flushed { K.is_flushed sink.old → result.1 ≢ Err RunFault.Write
        → K.is_flushed sink.new }
{
    match take_batch(alloc, &mut desk, told, batch) {
        Ok(()) => answer_loaded(alloc, way, desk, sink),
        Err(refused) => (desk, Err(RunFault::from(refused))),
    }
}

/// Answers the jobs that a desk has in a way of serving, and writes the entries that come of it.
/// The desk comes back.
pub(crate) fn answer_loaded<K: Sink, W: Way>(
    alloc: Global,
    way: &W,
    desk: Desk,
    sink: &mut K,
) -> (Desk, Result<(), RunFault>)
    requires way { W.ready way.now }
    requires ready { CanBeServed desk }
    ensures on { HasServedJobs (W.leaves way.now) desk result.0 }
    ensures answers { (held : Option (List ℕ)) (before : Told) (told : Answered) →
        HasLoaded held (K.held sink.old) desk before →
        IsBatchAdded before desk.jobs (told_of desk told) →
        LoadedTo held (K.held sink.new) result.0 (told_of result.0 told) result.1 }
    ensures some { OnErr result.1 (0 < length result.0.entries) }
    ensures ending { IfErr result.1 IsWriteEnding }
    ensures counts { CountsWrites (fault_in result.1) (K.faults sink.old) (K.faults sink.new) }
    ensures flushed { K.is_flushed sink.old → result.1 ≢ Err RunFault.Write
        → K.is_flushed sink.new }
{
    let done = desk.journal().len();
    texts_stay(&desk);
    let served = serve_jobs(alloc, way, desk);
    let written = write_entries(
        alloc,
        way,
        served.board().policy(),
        entries_after(served.journal(), done),
        sink,
    );
    (served, written)
}

// Takes the jobs of a batch to the desk, and tells its end.
fn take_batch(
    alloc: Global,
    desk: &mut Desk,
    told: &mut Answered,
    batch: &[Job],
) -> Result<(), AllocError>
    requires takes { CanTake desk.old (told_of desk.old told.old) batch.now }
    ensures setting { setting_of desk.new ≡ setting_of desk.old }
    ensures entries { desk.new.entries ≡ desk.old.entries }
    ensures loaded { OnOk result (desk.new.jobs ≡ batch.now) }
    ensures start { OnOk result (desk.new.start ≡ length desk.old.entries) }
    ensures added { OnOk result
        (IsBatchAdded (told_of desk.old told.old) batch.now (told_of desk.new told.new)) }
    ensures stay { OnErr result (told_of desk.new told.new ≡ told_of desk.old told.old) }
{
    let ends = told.batch_ends.len();
    add_end(&mut told.batch_ends, desk.count_told(), batch.len())?;
    match desk.load_batch(alloc, batch) {
        Ok(()) => Ok(()),
        Err(e) => {
            told.batch_ends.truncate(ends);
            Err(e)
        }
    }
}

// Has the jobs of a batch served.
fn serve_jobs<W: Way>(alloc: Global, way: &W, desk: Desk) -> Desk
    requires way { W.ready way.now }
    requires ready { CanBeServed desk }
    ensures grown { HasGrown desk result }
    ensures done { IsDone result }
    ensures sound { IsSoundDesk result }
    ensures once { ServesOnce (W.leaves way.now) → AreAnsweredOnce (drop desk.restored desk.entries)
        → AreAnsweredOnce (drop desk.restored result.entries) }
{
    let _before = desk.journal();
    let served = way.serve(alloc, desk);
    let _after = served.journal();
    served
}

// Adds the end of a batch of `count` jobs, if it has one, behind `before` others.
fn add_end(ends: &mut Ends, before: usize, count: usize) -> Result<(), AllocError>
    requires few { before + count ≤ SESSION_LINE_LIMIT }
    ensures none { OnOk result (count ≡ 0 → ends.new ≡ ends.old) }
    ensures some { OnOk result (0 < count → ends.new ≡ ends.old ++ (before + count) ∷ []) }
    ensures unchanged { OnErr result (ends.new ≡ ends.old) }
{
    if count == 0 {
        return Ok(());
    }
    ends.push((before + count) as u32)
}

// The entries behind the first `done`.
#[tactic(auto, using(wf_desk::proofs::DocketLaws::rest_from))]
fn entries_after(journal: &Journal, done: usize) -> &[Entry]
    requires { done ≤ length journal.now.entries }
    ensures { result.now ≡ drop done journal.now.entries }
{
    &journal.as_slice()[done..]
}
