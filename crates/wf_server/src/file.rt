//! Answering the jobs of a requests file that have no entry yet.
ghost use Rattle.std.specs.Prelude.{◌≡◌, ◌≤◌, ◌<◌, ℕ, List, length, Option, IfErr};
ghost use Rattle.transcript_commands.specs.Unserved.{jobs_between};
ghost use Rattle.run_record.specs.Fault.{fault_in, CountsWrites};
ghost use Rattle.wf_server.specs.Batch.{IsServedOn};
ghost use Rattle.wf_server.specs.Batches.{told_of, HasAnsweredAll, IsWriteEnding};
ghost use Rattle.wf_server.specs.Files.{FileTo, IsInFile, StandsBehind};

use crate::batch::{Answered, answer_batch, answer_loaded};
use crate::way::Way;
use line_reader::Batch;
use run_record::RunFault;
use std::alloc::Global;
use wf_desk::Desk;
use wf_outside::Sink;
use wf_talk::Job;

/// Answers the jobs of a file from the batch on that is at the desk, in a way of serving, and
/// writes their entries. The file has `count` batches up to that one and with it. The desk comes
/// back.
pub(crate) fn answer_requests<K: Sink, W: Way>(
    alloc: Global,
    way: &W,
    desk: Desk,
    told: &mut Answered,
    file: &Batch,
    count: usize,
    sink: &mut K,
) -> (Desk, Result<(), RunFault>)
    requires way { W.ready way.now }
    requires stands { StandsBehind desk (told_of desk told.old) }
    requires file { IsInFile desk.lanes file.now.jobs file.now.ends count (told_of desk told.old) }
    ensures on { IsServedOn (W.leaves way.now) desk result.0 }
    ensures answers { FileTo (K.held sink.old) (K.held sink.new) file.now.jobs file.now.ends
        result.0 (told_of result.0 told.new) result.1 }
    ensures ending { IfErr result.1 IsWriteEnding }
    ensures counts { CountsWrites (fault_in result.1) (K.faults sink.old) (K.faults sink.new) }
{
    let (served, answered) = answer_loaded(alloc, way, desk, sink);
    match answered {
        Ok(()) => answer_file(alloc, way, served, told, file, count, sink),
        Err(fault) => (served, Err(fault)),
    }
}

// Answers the jobs of a file, batch after batch, behind the first `count` batches.
fn answer_file<K: Sink, W: Way>(
    alloc: Global,
    way: &W,
    mut desk: Desk,
    told: &mut Answered,
    file: &Batch,
    mut count: usize,
    sink: &mut K,
) -> (Desk, Result<(), RunFault>)
    requires way { W.ready way.now }
    requires lanes { 0 < desk.lanes }
    requires file { IsInFile desk.lanes file.now.jobs file.now.ends count (told_of desk told.old) }
    requires answered { (held : Option (List ℕ))
        × HasAnsweredAll held (K.held sink.old) desk (told_of desk told.old) }
    ensures on { IsServedOn (W.leaves way.now) desk result.0 }
    ensures answers { (held : Option (List ℕ)) →
        HasAnsweredAll held (K.held sink.old) desk (told_of desk told.old) →
        FileTo held (K.held sink.new) file.now.jobs file.now.ends result.0
        (told_of result.0 told.new) result.1 }
    ensures ending { IfErr result.1 IsWriteEnding }
    ensures counts { CountsWrites (fault_in result.1) (K.faults sink.old) (K.faults sink.new) }
{
    'answering: while count < file.ends.len() {
        let end = file.ends.as_slice()[count];
        let batch = jobs_between(file.jobs.as_slice(), desk.count_told(), end as usize);
        let (next, answered) = answer_batch(alloc, way, desk, told, batch, sink);
        match answered {
            Ok(()) => desk = next,
            Err(fault) => return (next, Err(fault)),
        }
        count += 1;
    }
    (desk, Ok(()))
}

// The jobs between two places.
#[tactic(auto, using(transcript_audit::proofs::Batches::slice_part))]
fn jobs_between(jobs: &[Job], from: usize, end: usize) -> &[Job]
    requires order { from ≤ end }
    requires within { end ≤ length jobs.now }
    ensures { result.now ≡ jobs_between from end jobs.now }
{
    &jobs[from..end]
}
