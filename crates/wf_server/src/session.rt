//! The session: batch after batch is read, answered and written.
ghost use Rattle.std.specs.Prelude.{◌≡◌, ◌<◌, [], None};
ghost use Rattle.wf_board.specs.Laws.States.{opening_state};
ghost use Rattle.wf_board.specs.Laws.Histories.{AreAnsweredOnce, AreRightful, IsLegal};
ghost use Rattle.wf_desk.specs.Desks.{IsSoundDesk, desk_with};
ghost use Rattle.line_reader.specs.Jobs.{Cut, start};
ghost use Rattle.line_reader.specs.BatchReader.{CanReadOn, GoesOnReading};
ghost use Rattle.run_record.specs.Fault.{status_of};
ghost use Rattle.run_record.specs.Report.{told_by};
ghost use Rattle.run_record.specs.Laws.Run.{Streams, streams_of};
ghost use Rattle.command_words.specs.Laws.Words.{AreOptions};
ghost use Rattle.command_words.specs.Command.{options_in};
ghost use Rattle.wf_server.specs.Laws.Serving.{setting};
ghost use Rattle.wf_server.specs.Batches.{told_of, ending_after, IsServing, BatchEnds, Serves};
ghost use Rattle.wf_server.specs.Batch.{IsServedOn};
ghost use Rattle.wf_server.specs.Session.{AreBehind};
ghost use Rattle.wf_server.specs.Ways.{ServesOnce, setting_of};

use crate::batch::{Answered, answer_batch};
use crate::way::Way;
use command_words::Options;
use line_reader::{BatchReader, Paused, Reading, Stop, jobs_are_in_order};
use policy_book::Policy;
use run_record::{Report, RunFault, bare_report};
use std::alloc::Global;
use wf_desk::Desk;
use wf_outside::{Sink, Source};

/// Answers the lines of the source under a policy, batch by batch, in a way of serving, and writes
/// the entries to the sink. At most `room` bytes are taken at once.
pub(crate) fn run_session<S: Source, K: Sink, W: Way>(
    alloc: Global,
    way: &W,
    policy: Policy,
    options: Options,
    room: usize,
    source: &mut S,
    sink: &mut K,
) -> Report
    requires way { W.ready way.now }
    requires room { 0 < room }
    requires options { AreOptions (options_in options) }
    ensures serves { Serves (setting policy (options_in options)) (start options.lanes) room
        (streams_of S.left S.faults K.held K.faults source.old sink.old)
        (streams_of S.left S.faults K.held K.faults source.new sink.new)
        (told_by result) result.fault }
    ensures legal { IsLegal (opening_state policy) options.rounds (told_by result).entries }
    ensures once { ServesOnce (W.leaves way.now) → AreAnsweredOnce (told_by result).entries }
    ensures wants { AreRightful (told_by result).entries }
    ensures status { result.status ≡ status_of result.fault }
{
    match Desk::new(alloc, policy, options.lanes, options.rounds) {
        Ok(desk) => serve_desk(alloc, way, desk, room, source, sink),
        Err(_) => bare_report(alloc, RunFault::NoMemory),
    }
}

// The session at a new desk.
fn serve_desk<S: Source, K: Sink, W: Way>(
    alloc: Global,
    way: &W,
    desk: Desk,
    room: usize,
    source: &mut S,
    sink: &mut K,
) -> Report
    requires lanes { 0 < desk.lanes }
    requires new { desk
        ≡ desk_with desk.opening desk.lanes desk.rounds desk.board [] desk.spare }
    requires way { W.ready way.now }
    requires room { 0 < room }
    ensures serves { Serves (setting_of desk) (start desk.lanes) room
        (streams_of S.left S.faults K.held K.faults source.old sink.old)
        (streams_of S.left S.faults K.held K.faults source.new sink.new)
        (told_by result) result.fault }
    ensures behind { AreBehind (W.leaves way.now) desk (told_by result).entries }
    ensures status { result.status ≡ status_of result.fault }
{
    let count = desk.lanes();
    jobs_are_in_order(count);
    match BatchReader::new(alloc, count, 0, room) {
        Ok(mut reader) => {
            let told = Answered::new(alloc);
            serve_batches(alloc, way, &mut reader, desk, told, source, sink)
        }
        Err(_) => bare_report(alloc, RunFault::NoMemory),
    }
}

/// Serves batch after batch of what is read, behind those that were answered before.
pub(crate) fn serve_batches<S: Source, K: Sink, W: Way>(
    alloc: Global,
    way: &W,
    reader: &mut BatchReader,
    mut desk: Desk,
    mut told: Answered,
    source: &mut S,
    sink: &mut K,
) -> Report
    requires way { W.ready way.now }
    requires ready { CanReadOn reader.old }
    requires lanes { 0 < desk.lanes }
    requires serving { (first : Cut) × ((before : Streams) × IsServing first before
        (streams_of S.left S.faults K.held K.faults source.old sink.old)
        reader.old desk (told_of desk told)) }
    ensures serves { (first : Cut) (before : Streams) → IsServing first before
        (streams_of S.left S.faults K.held K.faults source.old sink.old)
        reader.old desk (told_of desk told) →
        Serves (setting_of desk) first reader.old.room before
        (streams_of S.left S.faults K.held K.faults source.new sink.new)
        (told_by result) result.fault }
    ensures behind { AreBehind (W.leaves way.now) desk (told_by result).entries }
    ensures status { result.status ≡ status_of result.fault }
{
    'serving: loop {
        let (next, ending) = serve_batch(alloc, way, reader, desk, &mut told, source, sink);
        match ending {
            None => desk = next,
            Some(fault) => return report_of(fault, next, told),
        }
    }
}

// Reads a batch, answers it and writes its entries; the desk, and how the session ends, if it does.
fn serve_batch<S: Source, K: Sink, W: Way>(
    alloc: Global,
    way: &W,
    reader: &mut BatchReader,
    desk: Desk,
    told: &mut Answered,
    source: &mut S,
    sink: &mut K,
) -> (Desk, Option<RunFault>)
    requires way { W.ready way.now }
    requires ready { CanReadOn reader.old }
    requires lanes { 0 < desk.lanes }
    requires serving { (first : Cut) × ((before : Streams) × IsServing first before
        (streams_of S.left S.faults K.held K.faults source.old sink.old)
        reader.old desk (told_of desk told.old)) }
    ensures batch { (first : Cut) (before : Streams) → IsServing first before
        (streams_of S.left S.faults K.held K.faults source.old sink.old)
        reader.old desk (told_of desk told.old) →
        BatchEnds first before
        (streams_of S.left S.faults K.held K.faults source.new sink.new)
        reader.new result.0 (told_of result.0 told.new) result.1 }
    ensures on { IsServedOn (W.leaves way.now) desk result.0 }
    ensures goes_on { result.1 ≡ None → GoesOnReading reader.old reader.new }
    ensures room { reader.new.room ≡ reader.old.room }
{
    let Reading { jobs, paused } = reader.next_batch(source);
    if let Paused::NoMemory = paused {
        return (desk, Some(RunFault::NoMemory));
    }
    let (served, answered) = answer_batch(alloc, way, desk, told, jobs.as_slice(), sink);
    match answered {
        Ok(()) => (served, ending_after(paused)),
        Err(fault) => (served, Some(fault)),
    }
}

// How the session ends where all that was read is answered, if it does.
fn ending_after(paused: Paused) -> Option<RunFault>
    ensures { result ≡ ending_after paused }
{
    match paused {
        Paused::Batch => None,
        Paused::End => Some(RunFault::Nothing),
        Paused::Failed => Some(RunFault::Read),
        Paused::Stopped(Stop::LineTooLong(line)) => Some(RunFault::LineTooLong(line)),
        Paused::Stopped(Stop::TooManyLines) => Some(RunFault::TooManyLines),
        Paused::NoMemory => Some(RunFault::NoMemory),
    }
}

/// The report of a session that ended with a fault, or with none.
pub(crate) fn report_of(fault: RunFault, desk: Desk, told: Answered) -> Report
    ensures status { result.status ≡ status_of fault }
    ensures fault { result.fault ≡ fault }
    ensures told { told_by result ≡ told_of desk told }
    ensures sound { IsSoundDesk desk }
{
    let (entries, jobs) = desk.into_told();
    let Answered { batch_ends } = told;
    Report::new(fault, entries, jobs, batch_ends)
}
