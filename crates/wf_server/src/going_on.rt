//! The command `resume`: it goes on from the transcript of an earlier session.
ghost use Rattle.std.specs.Prelude.{◌≡◌, ◌<◌, Bool, false, ℕ, List, length};
ghost use Rattle.std.proofs.Common.{◌⊎◌};
ghost use Rattle.run_record.specs.Fault.{status_of, CountsWrites};
ghost use Rattle.run_record.specs.Report.{nothing_told, told_by, HasEnded};
ghost use Rattle.run_record.specs.Laws.Run.{run_over, streams_of};
ghost use Rattle.wf_board.specs.Laws.States.{opening_state};
ghost use Rattle.wf_board.specs.Laws.Histories.{state_after};
ghost use Rattle.entry_reader.specs.Named.{HasNames};
ghost use Rattle.line_reader.specs.Jobs.{Cut, next_input};
ghost use Rattle.transcript_commands.specs.Resumed.{Session};
ghost use Rattle.transcript_commands.specs.declared.start.TheConstants.{PIECE};
ghost use Rattle.transcript_commands.specs.Laws.Begun.{HasBegun};
ghost use Rattle.transcript_commands.specs.Start.{names_in};
ghost use Rattle.transcript_commands.specs.Finding.{audit_fault_line};
ghost use Rattle.command_words.specs.Laws.Words.{AreOptions};
ghost use Rattle.wf_server.specs.GoingOn.{GoOnBehind, options_by};
ghost use Rattle.wf_server.specs.Sessions.{Served};
ghost use Rattle.wf_server.specs.Laws.Resuming.{CountsRefusal, RefusesAs, ResumesRun, TellsAs};
ghost use Rattle.wf_server.specs.Laws.Resuming.{setting_behind};
ghost use Rattle.wf_server.specs.Ways.{ServesOnce};

use crate::batch::Answered;
use crate::file::answer_requests;
use crate::session::{report_of, serve_batches};
use crate::texts::names_known;
use crate::way::Way;
use case_views::PlainDecider;
use entry_laws::lines_fit;
use line_reader::jobs_stay_named;
use run_record::{Outside, Report, RunFault, bare_report};
use std::alloc::Global;
use transcript_audit::AuditKind;
use transcript_commands::{Beginning, Earlier, Refusal, begin, fault_text};
use wf_board::laws::{histories_are_exact, histories_keep_completable};
use wf_desk::Desk;
use wf_outside::{Shelf, Sink, Source, put_and_flush};

/// Takes up the transcript of an earlier session, answers the requests that have no entry, and then
/// those in the input, in a way of serving.
pub(crate) fn run_resume<F: Shelf, S: Source, K: Sink, W: Way>(
    way: &W,
    earlier: Earlier,
    outside: &mut Outside<'_, F, S, K>,
) -> Report
    requires way { W.ready way.now }
    requires options { AreOptions (options_by earlier) }
    ensures ended { HasEnded outside.old outside.new result }
    ensures resumes { (repeats : Bool) →
        (repeats ≡ false → ServesOnce (W.leaves way.now) ⊎ (earlier.entry.rounds ≡ 0)) →
        ResumesRun (names_in earlier.entry) (options_by earlier.entry) repeats (
        run_over F.file F.faults S.left S.faults K.held K.faults outside.old outside.new result) }
{
    let alloc = outside.alloc;
    lines_fit();
    jobs_stay_named();
    match begin(alloc, &PlainDecider, earlier, outside.shelf) {
        Ok(beginning) => go_on(alloc, way, beginning, outside.source, outside.sink),
        Err(refusal) => refuse(alloc, refusal, outside.sink),
    }
}

// Ends a run whose session does not go on.
fn refuse<K: Sink>(alloc: Global, refusal: Refusal, sink: &mut K) -> Report
    ensures refuses { RefusesAs refusal (K.held sink.old) (K.held sink.new) result.fault }
    ensures counts { CountsRefusal refusal (K.faults sink.old) (K.faults sink.new) result.fault }
    ensures told { told_by result ≡ nothing_told }
    ensures status { result.status ≡ status_of result.fault }
{
    match refusal {
        Refusal::Ends(fault) => bare_report(alloc, fault),
        Refusal::Line(n, kind) => {
            let fault = tell_fault(alloc, n, kind, sink);
            bare_report(alloc, fault)
        }
    }
}

// The session behind the entries that were taken up.
fn go_on<S: Source, K: Sink, W: Way>(
    alloc: Global,
    way: &W,
    beginning: Beginning,
    source: &mut S,
    sink: &mut K,
) -> Report
    requires way { W.ready way.now }
    requires some { 0 < beginning.desk.lanes }
    requires begun { (s : Session) × ((cut : Cut) × ((transcript : List ℕ)
        × HasBegun s cut transcript beginning)) }
    ensures served { (s : Session) (cut : Cut) (transcript : List ℕ) →
        HasBegun s cut transcript beginning →
        Served (setting_behind s (length beginning.desk.entries)) (next_input cut) PIECE
        (streams_of S.left S.faults K.held K.faults source.old sink.old)
        (streams_of S.left S.faults K.held K.faults source.new sink.new)
        (told_by result) result.fault }
    ensures behind { GoOnBehind (W.leaves way.now) beginning.desk.entries (told_by result).entries }
    ensures named { HasNames (state_after (opening_state beginning.desk.opening)
        beginning.desk.entries).book.policy }
    ensures status { result.status ≡ status_of result.fault }
{
    histories_keep_completable();
    histories_are_exact();
    let Beginning {
        desk,
        file,
        count,
        ends,
        mut reader,
    } = beginning;
    names_known(&desk);
    let mut told = Answered { batch_ends: ends };
    let (served, answered) = answer_requests(alloc, way, desk, &mut told, &file, count, sink);
    match answered {
        Ok(()) => serve_batches(alloc, way, &mut reader, served, told, source, sink),
        Err(fault) => report_of(fault, served, told),
    }
}

// Writes the line that tells the fault of a transcript; how the run ends.
fn tell_fault<K: Sink>(alloc: Global, n: u32, kind: AuditKind, sink: &mut K) -> RunFault
    ensures tells { TellsAs (audit_fault_line n kind) (K.held sink.old) (K.held sink.new) result }
    ensures counts { CountsWrites result (K.faults sink.old) (K.faults sink.new) }
{
    let Ok(text) = fault_text(alloc, n, kind) else {
        return RunFault::NoMemory;
    };
    match put_and_flush(sink, text.as_bytes()) {
        Ok(()) => RunFault::Found,
        Err(_) => RunFault::Write,
    }
}
