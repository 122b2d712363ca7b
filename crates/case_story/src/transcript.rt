//! A run that tells of a transcript: the files are loaded, and what is told of them is written.
ghost use Rattle.std.specs.Prelude.{IfErr};
ghost use Rattle.run_record.specs.Fault.{fault_in, CountsLoads, CountsWrites};
ghost use Rattle.wf_commands.specs.Answer.{AnswersAs, IsAnswerEnding, IsCommandEnding};
ghost use Rattle.transcript_commands.specs.Run.{IsOnLanes};
ghost use Rattle.transcript_commands.specs.Start.{names_in};
ghost use Rattle.case_story.specs.Sessions.{IsServed};
ghost use Rattle.case_story.specs.Transcript.{FindsRun, Tells, TellsRun};

use crate::entry::tell_entry;
use crate::log::tell_log;
use crate::now::tell_now;
use crate::page::tell_page;
use crate::session::{Session, load_session};
use run_record::RunFault;
use std::alloc::Global;
use transcript_commands::Earlier;
use wf_commands::Answer;
use wf_names::CaseId;
use wf_outside::{Shelf, Sink, put_and_flush};

/// What is to be told of a transcript.
#[derive(Clone, Copy)]
pub enum What {
    /// All entries.
    Log,
    /// The entry with this number.
    Entry(u32),
    /// The policy after the entry with this number, or after all.
    Now(Option<u32>),
    /// The case with this number, as a page.
    Page(CaseId),
}

/// Tells of the transcript of a session.
pub fn run_told<F: Shelf, K: Sink>(
    alloc: Global,
    what: What,
    files: Earlier,
    shelf: &mut F,
    sink: &mut K,
) -> RunFault
    requires { IsOnLanes files.lanes }
    ensures tells { TellsRun (F.file shelf.old) (names_in files.entry) files.entry.lanes
        files.entry.rounds
        (Tells what) (K.held sink.old) (K.held sink.new) result }
    ensures loads { CountsLoads result (F.faults shelf.old) (F.faults shelf.new) }
    ensures writes { CountsWrites result (K.faults sink.old) (K.faults sink.new) }
{
    match find(alloc, what, files, shelf) {
        Ok(answer) => match put_and_flush(sink, answer.text.as_slice()) {
            Ok(()) => answer.ending(),
            Err(_) => RunFault::Write,
        },
        Err(fault) => fault,
    }
}

// What is told of the files.
fn find<F: Shelf>(
    alloc: Global,
    what: What,
    files: Earlier,
    shelf: &mut F,
) -> Result<Answer, RunFault>
    requires { IsOnLanes files.lanes }
    ensures finds { FindsRun (F.file shelf.old) (names_in files.entry) files.entry.lanes
        files.entry.rounds
        (Tells what) result }
    ensures ending { IfErr result IsCommandEnding }
    ensures loads { CountsLoads (fault_in result) (F.faults shelf.old) (F.faults shelf.new) }
{
    match load_session(alloc, files, shelf) {
        Ok(s) => tell(alloc, what, &s),
        Err(fault) => Err(fault),
    }
}

fn tell(alloc: Global, what: What, s: &Session) -> Result<Answer, RunFault>
    requires served { IsServed s.now }
    ensures tells { AnswersAs (Tells what s.now) result }
    ensures ending { IfErr result IsAnswerEnding }
{
    match what {
        What::Log => tell_log(alloc, s),
        What::Entry(at) => tell_entry(alloc, s, at),
        What::Now(at) => tell_now(alloc, s, at),
        What::Page(case) => tell_page(alloc, s, case),
    }
}
