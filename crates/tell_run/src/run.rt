//! The top call: one run of the program over a source, a sink and a shelf.
ghost use Rattle.std.specs.Prelude.{◌≡◌};
ghost use Rattle.run_record.specs.Outside.{ReachesSame};
ghost use Rattle.tell_run.specs.Words.{CanTell};
ghost use Rattle.tell_run.specs.Runs.{RunsAlone, RunsAsked, run_to};

use crate::ended::Ended;
use crate::policy::run_policy;
use crate::why::WhyCommand;
use crate::words::{Asked, Unread, read_words};
use case_story::run_told;
use run_record::{Outside, RunFault};
use std::alloc::Global;
use wf_commands::answer_once;
use wf_outside::{Shelf, Sink, Source, put_and_flush};

/// Runs the command that the words are, which are those after the program's name. It starts no
/// thread and waits for nothing.
pub fn run_alone<F: Shelf, S: Source, K: Sink>(
    words: &[String],
    outside: &mut Outside<'_, F, S, K>,
) -> Ended
    ensures runs { RunsAlone (run_to F.file F.faults S.left S.faults K.held K.faults
        outside.old outside.new result.fault) }
    ensures same { ReachesSame outside.old outside.new }
{
    let alloc = outside.alloc;
    match read_words(alloc, words) {
        Ok(asked) => {
            let fault = run_asked(&asked, outside);
            with_fault(alloc, fault)
        }
        Err(Unread::Help(text)) => match put_and_flush(outside.sink, text.as_bytes()) {
            Ok(()) => with_fault(alloc, RunFault::Nothing),
            Err(_) => with_fault(alloc, RunFault::Write),
        },
        Err(Unread::Usage(usage)) => Ended {
            fault: RunFault::Usage,
            usage,
        },
        Err(Unread::NoMemory) => with_fault(alloc, RunFault::NoMemory),
    }
}

fn with_fault(alloc: Global, fault: RunFault) -> Ended
    ensures { result.fault ≡ fault }
{
    Ended {
        fault,
        usage: String::new(alloc),
    }
}

fn run_asked<F: Shelf, S: Source, K: Sink>(
    asked: &Asked<'_>,
    outside: &mut Outside<'_, F, S, K>,
) -> RunFault
    requires { CanTell asked.now }
    ensures runs { RunsAsked asked.now (run_to F.file F.faults S.left S.faults K.held K.faults
        outside.old outside.new result) }
    ensures same { ReachesSame outside.old outside.new }
{
    match asked {
        Asked::Policy { policy } => run_policy(outside.alloc, policy, outside.shelf, outside.sink),
        Asked::Why { policy, flow } => { answer_once(policy, &WhyCommand { flow }, outside).fault }
        Asked::Told { what, session } => {
            run_told(outside.alloc, *what, *session, outside.shelf, outside.sink)
        }
    }
}
