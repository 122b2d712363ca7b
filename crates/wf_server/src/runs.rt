//! The top calls: one run of the program over a source, a sink and a shelf, with threads or alone.
ghost use Rattle.std.specs.Prelude.{◌≡◌, ◌<◌, None, Some, IfErr, IfOk, false, true};
ghost use Rattle.run_record.specs.Report.{told_by, HasEnded};
ghost use Rattle.run_record.specs.Laws.Run.{LeavesSource, run_of, run_over, streams_of};
ghost use Rattle.wf_board.specs.Laws.Histories.{AreAnsweredOnce};
ghost use Rattle.wf_desk.specs.Desks.{AreOfLanes, IsDone};
ghost use Rattle.wf_desk.specs.Schedules.{HasGrown};
ghost use Rattle.command_words.specs.Command.{asked, CanServe};
ghost use Rattle.command_words.specs.Laws.Words.{may_repeat, reads_input};
ghost use Rattle.wf_server.specs.Runs.{command_meant, DoesAlone, DoesBy, HasEndedBy, HasRun};
ghost use Rattle.wf_server.specs.Runs.{IsServedOnce, IsWordsEnding, is_of_policy, is_on_threads};
ghost use Rattle.wf_server.specs.Runs.{takes_up};

use crate::going_on::run_resume;
use crate::serve::run_serve;
use crate::way::{ByTurns, OnLanes, Way};
use case_views::{CachingDecider, PlainDecider, SpreadDecider, VerdictCache};
use command_words::{Command, read_words};
use run_record::{Outside, Report, RunFault, bare_report};
use std::alloc::Global;
use std::sync::Wait;
use std::thread::Threads;
use transcript_commands::{AuditedSession, Earlier, run_audit};
use trial_command::run_trial;
use wf_commands::{
    PlanCommand, ResilienceCommand, ShowCommand, SolveCommand, answer_once, run_clauses, run_model,
};
use wf_desk::Desk;
use wf_lanes::{Gate, serve_by_lanes};
use wf_outside::{Shelf, Sink, Source};

/// Runs the command that the words are, which are those after the program's name. `serve` and
/// `resume` with two or more lanes run each lane on a thread of its own, and tell the gate of each
/// search that is about to begin; all else runs as `run_alone` does it. It may wait for its
/// threads.
pub fn run<R: Threads + Wait + Sync, F: Shelf, S: Source, K: Sink, G: Gate + Sync>(
    rt: &R,
    alloc: Global,
    words: &[String],
    gate: &G,
    shelf: &mut F,
    source: &mut S,
    sink: &mut K,
) -> Report
    ensures ended { HasEndedBy (command_meant words.now) result }
    ensures does { HasRun (may_repeat (command_meant words.now)) (command_meant words.now) (
        run_of F.file F.faults shelf.old shelf.new
        (streams_of S.left S.faults K.held K.faults source.old sink.old)
        (streams_of S.left S.faults K.held K.faults source.new sink.new) result) }
    ensures untouched { reads_input (command_meant words.now) ≡ false → source.new ≡ source.old }
    ensures once { takes_up (command_meant words.now) ≡ false
        → may_repeat (command_meant words.now) ≡ false
        → AreAnsweredOnce (told_by result).entries }
{
    let mut outside = Outside::new(alloc, shelf, source, sink);
    match read_command(alloc, words) {
        Ok(command) if is_on_threads(&command) => run_on_lanes(rt, gate, command, &mut outside),
        Ok(command) => run_command(&ByTurns::new(alloc), command, &mut outside),
        Err(fault) => bare_report(alloc, fault),
    }
}

// Runs a command with each lane of its session on a thread of its own, if it has one that is
// served.
fn run_on_lanes<R: Threads + Wait + Sync, F: Shelf, S: Source, K: Sink, G: Gate + Sync>(
    rt: &R,
    gate: &G,
    command: Command,
    outside: &mut Outside<'_, F, S, K>,
) -> Report
    requires served { CanServe command }
    requires lanes { is_on_threads (asked command) ≡ true }
    ensures ended { HasEnded outside.old outside.new result }
    ensures does { HasRun (may_repeat (Some (asked command.entry))) (Some (asked command.entry))
        (run_over F.file F.faults S.left S.faults K.held K.faults outside.old outside.new result) }
    ensures untouched { reads_input (Some (asked command.entry)) ≡ false
        → LeavesSource outside.old outside.new }
    ensures once { takes_up (Some (asked command.entry)) ≡ false
        → may_repeat (Some (asked command.entry)) ≡ false
        → AreAnsweredOnce (told_by result).entries }
{
    let alloc = outside.alloc;
    let found = VerdictCache::new(alloc);
    let on_lanes = |desk: Desk| -> Desk
        requires { (0 < desk.lanes) × AreOfLanes desk.lanes desk.jobs }
        ensures { HasGrown desk result × IsDone result }
    {
        let spread = SpreadDecider::new(rt);
        serve_by_lanes(rt, alloc, &CachingDecider::new(&spread, &found), gate, desk)
    };
    let way = OnLanes {
        rt,
        serve: &on_lanes,
    };
    run_command(&way, command, outside)
}

/// Runs the command that the words are, which are those after the program's name. It always
/// returns, starts no thread and waits for nothing: the lanes of `serve` and `resume` take turns.
pub fn run_alone<F: Shelf, S: Source, K: Sink>(
    alloc: Global,
    words: &[String],
    shelf: &mut F,
    source: &mut S,
    sink: &mut K,
) -> Report
    ensures ended { HasEndedBy (command_meant words.now) result }
    ensures does { HasRun false (command_meant words.now) (
        run_of F.file F.faults shelf.old shelf.new
        (streams_of S.left S.faults K.held K.faults source.old sink.old)
        (streams_of S.left S.faults K.held K.faults source.new sink.new) result) }
    ensures untouched { reads_input (command_meant words.now) ≡ false → source.new ≡ source.old }
    ensures once { takes_up (command_meant words.now) ≡ false
        → AreAnsweredOnce (told_by result).entries }
{
    let mut outside = Outside::new(alloc, shelf, source, sink);
    match read_command(alloc, words) {
        Ok(command) => run_command(&ByTurns::new(alloc), command, &mut outside),
        Err(fault) => bare_report(alloc, fault),
    }
}

// Whether each lane of a command's session runs on a thread: where there are two or more.
fn is_on_threads(command: &Command<'_>) -> bool
    ensures { result ≡ is_on_threads (asked command.now) }
{
    match command {
        Command::Serve { options, .. } | Command::Resume { options, .. } => options.lanes > 1,
        _ => false,
    }
}

// The command that the words are; a usage fault where they are none.
fn read_command<'a>(alloc: Global, words: &'a [String]) -> Result<Command<'a>, RunFault>
    ensures command { IfOk result (λ c. command_meant words.now ≡ Some (asked c)) }
    ensures served { IfOk result CanServe }
    ensures none { IfErr result (λ fault. fault ≡ RunFault.Usage
        → command_meant words.now ≡ None) }
    ensures fault { IfErr result IsWordsEnding }
{
    match read_words(alloc, words)? {
        Some(command) => Ok(command),
        None => Err(RunFault::Usage),
    }
}

// Runs a command; its session, if it has one that is served, in a way of serving.
fn run_command<F: Shelf, S: Source, K: Sink, W: Way>(
    way: &W,
    command: Command,
    outside: &mut Outside<'_, F, S, K>,
) -> Report
    requires way { W.ready way.now }
    requires served { CanServe command }
    ensures ended { HasEnded outside.old outside.new result }
    ensures does { DoesBy (W.leaves way.now) (asked command.entry) (run_over F.file F.faults
        S.left S.faults K.held K.faults outside.old outside.new result) }
    ensures untouched { reads_input (Some (asked command.entry)) ≡ false
        → LeavesSource outside.old outside.new }
    ensures once { takes_up (Some (asked command.entry)) ≡ false
        → IsServedOnce (W.leaves way.now) (asked command.entry)
        → AreAnsweredOnce (told_by result).entries }
{
    match command {
        Command::Serve { policy, options } => run_serve(way, policy, options, outside),
        Command::Audit {
            policy,
            requests,
            options,
        } => {
            let session = AuditedSession {
                policy,
                requests,
                lanes: options.lanes,
                rounds: options.rounds,
            };
            run_audit(&PlainDecider, session, outside)
        }
        Command::Resume {
            policy,
            requests,
            transcript,
            options,
        } => {
            let earlier = Earlier {
                policy,
                requests,
                transcript,
                lanes: options.lanes,
                rounds: options.rounds,
            };
            run_resume(way, earlier, outside)
        }
        Command::Trial { seed } => run_trial(outside.alloc, &PlainDecider, seed, outside.sink),
        other => run_once(other, outside),
    }
}

// Runs a command that is about a policy alone, with what may be in the input.
fn run_once<F: Shelf, S: Source, K: Sink>(
    command: Command,
    outside: &mut Outside<'_, F, S, K>,
) -> Report
    requires { is_of_policy (asked command) ≡ true }
    ensures ended { HasEnded outside.old outside.new result }
    ensures does { DoesAlone (asked command.entry) (run_over F.file F.faults S.left S.faults
        K.held K.faults outside.old outside.new result) }
    ensures untouched { reads_input (Some (asked command.entry)) ≡ false
        → LeavesSource outside.old outside.new }
    ensures once { AreAnsweredOnce (told_by result).entries }
{
    match command {
        Command::Plan { policy, flow } => { answer_once(policy, &PlanCommand { flow }, outside) }
        Command::Show { policy } => { answer_once(policy, &ShowCommand, outside) }
        Command::Solve { policy } => { answer_once(policy, &SolveCommand, outside) }
        Command::Resilience {
            policy,
            flow,
            absences,
        } => {
            let command = ResilienceCommand { flow, absences };
            answer_once(policy, &command, outside)
        }
        Command::Cnf {
            policy,
            flow,
            model: None,
        } => run_clauses(policy, flow, outside),
        Command::Cnf {
            policy,
            flow,
            model: Some(model),
        } => run_model(policy, flow, model, outside),
        _ => unreachable!(),
    }
}
