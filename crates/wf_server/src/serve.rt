//! The command `serve`: it answers the requests in the input.
ghost use Rattle.std.specs.Prelude.{◌≡◌, false};
ghost use Rattle.run_record.specs.Fault.{status_of, is_before_input};
ghost use Rattle.run_record.specs.Report.{told_by, HasEnded};
ghost use Rattle.run_record.specs.Laws.Run.{run_over, streams_of};
ghost use Rattle.policy_reader.specs.File.{IsFilePolicy};
ghost use Rattle.wf_board.specs.Laws.Histories.{AreAnsweredOnce};
ghost use Rattle.command_words.specs.Laws.Words.{AreOptions};
ghost use Rattle.command_words.specs.Command.{options_in};
ghost use Rattle.wf_server.specs.Serve.{HasServedPolicy};
ghost use Rattle.wf_server.specs.Laws.Serving.{ServesRun};
ghost use Rattle.wf_server.specs.Ways.{ServesOnce};

use crate::session::run_session;
use crate::way::Way;
use command_words::Options;
use entry_laws::lines_fit;
use entry_reader::know_names;
use line_reader::{jobs_are_in_order, jobs_stay_named};
use policy_book::Policy;
use run_record::{Outside, Report, bare_report};
use std::alloc::Global;
use wf_board::laws::{histories_are_exact, histories_keep_completable};
use wf_commands::load_policy;
use wf_outside::{Shelf, Sink, Source};

/// How many bytes of the input are taken at once.
const PIECE: usize = 65_536;

/// Answers the requests in the input under the policy in a file, in a way of serving.
pub(crate) fn run_serve<F: Shelf, S: Source, K: Sink, W: Way>(
    way: &W,
    policy: &str,
    options: Options,
    outside: &mut Outside<'_, F, S, K>,
) -> Report
    requires way { W.ready way.now }
    requires options { AreOptions (options_in options) }
    ensures ended { HasEnded outside.old outside.new result }
    ensures serves { ServesRun policy.now (options_in options) (
        run_over F.file F.faults S.left S.faults K.held K.faults outside.old outside.new result) }
    ensures once { ServesOnce (W.leaves way.now) → AreAnsweredOnce (told_by result).entries }
    ensures no_rounds { options.rounds ≡ 0 → AreAnsweredOnce (told_by result).entries }
{
    let alloc = outside.alloc;
    match load_policy(alloc, outside.shelf, policy) {
        Ok(p) => serve_policy(alloc, way, p, options, outside.source, outside.sink),
        Err(fault) => bare_report(alloc, fault),
    }
}

// The session of a policy.
fn serve_policy<S: Source, K: Sink, W: Way>(
    alloc: Global,
    way: &W,
    policy: Policy,
    options: Options,
    source: &mut S,
    sink: &mut K,
) -> Report
    requires way { W.ready way.now }
    requires options { AreOptions (options_in options) }
    requires file { IsFilePolicy policy }
    ensures served { HasServedPolicy policy (options_in options)
        (streams_of S.left S.faults K.held K.faults source.old sink.old)
        (streams_of S.left S.faults K.held K.faults source.new sink.new)
        (told_by result) result.fault }
    ensures once { ServesOnce (W.leaves way.now) → AreAnsweredOnce (told_by result).entries }
    ensures late { is_before_input result.fault ≡ false }
    ensures status { result.status ≡ status_of result.fault }
{
    let _ = policy.admin();
    know_names(&policy);
    histories_keep_completable();
    histories_are_exact();
    jobs_are_in_order(options.lanes);
    jobs_stay_named();
    lines_fit();
    run_session(alloc, way, policy, options, PIECE, source, sink)
}
