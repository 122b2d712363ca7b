//! The run of the command.
ghost use Rattle.std.specs.Prelude.{◌≡◌, false};
ghost use Rattle.run_record.specs.Fault.{is_before_input, status_of};
ghost use Rattle.run_record.specs.Report.{told_by};
ghost use Rattle.trial_command.specs.Run.{RunsTrial};
ghost use Rattle.trial_command.specs.Serving.{trial_told};

use crate::session::{Served, serve_trial};
use crate::summary::summary_of;
use run_record::{Report, RunFault, bare_report};
use std::alloc::Global;
use wf_board::Decider;
use wf_outside::{Sink, put_and_flush};

/// Serves the trial of a seed by turns, and writes its summary. The report has the jobs and the
/// entries, unless memory was refused: then nothing is written.
pub fn run_trial<V: Decider, K: Sink>(alloc: Global, decider: &V, seed: u64, sink: &mut K) -> Report
    requires ready { V.ready decider.now }
    ensures status { result.status ≡ status_of result.fault }
    ensures late { is_before_input result.fault ≡ false }
    ensures runs { RunsTrial seed (record {
      output = K.held sink.old;
      output_after = K.held sink.new;
      faults = K.faults sink.old;
      faults_after = K.faults sink.new;
      told = told_by result;
      fault = result.fault;
    }) }
{
    let Ok(served) = serve_trial(alloc, decider, seed) else {
        return bare_report(alloc, RunFault::NoMemory);
    };
    let Ok(line) = summary_of(alloc, seed, &served) else {
        return bare_report(alloc, RunFault::NoMemory);
    };
    match put_and_flush(sink, line.as_bytes()) {
        Ok(()) => report_of(RunFault::Nothing, served),
        Err(_) => report_of(RunFault::Write, served),
    }
}

// The report of a session that ended so.
fn report_of(fault: RunFault, served: Served) -> Report
    ensures status { result.status ≡ status_of fault }
    ensures fault { result.fault ≡ fault }
    ensures told { told_by result ≡ trial_told served }
{
    let Served {
        entries,
        jobs,
        batch_ends,
    } = served;
    Report::new(fault, entries, jobs, batch_ends)
}
