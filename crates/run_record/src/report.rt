//! What a run tells.
ghost use Rattle.std.specs.Prelude.{◌≡◌};
ghost use Rattle.run_record.specs.Fault.{status_of};
ghost use Rattle.run_record.specs.Report.{nothing_told, told_by};

use crate::RunFault;
use std::alloc::Global;
use wf_talk::{Ends, Jobs, Journal};

/// What came of a run. The lists are of a session, and empty for every command that has none.
#[derive(Drop)]
pub struct Report {
    /// The status with which the program ends.
    pub status: u8,
    /// How the run ended.
    pub fault: RunFault,
    /// What was answered, in order.
    pub entries: Journal,
    /// What was asked, in the order of the lines.
    pub jobs: Jobs,
    /// For each batch that has a job, the count of jobs up to its end.
    pub batch_ends: Ends,
}

impl Report {
    /// The report of a session that ended with this fault, or with none: what was answered, what
    /// was asked, and the ends of the batches.
    pub fn new(fault: RunFault, entries: Journal, jobs: Jobs, batch_ends: Ends) -> Report
        ensures status { result.status ≡ status_of fault }
        ensures fault { result.fault ≡ fault }
        ensures told { told_by result ≡
            record { entries = entries.entries; jobs = jobs; batch_ends = batch_ends } }
    {
        Report {
            status: fault.status(),
            fault,
            entries,
            jobs,
            batch_ends,
        }
    }
}

/// The report of a run without a session.
pub fn bare_report(alloc: Global, fault: RunFault) -> Report
    ensures status { result.status ≡ status_of fault }
    ensures fault { result.fault ≡ fault }
    ensures told { told_by result ≡ nothing_told }
{
    Report::new(
        fault,
        Journal::new(alloc),
        Jobs::new(alloc),
        Ends::new(alloc),
    )
}
