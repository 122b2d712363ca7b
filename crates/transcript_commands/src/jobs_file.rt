//! Loading the requests.
ghost use Rattle.std.specs.Prelude.{◌<◌, ◌≤◌, IfErr, IfOk};
ghost use Rattle.wf_names.specs.declared.limits.TheConstants.{LANE_LIMIT, REQUESTS_FILE_LIMIT};
ghost use Rattle.line_reader.specs.Laws.{AreInOrder, AreNamedJobs};
ghost use Rattle.run_record.specs.Fault.{fault_in, CountsLoads};
ghost use Rattle.wf_commands.specs.Load.{EndsTooLong, IsLoadEnding};
ghost use Rattle.transcript_commands.specs.Loading.{GivesJobs};

use line_reader::{Batch, jobs_of};
use run_record::RunFault;
use std::alloc::Global;
use wf_commands::load_file;
use wf_names::REQUESTS_FILE_LIMIT;
use wf_outside::Shelf;

/// The jobs of a requests file, with the ends of their batches.
pub(crate) fn load_jobs<F: Shelf>(
    alloc: Global,
    shelf: &mut F,
    name: &str,
    lanes: u8,
) -> Result<Batch, RunFault>
    requires some { 0 < lanes }
    requires lanes { lanes ≤ LANE_LIMIT }
    ensures jobs { GivesJobs (F.file shelf.old name.now) lanes result }
    ensures order { IfOk result (λ batch. AreInOrder LANE_LIMIT batch.jobs batch.ends) }
    ensures named { IfOk result (λ batch. AreNamedJobs batch.jobs) }
    ensures ending { IfErr result IsLoadEnding }
    ensures long { EndsTooLong REQUESTS_FILE_LIMIT (F.file shelf.old name.now) (fault_in result) }
    ensures loads { CountsLoads (fault_in result) (F.faults shelf.old) (F.faults shelf.new) }
{
    let requests = load_file(alloc, shelf, name, REQUESTS_FILE_LIMIT)?;
    Ok(jobs_of(alloc, requests.as_bytes(), lanes)?)
}
