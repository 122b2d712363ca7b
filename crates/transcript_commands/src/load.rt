//! Loading the requests.
ghost use Rattle.std.specs.Prelude.{◌≡◌, ◌<◌, ◌≤◌, ℕ, List, IfErr, IfOk};
ghost use Rattle.wf_names.specs.declared.limits.TheConstants.{REQUESTS_FILE_LIMIT};
ghost use Rattle.wf_names.specs.declared.limits.TheConstants.{SESSION_LINE_LIMIT};
ghost use Rattle.line_reader.specs.Laws.{AreInOrder, AreNamedJobs};
ghost use Rattle.run_record.specs.Fault.{fault_in, CountsLoads};
ghost use Rattle.wf_commands.specs.Load.{IsLoadEnding};
ghost use Rattle.transcript_commands.specs.Load.{GivesCut};

use line_reader::{CutText, cut_text};
use run_record::RunFault;
use std::alloc::Global;
use wf_commands::load_file;
use wf_names::REQUESTS_FILE_LIMIT;
use wf_outside::Shelf;

/// The jobs of a requests file, with the ends of their batches, where a limit is met, and which
/// line comes next behind the file.
pub(crate) fn load_requests<F: Shelf>(
    alloc: Global,
    shelf: &mut F,
    name: &str,
    lanes: u8,
) -> Result<CutText, RunFault>
    requires { 0 < lanes }
    ensures cut { GivesCut (F.file shelf.old name.now) lanes result }
    ensures few { IfOk result (λ text. text.lines ≤ SESSION_LINE_LIMIT) }
    ensures order { IfOk result (λ text. AreInOrder lanes text.batch.jobs text.batch.ends) }
    ensures named { IfOk result (λ text. AreNamedJobs text.batch.jobs) }
    ensures ending { IfErr result IsLoadEnding }
    ensures loads { CountsLoads (fault_in result) (F.faults shelf.old) (F.faults shelf.new) }
    ensures kept { (n : List ℕ) → F.file shelf.new n ≡ F.file shelf.old n }
{
    let requests = load_file(alloc, shelf, name, REQUESTS_FILE_LIMIT)?;
    Ok(cut_text(alloc, requests.as_bytes(), lanes)?)
}
