//! What is given to a command: the workflow that is named, and the input.
ghost use Rattle.std.specs.Prelude.{◌≡◌, ◌<◌, length, None, Some, IfSome, IfErr, MatchResult};
ghost use Rattle.run_record.specs.Fault.{fault_in, CountsReadsAlone};
ghost use Rattle.wf_commands.specs.Given.{GivesInput, IsInputEnding};
ghost use Rattle.wf_commands.specs.Input.{number_named};
ghost use Rattle.wf_commands.specs.Once.{ReadsInput};

use policy_book::Policy;
use run_record::{InputFault, RunFault};
use std::alloc::Global;
use wf_names::{FlowId, Name};
use wf_outside::{LoadFault, Loaded, Source, take_all};

/// How many bytes of the input are taken at once.
const CHUNK: usize = 4_096;

/// The workflow with a name.
pub fn find_flow(p: &Policy, flow: &str) -> Result<FlowId, RunFault>
    ensures { MatchResult result
        (λ f. (number_named p.now.flow_names flow.now ≡ Some f) × (f < length p.now.flows))
        (λ fault. (number_named p.now.flow_names flow.now ≡ None)
        × (fault ≡ RunFault.BadInput InputFault.NoFlow)) }
{
    match Name::read(flow) {
        Some(name) => match p.find_flow(&name) {
            Some(f) => Ok(f),
            None => Err(RunFault::BadInput(InputFault::NoFlow)),
        },
        None => Err(RunFault::BadInput(InputFault::NoFlow)),
    }
}

/// All of the input, which is one line of at most `limit` bytes.
pub fn take_input<S: Source>(
    alloc: Global,
    source: &mut S,
    limit: usize,
) -> Result<Loaded, RunFault>
    ensures input { IfSome (S.left source.old) (λ input. GivesInput limit input result) }
    ensures ending { IfErr result IsInputEnding }
    ensures reads { CountsReadsAlone (fault_in result) (S.faults source.old) (S.faults source.new) }
    ensures taken { ReadsInput (Some limit) (fault_in result) (S.left source.old)
        (S.left source.new) }
{
    match take_all(alloc, source, limit, CHUNK) {
        Ok(input) => Ok(input),
        Err(LoadFault::Failed) => Err(RunFault::Read),
        Err(LoadFault::TooLong) => Err(RunFault::LineTooLong(0)),
        Err(LoadFault::NoMemory) => Err(RunFault::NoMemory),
    }
}
