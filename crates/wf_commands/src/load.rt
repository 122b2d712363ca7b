//! Loading a file, and the policy.
ghost use Rattle.std.specs.Prelude.{◌≡◌, ℕ, List, IfErr, IfOk};
ghost use Rattle.wf_names.specs.declared.limits.TheConstants.{POLICY_FILE_LIMIT};
ghost use Rattle.policy_reader.specs.File.{IsFilePolicy};
ghost use Rattle.policy_reader.specs.Laws.Printable.{IsPrintable};
ghost use Rattle.run_record.specs.Fault.{fault_in, CountsLoads};
ghost use Rattle.wf_commands.specs.Load.{EndsTooLong, GivesBytes, GivesPolicy, IsLoadEnding};

use policy_book::Policy;
use run_record::RunFault;
use std::alloc::Global;
use wf_names::POLICY_FILE_LIMIT;
use wf_outside::{LoadFault, Loaded, Shelf};

/// The policy in a file of the shelf, for a command that names one.
pub fn load_policy<F: Shelf>(alloc: Global, shelf: &mut F, name: &str) -> Result<Policy, RunFault>
    ensures policy { GivesPolicy (F.file shelf.old name.now) result }
    ensures printable { IfOk result IsPrintable }
    ensures sound { IfOk result IsFilePolicy }
    ensures ending { IfErr result IsLoadEnding }
    ensures named { EndsTooLong POLICY_FILE_LIMIT (F.file shelf.old name.now) (fault_in result) }
    ensures loads { CountsLoads (fault_in result) (F.faults shelf.old) (F.faults shelf.new) }
    ensures kept { (n : List ℕ) → F.file shelf.new n ≡ F.file shelf.old n }
{
    let file = load_file(alloc, shelf, name, POLICY_FILE_LIMIT)?;
    Ok(policy_reader::read(alloc, file.as_bytes())?)
}

/// The bytes of a file of the shelf, of which there are at most `limit`.
pub fn load_file<F: Shelf>(
    alloc: Global,
    shelf: &mut F,
    name: &str,
    limit: usize,
) -> Result<Loaded, RunFault>
    ensures bytes { GivesBytes limit (F.file shelf.old name.now) result }
    ensures ending { IfErr result IsLoadEnding }
    ensures named { EndsTooLong limit (F.file shelf.old name.now) (fault_in result) }
    ensures loads { CountsLoads (fault_in result) (F.faults shelf.old) (F.faults shelf.new) }
    ensures kept { (n : List ℕ) → F.file shelf.new n ≡ F.file shelf.old n }
{
    match shelf.load(alloc, name, limit) {
        Ok(file) => Ok(file),
        Err(LoadFault::Failed) => Err(RunFault::Load),
        Err(LoadFault::TooLong) => Err(RunFault::FileTooLong),
        Err(LoadFault::NoMemory) => Err(RunFault::NoMemory),
    }
}
