//! The command `policy`: the first fault of a policy file, or what is probably not meant.
ghost use Rattle.std.specs.Prelude.{◌≡◌, ℕ, List, Ok, IfErr, IfOk};
ghost use Rattle.policy_reader.specs.Files.{policy_of_file};
ghost use Rattle.run_record.specs.Fault.{fault_in, CountsLoads, CountsWrites};
ghost use Rattle.wf_commands.specs.Load.{IsLoadEnding};
ghost use Rattle.tell_run.specs.Policy.{FindsBytes, JudgesFile, JudgesFiled};

use crate::planless::{either, push_planless};
use plain_words::{fault_text, push_advice};
use policy_book::Policy;
use policy_reader::ReadFault;
use run_record::RunFault;
use std::alloc::{AllocError, Global};
use wf_commands::{Answer, load_file};
use wf_names::POLICY_FILE_LIMIT;
use wf_outside::{Shelf, Sink, put_and_flush};

/// Tells of a policy file, and gives how the run ends.
pub(crate) fn run_policy<F: Shelf, K: Sink>(
    alloc: Global,
    policy: &str,
    shelf: &mut F,
    sink: &mut K,
) -> RunFault
    ensures judges { JudgesFiled policy.now (F.file shelf.old) (K.held sink.old) (K.held sink.new)
        result }
    ensures loads { CountsLoads result (F.faults shelf.old) (F.faults shelf.new) }
    ensures writes { CountsWrites result (K.faults sink.old) (K.faults sink.new) }
{
    match load_and_tell(alloc, policy, shelf) {
        Ok(answer) => match put_and_flush(sink, answer.text.as_slice()) {
            Ok(()) => answer.ending(),
            Err(_) => RunFault::Write,
        },
        Err(fault) => fault,
    }
}

// What is to be told of a policy file.
fn load_and_tell<F: Shelf>(alloc: Global, policy: &str, shelf: &mut F) -> Result<Answer, RunFault>
    ensures judges { FindsBytes (F.file shelf.old policy.now) result }
    ensures ending { IfErr result IsLoadEnding }
    ensures loads { CountsLoads (fault_in result) (F.faults shelf.old) (F.faults shelf.new) }
{
    let file = load_file(alloc, shelf, policy, POLICY_FILE_LIMIT)?;
    Ok(tell_file(alloc, policy, file.as_bytes())?)
}

// What is to be told of the bytes of a policy file.
fn tell_file(alloc: Global, policy: &str, bytes: &[u8]) -> Result<Answer, AllocError>
    ensures { IfOk result (λ answer. JudgesFile bytes.now answer.found) }
{
    match policy_reader::read(alloc, bytes) {
        Ok(p) => tell_policy(alloc, policy, &p),
        Err(fault) => tell_fault(alloc, policy, bytes, &fault),
    }
}

// Why the bytes of a file are no policy.
fn tell_fault(
    alloc: Global,
    policy: &str,
    bytes: &[u8],
    fault: &ReadFault,
) -> Result<Answer, AllocError>
    ensures { IfOk result (λ answer. JudgesFile bytes.now answer.found) }
{
    match fault {
        ReadFault::Policy(fault) => Ok(Answer {
            found: true,
            text: fault_text(alloc, policy, bytes, fault)?.into_bytes(),
        }),
        ReadFault::NoMemory => Err(AllocError),
    }
}

// What is probably not meant by a policy, and which workflows cannot be done.
fn tell_policy(alloc: Global, policy: &str, p: &Policy) -> Result<Answer, AllocError>
    ensures { IfOk result (λ answer. (file : List ℕ) → policy_of_file file ≡ Ok p.now
        → JudgesFile file answer.found) }
{
    let front = format!(in alloc; "{policy}: ")?;
    let mut text = String::new(alloc);
    let found = push_all(alloc, &mut text, front.as_str(), p)?;
    Ok(Answer {
        found,
        text: text.into_bytes(),
    })
}

// Adds all lines; whether there is something to tell.
fn push_all(alloc: Global, out: &mut String, front: &str, p: &Policy) -> Result<bool, AllocError>
    ensures { IfOk result (λ found. (file : List ℕ) → policy_of_file file ≡ Ok p.now
        → JudgesFile file found) }
{
    push_advice(out, front, p)?;
    let lacks = push_planless(alloc, out, front, p)?;
    let tells = !out.is_empty();
    let found = either(lacks, tells);
    push_nothing(out, front, found)?;
    Ok(found)
}

fn push_nothing(out: &mut String, front: &str, found: bool) -> Result<(), AllocError> {
    if found {
        return Ok(());
    }
    out.push_str(front)?;
    out.push_str("nothing to tell\n")
}
