//! How a run ends, with its status and its text.
ghost use Rattle.std.specs.Prelude.{◌≡◌, Some};
ghost use Rattle.run_record.specs.Fault.{status_of, reading_ended};
ghost use Rattle.run_record.specs.Fault.{fault_said};
ghost use Rattle.run_record.specs.declared.fault.RunFault.TheVariants.{NoMemory};

use policy_reader::{PolicyFault, ReadFault};
use std::alloc::AllocError;
use std::error::Error;
use std::fmt;

/// What is wrong with what is asked about, with the input of `plan` or `cnf`, or with a model.
#[derive(Clone, Copy, Debug)]
pub enum InputFault {
    /// The policy has no workflow of the name given.
    NoFlow,
    /// The input is no JSON array of texts; for `cnf`, of items that say where a step stands.
    Syntax,
    /// There is not one item for each step.
    Length,
    /// The item at this place, the least such, names no user.
    NoUser(u32),
    /// The word of the model at this place, the least such, is no number of a variable.
    Model(u32),
}

/// How a run ended. The text of each ending but the first two is printed to standard error.
#[derive(Clone, Copy, Debug)]
pub enum RunFault {
    /// The command was done.
    Nothing,
    /// The command was done, and found what it looks for: `plan` that the plan is not valid,
    /// `audit` a line of the transcript that has a fault or is missing, `resilience` users without
    /// whom the workflow cannot be done, `cnf` a clause that the model does not satisfy.
    Found,
    /// The words are none of the program's commands.
    Usage,
    /// The policy file has this fault.
    Policy(PolicyFault),
    /// The source failed.
    Read,
    /// The sink failed.
    Write,
    /// The shelf failed.
    Load,
    /// There was no memory.
    NoMemory,
    /// A file is longer than its limit.
    FileTooLong,
    /// A line is longer than its limit; for `plan` and `cnf` the whole input counts as line 0.
    LineTooLong(u32),
    /// There are more lines than a session may have.
    TooManyLines,
    /// What is asked about, the input or the model has this fault.
    BadInput(InputFault),
    /// The clauses of `cnf` have too many literals.
    TooLarge,
}

impl fmt::Display for RunFault {
    ghost output = { λ fault. Some (fault_said fault) };

    fn fmt<W: fmt::Write>(&self, f: &mut fmt::Formatter<W>) -> fmt::Result {
        match self {
            RunFault::Nothing => f.write_str("wfserve: done"),
            RunFault::Found => f.write_str("wfserve: found"),
            RunFault::Usage => f.write_str("wfserve: usage"),
            RunFault::Policy(fault) => write!(f, "wfserve: policy {fault}"),
            RunFault::Read => f.write_str("wfserve: read fault"),
            RunFault::Write => f.write_str("wfserve: write fault"),
            RunFault::Load => f.write_str("wfserve: load fault"),
            RunFault::NoMemory => f.write_str("wfserve: no memory"),
            RunFault::FileTooLong => f.write_str("wfserve: file too long"),
            RunFault::LineTooLong(line) => write!(f, "wfserve: line {line} too long"),
            RunFault::TooManyLines => f.write_str("wfserve: too many lines"),
            RunFault::BadInput(_) => f.write_str("wfserve: bad input"),
            RunFault::TooLarge => f.write_str("wfserve: too large"),
        }
    }
}

impl Error for RunFault {}

impl RunFault {
    /// The status with which the program ends.
    pub fn status(&self) -> u8
        ensures { result ≡ status_of self.now }
    {
        match self {
            RunFault::Nothing => 0,
            RunFault::Found => 1,
            RunFault::Usage => 2,
            RunFault::Policy(_) => 3,
            RunFault::Read => 4,
            RunFault::Write => 5,
            RunFault::Load => 6,
            RunFault::NoMemory => 7,
            RunFault::FileTooLong => 8,
            RunFault::LineTooLong(_) => 9,
            RunFault::TooManyLines => 10,
            RunFault::BadInput(_) => 11,
            RunFault::TooLarge => 12,
        }
    }
}

impl From<AllocError> for RunFault {
    ghost from_gives = { λ _ fault. fault ≡ NoMemory };

    fn from(_: AllocError) -> Self {
        RunFault::NoMemory
    }
}

impl From<ReadFault> for RunFault {
    ghost from_gives = { λ e fault. fault ≡ reading_ended e };

    fn from(e: ReadFault) -> Self {
        match e {
            ReadFault::Policy(fault) => RunFault::Policy(fault),
            ReadFault::NoMemory => RunFault::NoMemory,
        }
    }
}
