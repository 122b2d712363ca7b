//! How a run ends.
ghost use Rattle.std.specs.Prelude.{◌≡◌};
ghost use Rattle.std.specs.Process.{exit_status};
ghost use Rattle.run_record.specs.Fault.{status_of};

use run_record::{InputFault, RunFault};
use std::io;
use std::io::Write;
use std::process::ExitCode;

/// How a run ended, and what standard error is told where its words are no command.
#[derive(Drop)]
pub struct Ended {
    pub fault: RunFault,
    pub usage: String,
}

/// Tells standard error why a run failed, and gives the status. The status tells even where
/// standard error is closed.
pub fn end<W: Write>(errors: &mut W, ended: &Ended) -> ExitCode
    ensures { exit_status result ≡ status_of ended.now.fault }
{
    let _ = write_ending(errors, ended);
    ExitCode::from(ended.fault.status())
}

fn write_ending<W: Write>(errors: &mut W, ended: &Ended) -> io::Result<()> {
    write!(errors, "{}", ended.usage)?;
    match words_of(&ended.fault) {
        "" => Ok(()),
        words => writeln!(errors, "wftell: {words}"),
    }
}

// Why a run failed; empty where it did not, and where its words tell it.
fn words_of(fault: &RunFault) -> &'static str {
    match fault {
        RunFault::Nothing | RunFault::Found | RunFault::Usage => "",
        RunFault::Policy(_) => "the policy file has a fault; wftell policy tells where",
        RunFault::Read => "read fault",
        RunFault::Write => "write fault",
        RunFault::Load => "load fault",
        RunFault::NoMemory => "no memory",
        RunFault::FileTooLong => "file too long",
        RunFault::LineTooLong(_) => "line too long",
        RunFault::TooManyLines => "too many lines",
        RunFault::BadInput(InputFault::NoFlow) => "the policy has no workflow of this name",
        RunFault::BadInput(_) => "the transcript has no entry or no case of this number",
        RunFault::TooLarge => "too large",
    }
}
