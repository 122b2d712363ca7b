//! How the program ends.
ghost use Rattle.std.specs.Prelude.{◌≡◌, OnOk};
ghost use Rattle.std.specs.Io.KnownBytes.{Appends};
ghost use Rattle.std.specs.Process.{exit_status};
ghost use Rattle.run_record.specs.Fault.{status_of};
ghost use Rattle.wf_system.specs.Ending.{has_text, told_text};

use run_record::RunFault;
use std::io;
use std::io::Write;
use std::process::ExitCode;

/// Writes the text of a run that failed to standard error, and gives the status. The status tells
/// even where standard error is closed.
pub fn end<W: Write>(errors: &mut W, fault: RunFault) -> ExitCode
    ensures { exit_status result ≡ status_of fault }
{
    let _ = write_ending(errors, &fault);
    ExitCode::from(fault.status())
}

/// Writes the text of an ending and a line end, where it has a text.
pub fn write_ending<W: Write>(errors: &mut W, fault: &RunFault) -> io::Result<()>
    ensures { OnOk result (Appends (W.contents errors.old) (W.contents errors.new)
        (told_text fault.now)) }
{
    if !is_told(fault) {
        return Ok(());
    }
    writeln!(errors, "{fault}")
}

// Whether an ending has a text.
fn is_told(fault: &RunFault) -> bool
    ensures { result ≡ has_text fault.now }
{
    !matches!(fault, RunFault::Nothing | RunFault::Found)
}
