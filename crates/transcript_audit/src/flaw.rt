//! Why one line is not taken.
ghost use Rattle.std.specs.Prelude.{◌≡◌};
ghost use Rattle.transcript_audit.specs.Keeping.{flaw_of_text};

use crate::AuditKind;
use basics::Fault;
use entry_reader::{NotText, TextFault};

/// Why a line is not taken: what is wrong with it, or that an allocation was refused.
pub(crate) type Flaw = Fault<AuditKind>;

/// Why a line is not taken whose text was not read.
pub(crate) fn flaw_of_text(fault: TextFault) -> Flaw
    ensures { result ≡ flaw_of_text fault }
{
    match fault {
        Fault::Cause(NotText) => Fault::Cause(AuditKind::Text),
        Fault::NoMemory => Fault::NoMemory,
    }
}
