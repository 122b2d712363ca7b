//! Why a session does not go on.
ghost use Rattle.std.specs.Prelude.{◌≡◌};
ghost use Rattle.run_record.specs.declared.fault.RunFault.TheVariants.{NoMemory};
ghost use Rattle.transcript_commands.specs.declared.refusal.Refusal.TheVariants.{Ends};
ghost use Rattle.transcript_commands.specs.Refusal.{refused_by};

use run_record::RunFault;
use std::alloc::AllocError;
use transcript_audit::{AuditFault, AuditKind};

/// Why a run ends before its session goes on.
#[derive(Clone, Copy)]
pub enum Refusal {
    /// The run ends so, and nothing is written.
    Ends(RunFault),
    /// The line of the transcript with this number, counted from 0, is the first that is none of
    /// such a session, and what is wrong with it.
    Line(u32, AuditKind),
}

impl From<RunFault> for Refusal {
    ghost from_gives = { λ e refusal. refusal ≡ Ends e };

    fn from(e: RunFault) -> Self {
        Refusal::Ends(e)
    }
}

impl From<AllocError> for Refusal {
    ghost from_gives = { λ _ refusal. refusal ≡ Ends NoMemory };

    fn from(_: AllocError) -> Self {
        Refusal::Ends(RunFault::NoMemory)
    }
}

impl From<AuditFault> for Refusal {
    ghost from_gives = { λ e refusal. refusal ≡ refused_by e };

    fn from(e: AuditFault) -> Self {
        match e {
            AuditFault::At(n, kind) => Refusal::Line(n, kind),
            AuditFault::NoMemory => Refusal::Ends(RunFault::NoMemory),
        }
    }
}
