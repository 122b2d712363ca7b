//! What an audit finds.
ghost use Rattle.std.specs.Prelude.{◌≡◌, ◌++◌, IfOk, codes, decimal, string_bytes};
ghost use Rattle.transcript_commands.specs.Finding.{audit_fault_line, audit_kind_word, ending_of};
ghost use Rattle.transcript_commands.specs.Finding.{finding_text};

use run_record::RunFault;
use std::alloc::{AllocError, Global};
use transcript_audit::AuditKind;

/// What an audit finds in a transcript.
#[derive(Clone, Copy)]
pub(crate) enum Finding {
    /// It is the transcript of a legal session.
    Legal,
    /// The line with this number is the first that has a fault, and which one.
    Fault(u32, AuditKind),
    /// The line with this number is too long, and none before it has a fault.
    TooLong(u32),
}

impl Finding {
    /// How a run ends that has found this.
    pub(crate) fn ending(&self) -> RunFault
        ensures { result ≡ ending_of self.now }
    {
        match self {
            Finding::Legal => RunFault::Nothing,
            Finding::Fault(_, _) => RunFault::Found,
            Finding::TooLong(n) => RunFault::LineTooLong(*n),
        }
    }

    /// What is written.
    pub(crate) fn text(&self, alloc: Global) -> Result<String, AllocError>
        ensures { IfOk result (λ text. string_bytes text ≡ finding_text self.now) }
    {
        match self {
            Finding::Legal => String::from_str(alloc, "legal\n"),
            Finding::Fault(n, kind) => fault_text(alloc, *n, *kind),
            Finding::TooLong(_) => Ok(String::new(alloc)),
        }
    }
}

/// The line that tells that the line with this number is the first that has a fault, and which one.
pub fn fault_text(alloc: Global, n: u32, kind: AuditKind) -> Result<String, AllocError>
    ensures { IfOk result (λ text. string_bytes text ≡ audit_fault_line n kind) }
{
    let mut text = fault_start(alloc, n)?;
    text.push_str(kind_word(kind))?;
    text.push_str("\n")?;
    Ok(text)
}

// The line up to the kind.
fn fault_start(alloc: Global, n: u32) -> Result<String, AllocError>
    ensures { IfOk result (λ text. string_bytes text ≡ codes "fault " ++ decimal n ++ codes " ") }
{
    format!(in alloc; "fault {n} ")
}

fn kind_word(kind: AuditKind) -> &'static str
    ensures { result.now ≡ audit_kind_word kind }
{
    match kind {
        AuditKind::Text => "text",
        AuditKind::At => "at",
        AuditKind::Job => "job",
        AuditKind::Reply => "reply",
        AuditKind::Missing => "missing",
    }
}
