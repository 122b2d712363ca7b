//! What an audit finds, and the line that says it.
ghost use Rattle.std.specs.Prelude.{◌≡◌, ◌++◌, ◌-◌, IfOk, OnOk, codes, decimal, string_bytes};
ghost use Rattle.case_story.specs.Verdicts.{fault_words, is_wrong, kind_words, legal_words};
ghost use Rattle.case_story.specs.Verdicts.{right_lines, state_words, up_to, verdict_words};

use std::alloc::{AllocError, Global};
use transcript_audit::AuditKind;

/// What an audit finds in a transcript.
#[derive(Clone, Copy)]
pub enum Verdict {
    /// It is the transcript of a legal session, with this number of entries.
    Legal(u32),
    /// The line with this number is the first that has a fault, and which one.
    Fault(u32, AuditKind),
    /// The line with this number is too long, and none before it has a fault.
    TooLong(u32),
}

impl Verdict {
    /// How many lines are told: those before a fault, or all.
    pub(crate) fn right_lines(&self) -> u32
        ensures { result ≡ right_lines self.now }
    {
        match self {
            Verdict::Legal(n) => *n,
            Verdict::Fault(n, _) => *n,
            Verdict::TooLong(n) => *n,
        }
    }

    /// Whether there is a fault.
    pub(crate) fn is_wrong(&self) -> bool
        ensures { result ≡ is_wrong self.now }
    {
        match self {
            Verdict::Legal(_) => false,
            Verdict::Fault(_, _) => true,
            Verdict::TooLong(_) => true,
        }
    }

    /// Adds what is found, in words.
    pub(crate) fn push_words(&self, out: &mut String) -> Result<(), AllocError>
        ensures { OnOk result (string_bytes out.new
            ≡ string_bytes out.old ++ verdict_words self.now) }
    {
        match self {
            Verdict::Legal(n) => push_legal(out, *n),
            Verdict::Fault(n, kind) => push_fault(out, *n, *kind),
            Verdict::TooLong(_) => Ok(()),
        }
    }
}

fn push_legal(out: &mut String, n: u32) -> Result<(), AllocError>
    ensures { OnOk result (string_bytes out.new ≡ string_bytes out.old ++ legal_words n) }
{
    if n == 1 {
        out.push_str("audited: legal, 1 entry")
    } else {
        write!(out, "audited: legal, {n} entries")
    }
}

fn push_fault(out: &mut String, n: u32, kind: AuditKind) -> Result<(), AllocError>
    ensures { OnOk result (string_bytes out.new
        ≡ string_bytes out.old ++ fault_words n kind ++ up_to n) }
{
    write!(out, "audited: line {n}")?;
    out.push_str(state_words(kind))?;
    out.push_str(kind_words(kind))?;
    out.push_str(")")?;
    push_up_to(out, n)
}

fn state_words(kind: AuditKind) -> &'static str
    ensures { result.now ≡ state_words kind }
{
    match kind {
        AuditKind::Missing => " is missing (",
        _ => " is wrong (",
    }
}

// Adds up to which line all is right, if there is one.
fn push_up_to(out: &mut String, n: u32) -> Result<(), AllocError>
    ensures { OnOk result (string_bytes out.new ≡ string_bytes out.old ++ up_to n) }
{
    if n > 0 {
        let last = last_words(*out.allocator(), n - 1)?;
        out.push_str(last.as_str())?;
    }
    Ok(())
}

fn last_words(alloc: Global, last: u32) -> Result<String, AllocError>
    ensures { IfOk result (λ text. string_bytes text
        ≡ codes "; up to line " ++ decimal last ++ codes " all is as told") }
{
    format!(in alloc; "; up to line {last} all is as told")
}

fn kind_words(kind: AuditKind) -> &'static str
    ensures { result.now ≡ kind_words kind }
{
    match kind {
        AuditKind::Text => "it does not end with a line feed, or tells no reply to its request",
        AuditKind::At => "the place that it tells is not the one where it stands",
        AuditKind::Job => "it does not answer the next request of its lane",
        AuditKind::Reply => "its reply is none that the server may give here",
        AuditKind::Missing => "a request has no entry",
    }
}
