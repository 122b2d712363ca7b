//! Auditing the lines of a transcript.
ghost use Rattle.std.specs.Prelude.{◌≡◌, ◌<◌, ◌≤◌, length, drop, None, IfErr, IfOk, OnOk};
ghost use Rattle.line_reader.specs.Reader.{lines_of};
ghost use Rattle.transcript_commands.specs.Auditing.{FailsIn, HasTakenAll, HasTakenFirst};

use crate::lines::first_len;
use std::alloc::Global;
use transcript_audit::{AuditFault, Auditor};
use wf_board::Decider;

/// Audits the lines of a text.
pub(crate) fn take_lines<V: Decider>(
    alloc: Global,
    decider: &V,
    auditor: &mut Auditor,
    text: &[u8],
) -> Result<(), AuditFault>
    requires ready { V.ready decider.now }
    requires going { auditor.old.fault ≡ None }
    ensures taken { OnOk result (HasTakenAll auditor.old auditor.new (lines_of text.now)) }
    ensures fails { IfErr result (FailsIn auditor.old (lines_of text.now)) }
{
    let mut at = 0;
    'taking: while at < text.len() {
        at += take_first(alloc, decider, auditor, &text[at..])?;
    }
    Ok(())
}

// Audits the first line of a text. Answers how many bytes it has.
fn take_first<V: Decider>(
    alloc: Global,
    decider: &V,
    auditor: &mut Auditor,
    text: &[u8],
) -> Result<usize, AuditFault>
    requires ready { V.ready decider.now }
    requires going { auditor.old.fault ≡ None }
    requires some { 0 < length text.now }
    ensures some { IfOk result (λ n. 0 < n) }
    ensures within { IfOk result (λ n. n ≤ length text.now) }
    ensures taken { IfOk result (λ n. HasTakenFirst auditor.old auditor.new text.now
        (drop n text.now)) }
    ensures fails { IfErr result (FailsIn auditor.old (lines_of text.now)) }
{
    let count = first_len(text);
    match auditor.line(alloc, decider, &text[..count]) {
        Ok(()) => Ok(count),
        Err(fault) => Err(fault),
    }
}
