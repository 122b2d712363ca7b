//! The audit of a whole transcript.
ghost use Rattle.std.specs.Prelude.{◌≡◌, IfOk};
ghost use Rattle.line_reader.specs.Reader.{lines_of};
ghost use Rattle.transcript_audit.specs.Laws.{AreOfSession};
ghost use Rattle.case_story.specs.Sessions.{IsServed, audit_in, cut_in};
ghost use Rattle.case_story.specs.Followed.{StopsAudit};
ghost use Rattle.case_story.specs.Verdicts.{EndsInVerdict, right_lines};

use crate::follow::{Watches, follow_rest};
use crate::place::Place;
use crate::session::Session;
use crate::verdict::Verdict;
use std::alloc::{AllocError, Global};
use transcript_audit::Auditor;
use transcript_audit::laws::{audit_is_exact, faults_exclude, next_is_one};

/// An audit that is done.
#[derive(Drop)]
pub(crate) struct Audited {
    /// What is found.
    pub verdict: Verdict,
    /// The audit behind the last line that is right.
    pub auditor: Auditor,
    /// Where the lines end that are right.
    pub place: Place,
}

/// Audits all lines.
pub(crate) fn audit_whole<W: Watches>(
    alloc: Global,
    s: &Session,
    watcher: &mut W,
) -> Result<Audited, AllocError>
    requires served { IsServed s.now }
    ensures verdict { IfOk result (λ r.
        EndsInVerdict (audit_in s.now) (lines_of s.now.transcript) r.verdict) }
    ensures session { IfOk result (λ _. AreOfSession s.now.policy s.now.rounds
        (cut_in s.now).jobs (cut_in s.now).ends) }
    ensures stopped { IfOk result (λ r.
        StopsAudit (audit_in s.now) r.auditor s.now.transcript (right_lines r.verdict)) }
{
    audit_is_exact();
    faults_exclude();
    next_is_one();
    let mut auditor = s.auditor(alloc)?;
    let mut place = Place::start();
    let text = s.transcript.as_bytes();
    match follow_rest(alloc, &mut auditor, text, &mut place, watcher) {
        Ok(verdict) => Ok(Audited {
            verdict,
            auditor,
            place,
        }),
        Err(e) => Err(e),
    }
}
