//! The command `now`: the policy after an entry, as a file.
ghost use Rattle.std.specs.Prelude.{◌≡◌, ◌+◌, ◌++◌, ◌||◌, IfOk, MatchOption, codes, min};
ghost use Rattle.std.specs.Prelude.{string_bytes, IfErr};
ghost use Rattle.wf_commands.specs.Answer.{AnswersAs, IsAnswerEnding};
ghost use Rattle.case_story.specs.Sessions.{IsBefore, IsServed};
ghost use Rattle.case_story.specs.Writing.{PrintsAfter};
ghost use Rattle.case_story.specs.Verdicts.{is_wrong, right_lines};
ghost use Rattle.case_story.specs.Printed.{Finds, TellsNow, verdict_line, is_asked_after, is_told};

use crate::answer::{answered, tell_by};
use crate::follow::{Quiet, follow_rest, follow_to};
use crate::place::Place;
use crate::printed::{Printed, print_policy};
use crate::session::Session;
use crate::verdict::Verdict;
use run_record::RunFault;
use std::alloc::{AllocError, Global};
use transcript_audit::Auditor;
use transcript_audit::laws::{audit_is_exact, faults_exclude, next_is_one, part_is_exact};
use wf_commands::Answer;

// The policy after some entries, and what the audit of all finds.
#[derive(Drop)]
struct After {
    verdict: Verdict,
    /// How many entries there are before it.
    number: u32,
    printed: Printed,
}

/// Tells the policy after the entry with a number, or after all that are right.
pub(crate) fn tell_now(alloc: Global, s: &Session, at: Option<u32>) -> Result<Answer, RunFault>
    requires served { IsServed s.now }
    ensures tells { AnswersAs (TellsNow at s.now) result }
    ensures ending { IfErr result IsAnswerEnding }
{
    let after = audit_now(alloc, s, most_of(at))?;
    if is_told(at, after.verdict) {
        let answer = write_now(alloc, &after)?;
        Ok(answer)
    } else {
        tell_by(alloc, "# ", after.verdict, "\n", false, "")
    }
}

// How many entries are wanted at most.
fn most_of(at: Option<u32>) -> u32
    ensures { MatchOption at (result ≡ 4294967295) (λ n. result ≡ min (n + 1) 4294967295) }
{
    match at {
        Some(n) => n.saturating_add(1),
        None => u32::MAX,
    }
}

fn is_told(at: Option<u32>, verdict: Verdict) -> bool
    ensures { result ≡ is_told at verdict }
{
    match verdict {
        Verdict::Legal(n) => is_among(at, n),
        Verdict::Fault(n, _) => is_among(at, n),
        Verdict::TooLong(_) => false,
    }
}

fn is_among(at: Option<u32>, n: u32) -> bool
    ensures { result ≡ is_asked_after at n }
{
    match at {
        Some(at) => at < n,
        None => true,
    }
}

// Audits all, and prints the policy after the first `most` entries, or after all that are right.
fn audit_now(alloc: Global, s: &Session, most: u32) -> Result<After, AllocError>
    requires served { IsServed s.now }
    ensures finds { IfOk result (λ r. Finds s.now r.verdict) }
    ensures number { IfOk result (λ r. r.number ≡ min most (right_lines r.verdict)) }
    ensures prints { IfOk result (λ r. PrintsAfter s.now r.number
        (string_bytes r.printed.remarks) r.printed.is_less (string_bytes r.printed.document)) }
{
    let mut auditor = s.auditor(alloc)?;
    audit_now_by(alloc, s, most, &mut auditor)
}

// The same by an audit before the first line.
fn audit_now_by(
    alloc: Global,
    s: &Session,
    most: u32,
    auditor: &mut Auditor,
) -> Result<After, AllocError>
    requires served { IsServed s.now }
    requires session { IsBefore s.now auditor.old }
    ensures finds { IfOk result (λ r. Finds s.now r.verdict) }
    ensures number { IfOk result (λ r. r.number ≡ min most (right_lines r.verdict)) }
    ensures prints { IfOk result (λ r. PrintsAfter s.now r.number
        (string_bytes r.printed.remarks) r.printed.is_less (string_bytes r.printed.document)) }
{
    audit_is_exact();
    faults_exclude();
    next_is_one();
    part_is_exact();
    let mut place = Place::start();
    let text = s.transcript.as_bytes();
    match follow_to(alloc, auditor, text, &mut place, most, &mut Quiet)? {
        Some(verdict) => {
            let printed = print_policy(alloc, auditor.board().policy())?;
            let number = place.number;
            Ok(After {
                verdict,
                number,
                printed,
            })
        }
        None => {
            let printed = print_policy(alloc, auditor.board().policy())?;
            let number = place.number;
            let verdict = follow_rest(alloc, auditor, text, &mut place, &mut Quiet)?;
            Ok(After {
                verdict,
                number,
                printed,
            })
        }
    }
}

// The policy, behind the lines that say what it is.
fn write_now(alloc: Global, after: &After) -> Result<Answer, AllocError>
    ensures found { IfOk result (λ a. a.found
        ≡ (is_wrong after.now.verdict || after.now.printed.is_less)) }
    ensures text { IfOk result (λ a. a.text.items
        ≡ verdict_line (codes "# ") after.now.verdict (codes "\n")
        ++ string_bytes after.now.printed.remarks ++ string_bytes after.now.printed.document) }
{
    let mut body = String::from_str(alloc, after.printed.remarks.as_str())?;
    body.push_str(after.printed.document.as_str())?;
    let answer = answered(alloc, "# ", after.verdict, "\n", body.as_str())?;
    Ok(Answer {
        found: after.verdict.is_wrong() || after.printed.is_less,
        text: answer.text,
    })
}
