//! What every command tells: its first line says what the audit finds.
ghost use Rattle.std.specs.Prelude.{◌≡◌, ◌++◌, IfOk, OnOk, string_bytes, IfErr};
ghost use Rattle.wf_commands.specs.Answer.{AnswersAs, IsAnswerEnding};
ghost use Rattle.case_story.specs.Verdicts.{is_wrong, verdict_words};
ghost use Rattle.case_story.specs.Printed.{TellsBy, verdict_line};

use crate::place::Place;
use crate::verdict::Verdict;
use run_record::{InputFault, RunFault};
use std::alloc::{AllocError, Global};
use transcript_audit::AuditKind;
use transcript_commands::first_len;
use wf_commands::Answer;

/// How many bytes of a line are shown at most.
const SHOWN: usize = 200;

/// What is told by a verdict: behind its line this text, if what is asked for is there.
pub(crate) fn tell_by(
    alloc: Global,
    mark: &str,
    verdict: Verdict,
    end: &str,
    is_there: bool,
    body: &str,
) -> Result<Answer, RunFault>
    ensures tells { AnswersAs (TellsBy mark.now verdict end.now is_there) result }
    ensures ending { IfErr result IsAnswerEnding }
{
    match verdict {
        Verdict::TooLong(n) => Err(RunFault::LineTooLong(n)),
        Verdict::Fault(n, kind) => {
            let answer = answered(alloc, mark, Verdict::Fault(n, kind), end, body)?;
            Ok(answer)
        }
        Verdict::Legal(n) => {
            if is_there {
                let answer = answered(alloc, mark, Verdict::Legal(n), end, body)?;
                Ok(answer)
            } else {
                Err(RunFault::BadInput(InputFault::Length))
            }
        }
    }
}

/// The line of a verdict, and a text behind it.
pub(crate) fn answered(
    alloc: Global,
    mark: &str,
    verdict: Verdict,
    end: &str,
    body: &str,
) -> Result<Answer, AllocError>
    ensures found { IfOk result (λ a. a.found ≡ is_wrong verdict) }
    ensures text { IfOk result (λ a.
        a.text.items ≡ verdict_line mark.now verdict end.now ++ body.now) }
{
    let mut text = String::from_str(alloc, mark)?;
    push_line(&mut text, verdict, end, body)?;
    Ok(Answer {
        found: verdict.is_wrong(),
        text: text.into_bytes(),
    })
}

// Adds the words of a verdict, their end and a text.
fn push_line(out: &mut String, verdict: Verdict, end: &str, body: &str) -> Result<(), AllocError>
    ensures { OnOk result (string_bytes out.new
        ≡ string_bytes out.old ++ verdict_words verdict ++ end.now ++ body.now) }
{
    verdict.push_words(out)?;
    out.push_str(end)?;
    out.push_str(body)
}

/// Adds the line that is the first that is wrong, as far as it is shown.
pub(crate) fn push_wrong(
    out: &mut String,
    verdict: Verdict,
    text: &[u8],
    place: &Place,
) -> Result<(), AllocError> {
    match verdict {
        Verdict::Fault(_, AuditKind::Missing) => Ok(()),
        Verdict::Fault(n, _) => {
            write!(out, "line {n} reads: ")?;
            push_shown(out, line_at(text, place.at))?;
            out.push_str("\n")
        }
        _ => Ok(()),
    }
}

// The line at a place, without its end; nothing where there is none.
fn line_at(text: &[u8], at: usize) -> &[u8] {
    match text.get(at..) {
        Some(rest) if !rest.is_empty() => without_end(&rest[..first_len(rest)]),
        _ => &[],
    }
}

fn without_end(line: &[u8]) -> &[u8] {
    match line {
        [front @ .., b'\n'] => front,
        _ => line,
    }
}

// Adds the first bytes of a line; a blank for one that is no letter, digit or sign.
fn push_shown(out: &mut String, line: &[u8]) -> Result<(), AllocError> {
    'bytes: for byte in line.get(..line.len().min(SHOWN)).unwrap_or(line) {
        let shown = if *byte < 127 && *byte >= 32 {
            *byte
        } else {
            b' '
        };
        out.push(shown as char)?;
    }
    if line.len() > SHOWN {
        out.push_str(" ..")?;
    }
    Ok(())
}
