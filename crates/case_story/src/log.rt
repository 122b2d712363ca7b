//! The command `log`: a line in words for each entry.
ghost use Rattle.std.specs.Prelude.{[], true, codes, IfErr};
ghost use Rattle.wf_commands.specs.Answer.{AnswersAs, IsAnswerEnding};
ghost use Rattle.case_story.specs.Sessions.{IsServed};
ghost use Rattle.case_story.specs.Printed.{TellsBy, TellsLog};

use crate::answer::{push_wrong, tell_by};
use crate::follow::{Watches, last_told};
use crate::session::Session;
use crate::whole::{Audited, audit_whole};
use run_record::RunFault;
use std::alloc::{AllocError, Global};
use story_words::push_line;
use transcript_audit::Auditor;
use wf_commands::Answer;

/// How wide the numbers are.
const WIDTH: usize = 4;

// The lines so far.
#[derive(Drop)]
struct Log {
    text: String,
}

impl Watches for Log {
    fn see(&mut self, auditor: &Auditor) -> Result<(), AllocError> {
        match last_told(auditor) {
            Some(told) => {
                push_number(&mut self.text, told.entry.at)?;
                push_line(&mut self.text, &told)?;
                self.text.push_str("\n")
            }
            None => Ok(()),
        }
    }
}

// Adds a number, with blanks before it, and a blank.
fn push_number(out: &mut String, n: u32) -> Result<(), AllocError> {
    write!(out, "{n:WIDTH$} ")
}

/// Tells all entries that are right.
pub(crate) fn tell_log(alloc: Global, s: &Session) -> Result<Answer, RunFault>
    requires served { IsServed s.now }
    ensures tells { AnswersAs (TellsLog s.now) result }
    ensures ending { IfErr result IsAnswerEnding }
{
    let mut log = Log {
        text: String::new(alloc),
    };
    let audited = audit_whole(alloc, s, &mut log)?;
    tell_audited(alloc, s, &mut log.text, &audited)
}

// Tells what the audit found, and these lines with the one that is wrong.
fn tell_audited(
    alloc: Global,
    s: &Session,
    lines: &mut String,
    audited: &Audited,
) -> Result<Answer, RunFault>
    ensures tells { AnswersAs (TellsBy [] audited.now.verdict (codes "\n") true) result }
    ensures ending { IfErr result IsAnswerEnding }
{
    let text = s.transcript.as_bytes();
    push_wrong(lines, audited.verdict, text, &audited.place)?;
    tell_by(alloc, "", audited.verdict, "\n", true, lines.as_str())
}
