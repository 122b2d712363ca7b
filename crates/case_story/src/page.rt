//! The command `page`: one case as a page that stands alone.
ghost use Rattle.std.specs.Prelude.{◌≡◌, nat_lt, codes, IfErr};
ghost use Rattle.transcript_audit.specs.Auditor.{state_now};
ghost use Rattle.wf_commands.specs.Answer.{AnswersAs, IsAnswerEnding};
ghost use Rattle.case_story.specs.Sessions.{IsServed};
ghost use Rattle.case_story.specs.Printed.{TellsBy, TellsPage};

use crate::answer::tell_by;
use crate::case_page::Page;
use crate::follow::{Watches, last_told};
use crate::session::Session;
use crate::whole::{Audited, audit_whole};
use run_record::RunFault;
use std::alloc::{AllocError, Global};
use transcript_audit::Auditor;
use transcript_audit::laws::part_is_exact;
use wf_commands::Answer;
use wf_names::CaseId;

// The page so far.
#[derive(Drop)]
struct Rows {
    page: Page,
}

impl Watches for Rows {
    fn see(&mut self, auditor: &Auditor) -> Result<(), AllocError> {
        match last_told(auditor) {
            Some(told) => self.page.take(&told),
            None => Ok(()),
        }
    }
}

/// Tells a case.
pub(crate) fn tell_page(alloc: Global, s: &Session, case: CaseId) -> Result<Answer, RunFault>
    requires served { IsServed s.now }
    ensures tells { AnswersAs (TellsPage case s.now) result }
    ensures ending { IfErr result IsAnswerEnding }
{
    part_is_exact();
    let mut rows = Rows {
        page: Page::new(alloc, case),
    };
    let audited = audit_whole(alloc, s, &mut rows)?;
    let is_there = was_opened(&audited.auditor, case);
    tell_audited(alloc, &rows.page, &audited, is_there)
}

// Tells a case by what the audit found, if it is there.
fn tell_audited(
    alloc: Global,
    page: &Page,
    audited: &Audited,
    is_there: bool,
) -> Result<Answer, RunFault>
    ensures tells { AnswersAs (TellsBy (codes "<!-- ") audited.now.verdict (codes " -->\n")
        is_there) result }
    ensures ending { IfErr result IsAnswerEnding }
{
    let body = finish(alloc, page, audited)?;
    tell_by(
        alloc,
        "<!-- ",
        audited.verdict,
        " -->\n",
        is_there,
        body.as_str(),
    )
}

// Whether a case was opened with this number.
fn was_opened(auditor: &Auditor, case: CaseId) -> bool
    ensures { result ≡ nat_lt case (state_now auditor.now).book.ever }
{
    case.0 < auditor.board().cases().ever()
}

// The page as a text; empty where the case is not there.
fn finish(alloc: Global, page: &Page, audited: &Audited) -> Result<String, AllocError> {
    let board = audited.auditor.board();
    let mut words = String::new(alloc);
    audited.verdict.push_words(&mut words)?;
    match page.finish(alloc, board.policy(), board.cases(), words.as_str())? {
        Some(text) => Ok(text),
        None => Ok(String::new(alloc)),
    }
}
