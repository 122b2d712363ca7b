//! The command `entry`: one entry, with the case before it and why it was answered so.
ghost use Rattle.std.specs.Prelude.{◌≡◌, IfOk, nat_lt, IfErr};
ghost use Rattle.wf_commands.specs.Answer.{AnswersAs, IsAnswerEnding};
ghost use Rattle.case_story.specs.Sessions.{IsBefore, IsServed};
ghost use Rattle.case_story.specs.Printed.{Finds, TellsEntry};

use crate::answer::{push_wrong, tell_by};
use crate::follow::{Quiet, follow_rest, follow_to, last_told};
use crate::place::Place;
use crate::session::Session;
use crate::verdict::Verdict;
use plain_words::flow_text;
use run_record::RunFault;
use std::alloc::{AllocError, Global};
use story_words::{push_ask, push_case, push_entry, subject};
use transcript_audit::Auditor;
use transcript_audit::laws::{audit_is_exact, faults_exclude, next_is_one};
use wf_commands::Answer;
use wf_names::CaseId;
use wf_talk::Entry;

/// Tells the entry with a number.
pub(crate) fn tell_entry(alloc: Global, s: &Session, at: u32) -> Result<Answer, RunFault>
    requires served { IsServed s.now }
    ensures tells { AnswersAs (TellsEntry at s.now) result }
    ensures ending { IfErr result IsAnswerEnding }
{
    let mut body = String::new(alloc);
    let verdict = audit_entry(s, at, &mut body)?;
    let is_there = at < verdict.right_lines();
    tell_by(alloc, "", verdict, "\n", is_there, body.as_str())
}

// Audits all, and adds what is told of the entry, if it is there.
fn audit_entry(s: &Session, at: u32, body: &mut String) -> Result<Verdict, AllocError>
    requires served { IsServed s.now }
    ensures finds { IfOk result (Finds s.now) }
{
    let mut auditor = s.auditor(*body.allocator())?;
    audit_entry_by(s, at, body, &mut auditor)
}

// Audits all by an audit before the first line, and adds what is told of the entry, if it is there.
fn audit_entry_by(
    s: &Session,
    at: u32,
    body: &mut String,
    auditor: &mut Auditor,
) -> Result<Verdict, AllocError>
    requires served { IsServed s.now }
    requires session { IsBefore s.now auditor.old }
    ensures finds { IfOk result (Finds s.now) }
{
    audit_is_exact();
    faults_exclude();
    next_is_one();
    let alloc = *body.allocator();
    let mut place = Place::start();
    let text = s.transcript.as_bytes();
    let most = at.saturating_add(1);
    match follow_to(alloc, auditor, text, &mut place, most, &mut Quiet)? {
        Some(verdict) => {
            push_wrong(body, verdict, text, &place)?;
            Ok(verdict)
        }
        None => {
            push_told(body, s, auditor, at)?;
            let verdict = follow_rest(alloc, auditor, text, &mut place, &mut Quiet)?;
            push_wrong(body, verdict, text, &place)?;
            Ok(verdict)
        }
    }
}

// Adds what is told of the last entry, if it has this number.
fn push_told(out: &mut String, s: &Session, auditor: &Auditor, at: u32) -> Result<(), AllocError>
    requires served { IsServed s.now }
{
    match last_told(auditor) {
        Some(told) if told.entry.at == at => {
            push_title(out, told.entry)?;
            push_before(out, s, told.entry)?;
            push_entry(out, &told)
        }
        _ => Ok(()),
    }
}

fn push_title(out: &mut String, entry: &Entry) -> Result<(), AllocError> {
    let at = entry.at;
    let line = entry.line;
    write!(out, "Entry {at} (request line {line}): ")?;
    push_ask(out, &entry.ask)?;
    out.push_str(".\n")
}

// Adds how the case stood before an entry, if it is about one that was there.
fn push_before(out: &mut String, s: &Session, entry: &Entry) -> Result<(), AllocError>
    requires served { IsServed s.now }
{
    let Some(number) = subject(&entry.ask, &entry.reply) else {
        return Ok(());
    };
    let mut auditor = s.auditor(*out.allocator())?;
    push_before_by(out, s, entry.at, number, &mut auditor)
}

// Adds how a case stood before the entry with a number, by an audit before the first line.
fn push_before_by(
    out: &mut String,
    s: &Session,
    at: u32,
    number: CaseId,
    auditor: &mut Auditor,
) -> Result<(), AllocError>
    requires served { IsServed s.now }
    requires session { IsBefore s.now auditor.old }
{
    let alloc = *out.allocator();
    let mut place = Place::start();
    let text = s.transcript.as_bytes();
    match follow_to(alloc, auditor, text, &mut place, at, &mut Quiet)? {
        Some(_) => Ok(()),
        None => push_stood(out, auditor, number),
    }
}

fn push_stood(out: &mut String, auditor: &Auditor, number: CaseId) -> Result<(), AllocError> {
    let board = auditor.board();
    match board.cases().case(number) {
        Some(case) => {
            let flow = flow_text(*out.allocator(), board.policy(), case.flow())?;
            write!(out, "Case {} of {flow} stood so:\n", number.0)?;
            push_case(out, board.policy(), case, number, auditor.entries())
        }
        None => Ok(()),
    }
}
