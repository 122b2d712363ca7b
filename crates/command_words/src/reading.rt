//! Reading the words of the command line.
ghost use Rattle.std.specs.Prelude.{◌≡◌, IfOk, IfSome, List, map, option_map, string_bytes};
ghost use Rattle.clap.specs.Words.{Row};
ghost use Rattle.command_words.specs.Laws.Words.{command_by, command_of};
ghost use Rattle.command_words.specs.Command.{CanServe, asked};
ghost use Rattle.command_words.specs.Forms.{command_in, form_for};
ghost use Rattle.command_words.specs.Finding.{AreIn};
ghost use Rattle.command_words.specs.declared.forms.Form.TheVariants.{Session};

use crate::Command;
use crate::finding::{Found, found_in};
use crate::forms::{Form, SessionForm};
use clap::error::ErrorKind;
use std::alloc::{AllocError, Global};

/// The command that the words are, where they are one; they are those behind the program's name.
/// There is none where a word is at fault, and where help is asked for. The options of the command
/// are within their limits. Only want of memory is an error.
pub fn read_words<'a>(alloc: Global, words: &'a [String]) -> Result<Option<Command<'a>>, AllocError>
    ensures command { IfOk result (λ c.
        option_map asked c ≡ command_of (map string_bytes words.now)) }
    ensures served { IfOk result (λ c. IfSome c CanServe) }
{
    match words {
        [name, ..] => match Form::named(name.as_str()) {
            Some(form) => read(alloc, form, words),
            None => Ok(None),
        },
        [] => Ok(None),
    }
}

// The command of this form that the words are, if they are one.
fn read<'a>(
    alloc: Global,
    form: Form,
    words: &'a [String],
) -> Result<Option<Command<'a>>, AllocError>
    ensures command { IfOk result (λ c. option_map asked c
        ≡ command_by (form_for form) (command_in form) (map string_bytes words.now)) }
    ensures served { IfOk result (λ c. IfSome c CanServe) }
{
    match form.command(alloc)?.try_get_matches_from(words) {
        Ok(matches) => Ok(command_in(form, found_in(&matches))),
        Err(error) => match error.kind() {
            ErrorKind::OutOfMemory => Err(AllocError),
            _ => Ok(None),
        },
    }
}

// The command of this form, by what was found.
fn command_in<'a>(form: Form, found: Found<'a>) -> Option<Command<'a>>
    ensures command { (rows : List Row) → AreIn rows found.entry
        → option_map asked result ≡ command_in form rows }
    ensures served { (rows : List Row) → AreIn rows found.entry → IfSome result CanServe }
{
    match form {
        Form::Plan => Some(Command::Plan {
            policy: found.policy?,
            flow: found.flow?,
        }),
        Form::Show => Some(Command::Show {
            policy: found.policy?,
        }),
        Form::Solve => Some(Command::Solve {
            policy: found.policy?,
        }),
        Form::Resilience => Some(Command::Resilience {
            policy: found.policy?,
            flow: found.flow?,
            absences: found.absences?,
        }),
        Form::Cnf => Some(Command::Cnf {
            policy: found.policy?,
            flow: found.flow?,
            model: found.model,
        }),
        Form::Trial => Some(Command::Trial { seed: found.seed? }),
        Form::Session(session) => session_in(session, found),
    }
}

// The command that serves a session, by what was found.
fn session_in<'a>(session: SessionForm, found: Found<'a>) -> Option<Command<'a>>
    ensures command { (rows : List Row) → AreIn rows found.entry
        → option_map asked result ≡ command_in (Session session) rows }
    ensures served { (rows : List Row) → AreIn rows found.entry → IfSome result CanServe }
{
    match session {
        SessionForm::Serve => Some(Command::Serve {
            policy: found.policy?,
            options: found.options?,
        }),
        SessionForm::Audit => Some(Command::Audit {
            policy: found.policy?,
            requests: found.requests?,
            options: found.options?,
        }),
        SessionForm::Resume => Some(Command::Resume {
            policy: found.policy?,
            requests: found.requests?,
            transcript: found.transcript?,
            options: found.options?,
        }),
    }
}
