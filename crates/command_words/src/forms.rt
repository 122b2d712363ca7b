//! The forms of the commands: the words of each.
ghost use Rattle.std.specs.Prelude.{◌≡◌, IfOk, map, option_and_then};
ghost use Rattle.clap.specs.Words.{app_of};
ghost use Rattle.command_words.specs.Laws.Words.{command_at, command_by, form};
ghost use Rattle.command_words.specs.Forms.{command_in, form_for, rule_for};

use self::SessionForm::{Audit, Resume, Serve};
use crate::arguments::Word::{
    self, Absences, Flow, Lanes, Model, Policy, Requests, Rounds, Seed, Transcript,
};
use crate::arguments::argument;
use clap::Command;
use std::alloc::{AllocError, Global};

/// The form of a command, by the command's name.
#[derive(Clone, Copy)]
pub(crate) enum Form {
    Plan,
    Show,
    Solve,
    Resilience,
    Cnf,
    Trial,
    Session(SessionForm),
}

/// The form of a command that serves a session, and takes its options.
#[derive(Clone, Copy)]
pub(crate) enum SessionForm {
    Serve,
    Audit,
    Resume,
}

impl Form {
    /// The form of the command that has this name, where one has it.
    pub(crate) fn named(name: &str) -> Option<Form>
        ensures { (words : _) → command_at name.now words
            ≡ option_and_then (λ f. command_by (form_for f) (command_in f) words) result }
    {
        match name {
            "plan" => Some(Form::Plan),
            "show" => Some(Form::Show),
            "solve" => Some(Form::Solve),
            "resilience" => Some(Form::Resilience),
            "cnf" => Some(Form::Cnf),
            "serve" => Some(Form::Session(Serve)),
            "audit" => Some(Form::Session(Audit)),
            "resume" => Some(Form::Session(Resume)),
            "trial" => Some(Form::Trial),
            _ => None,
        }
    }

    /// The command of `clap`.
    pub(crate) fn command<'a>(self, alloc: Global) -> Result<Command<'a>, AllocError>
        ensures { IfOk result (λ c. app_of c ≡ form_for self) }
    {
        let (name, words) = self.words();
        let mut command = Command::new(alloc, name);
        'words: for word in words {
            command = command.arg(argument(alloc, *word))?;
        }
        Ok(command)
    }

    // The name, and the words behind it in their order.
    fn words<'a>(self) -> (&'a str, &'a [Word])
        ensures { form result.0.now (map rule_for result.1.now) ≡ form_for self }
    {
        match self {
            Form::Plan => ("plan", &[Policy, Flow]),
            Form::Show => ("show", &[Policy]),
            Form::Solve => ("solve", &[Policy]),
            Form::Resilience => ("resilience", &[Policy, Flow, Absences]),
            Form::Cnf => ("cnf", &[Policy, Flow, Model]),
            Form::Session(Serve) => ("serve", &[Policy, Lanes, Rounds]),
            Form::Session(Audit) => ("audit", &[Policy, Requests, Lanes, Rounds]),
            Form::Session(Resume) => ("resume", &[Policy, Requests, Transcript, Lanes, Rounds]),
            Form::Trial => ("trial", &[Seed]),
        }
    }
}
