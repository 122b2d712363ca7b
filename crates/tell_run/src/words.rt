//! The words of the command line.
ghost use Rattle.std.specs.Prelude.{◌<◌, ◌≤◌, IfSome, IfOk};
ghost use Rattle.wf_names.specs.declared.limits.TheConstants.{LANE_LIMIT};
ghost use Rattle.tell_run.specs.Words.{CanTell};

use case_story::{Earlier, What};
use clap::builder::ValueParser;
use clap::error::ErrorKind;
use clap::{Arg, ArgMatches, Command};
use std::alloc::{AllocError, Global};
use std::str::FromStr;
use wf_names::{CaseId, LANE_LIMIT, ROUND_LIMIT};

/// What the program is asked to tell.
#[derive(Clone, Copy)]
pub(crate) enum Asked<'a> {
    /// What is wrong with a policy file, or probably not meant.
    Policy { policy: &'a str },
    /// Why a workflow can or cannot be done.
    Why { policy: &'a str, flow: &'a str },
    /// What a transcript tells.
    Told { what: What, session: Earlier<'a> },
}

/// Why words are no command.
#[derive(Drop)]
pub(crate) enum Unread {
    /// They ask for help or for the version, which is this text.
    Help(String),
    /// A word is at fault, as this text says.
    Usage(String),
    /// There was no memory.
    NoMemory,
}

// A word of a command, or an option.
#[derive(Clone, Copy)]
struct Word<'a> {
    name: &'a str,
    help: &'a str,
    parser: ValueParser<'a>,
    // Whether it has to be there.
    wanted: bool,
    // How an option is written where it is left out; none where this is no option.
    usual: Option<&'a str>,
}

const POLICY: Word<'static> = Word {
    name: "POLICY",
    help: "A policy file",
    parser: ValueParser::String,
    wanted: true,
    usual: None,
};

const FLOW: Word<'static> = Word {
    name: "FLOW",
    help: "The name of a workflow of the policy",
    parser: ValueParser::String,
    wanted: true,
    usual: None,
};

const REQUESTS: Word<'static> = Word {
    name: "REQUESTS",
    help: "A file of requests",
    parser: ValueParser::String,
    wanted: true,
    usual: None,
};

const TRANSCRIPT: Word<'static> = Word {
    name: "TRANSCRIPT",
    help: "The file of their transcript",
    parser: ValueParser::String,
    wanted: true,
    usual: None,
};

const LANES: Word<'static> = Word {
    name: "lanes",
    help: "How many lanes there were",
    parser: ValueParser::Signed(1, LANE_LIMIT as i64),
    wanted: false,
    usual: Some("1"),
};

const ROUNDS: Word<'static> = Word {
    name: "rounds",
    help: "After how many lost rounds a request was answered again",
    parser: ValueParser::Signed(0, ROUND_LIMIT as i64),
    wanted: false,
    usual: Some("2"),
};

const ENTRY: Word<'static> = Word {
    name: "N",
    help: ENTRY_HELP,
    parser: ValueParser::Signed(0, u32::MAX as i64),
    wanted: true,
    usual: None,
};

const LAST_ENTRY: Word<'static> = Word {
    name: "N",
    help: ENTRY_HELP,
    parser: ValueParser::Signed(0, u32::MAX as i64),
    wanted: false,
    usual: None,
};

const ENTRY_HELP: &str = "The number of an entry, from 0";

const CASE: Word<'static> = Word {
    name: "CASE",
    help: "The number of a case, from 0",
    parser: ValueParser::Signed(0, u16::MAX as i64),
    wanted: true,
    usual: None,
};

// The name of a command, what it does, and its words.
type Form<'a> = (&'a str, &'a str, &'a [Word<'a>]);

// The commands: about a policy, about the entries of a transcript, and about what stands behind
// them.
const FORMS: [Form<'static>; 6] = [
    (
        "policy",
        "The first fault of a policy file, with its place; else what is probably not meant",
        &[POLICY],
    ),
    (
        "why",
        "A plan of a workflow, or which rules cannot be met together",
        &[POLICY, FLOW],
    ),
    (
        "log",
        "The entries of a transcript, a line for each",
        &[POLICY, REQUESTS, TRANSCRIPT, LANES, ROUNDS],
    ),
    (
        "entry",
        "An entry of a transcript: what the case was before it, and why it was answered so",
        &[POLICY, REQUESTS, TRANSCRIPT, LANES, ROUNDS, ENTRY],
    ),
    (
        "now",
        "The policy after an entry of a transcript, or after all",
        &[POLICY, REQUESTS, TRANSCRIPT, LANES, ROUNDS, LAST_ENTRY],
    ),
    (
        "page",
        "A case, as a page of HTML that stands alone",
        &[POLICY, REQUESTS, TRANSCRIPT, LANES, ROUNDS, CASE],
    ),
];

/// What the words ask for; they are those behind the program's name.
pub(crate) fn read_words<'a>(alloc: Global, words: &'a [String]) -> Result<Asked<'a>, Unread>
    ensures { IfOk result CanTell }
{
    match form(alloc) {
        Ok(mut command) => read_by(alloc, &mut command, words),
        Err(_) => Err(Unread::NoMemory),
    }
}

// What the words ask for, by the form.
fn read_by<'a>(
    alloc: Global,
    command: &mut Command<'a>,
    words: &'a [String],
) -> Result<Asked<'a>, Unread>
    ensures { IfOk result CanTell }
{
    match command.try_get_matches_from_mut(words) {
        Ok(matches) => found_in(alloc, &matches),
        Err(e) => Err(refused(alloc, &e)),
    }
}

fn found_in<'a>(alloc: Global, matches: &ArgMatches<'a>) -> Result<Asked<'a>, Unread>
    ensures { IfOk result CanTell }
{
    match asked_in(matches) {
        Some(asked) => Ok(asked),
        None => Err(Unread::Usage(String::new(alloc))),
    }
}

fn form<'a>(alloc: Global) -> Result<Command<'a>, AllocError> {
    let mut command = bare_form(alloc)?;
    for form in &FORMS {
        command = command.subcommand(command_of(alloc, form)?)?;
    }
    Ok(command)
}

// The form without the commands.
fn bare_form<'a>(alloc: Global) -> Result<Command<'a>, AllocError> {
    Command::new(alloc, "wftell")
        .about("Tells in words what a workflow policy says, and what is wrong with it")
        .version("0.1.0, for the policy formats 1 and 2")
        .no_binary_name(true)
        .subcommand_required(true)
        .bin_name("wftell")
}

fn command_of<'a>(alloc: Global, form: &Form<'a>) -> Result<Command<'a>, AllocError> {
    let (name, about, words) = *form;
    let mut command = Command::new(alloc, name).about(about);
    for word in words {
        command = command.arg(argument(alloc, word))?;
    }
    Ok(command)
}

fn argument<'a>(alloc: Global, word: &Word<'a>) -> Arg<'a> {
    let arg = Arg::new(alloc, word.name)
        .help(word.help)
        .required(word.wanted)
        .value_parser(word.parser);
    match word.usual {
        Some(usual) => arg.long(word.name).default_value(usual),
        None => arg,
    }
}

fn asked_in<'a>(matches: &ArgMatches<'a>) -> Option<Asked<'a>>
    ensures { IfSome result CanTell }
{
    match matches.subcommand() {
        Some((name, found)) => asked_by(name, found),
        None => None,
    }
}

// What is asked by the command with this name.
fn asked_by<'a>(name: &str, found: &ArgMatches<'a>) -> Option<Asked<'a>>
    ensures { IfSome result CanTell }
{
    match name {
        "policy" => Some(Asked::Policy {
            policy: found.get_str("POLICY")?,
        }),
        "why" => Some(Asked::Why {
            policy: found.get_str("POLICY")?,
            flow: found.get_str("FLOW")?,
        }),
        _ => Some(Asked::Told {
            what: what_in(name, found)?,
            session: files_in(found)?,
        }),
    }
}

// What is to be told of a transcript.
fn what_in(name: &str, found: &ArgMatches<'_>) -> Option<What> {
    match name {
        "log" => Some(What::Log),
        "entry" => Some(What::Entry(number_in(found, "N")?)),
        "now" if found.get_str("N").is_none() => Some(What::Now(None)),
        "now" => Some(What::Now(Some(number_in(found, "N")?))),
        "page" => Some(What::Page(CaseId(number_in(found, "CASE")?))),
        _ => None,
    }
}

// The files of a session.
fn files_in<'a>(found: &ArgMatches<'a>) -> Option<Earlier<'a>>
    ensures { IfSome result (λ s. (0 < s.lanes) × (s.lanes ≤ LANE_LIMIT)) }
{
    Some(Earlier {
        policy: found.get_str("POLICY")?,
        requests: found.get_str("REQUESTS")?,
        transcript: found.get_str("TRANSCRIPT")?,
        lanes: lanes_in(found)?,
        rounds: number_in(found, "rounds")?,
    })
}

fn lanes_in(found: &ArgMatches<'_>) -> Option<u8>
    ensures { IfSome result (λ n. (0 < n) × (n ≤ LANE_LIMIT)) }
{
    match number_in(found, "lanes")? {
        0 => None,
        lanes if lanes > LANE_LIMIT => None,
        lanes => Some(lanes),
    }
}

fn number_in<T: FromStr>(found: &ArgMatches<'_>, name: &str) -> Option<T>
where
    T::Err: Drop,
{
    match found.get_str(name)?.parse() {
        Ok(n) => Some(n),
        Err(_) => None,
    }
}

fn refused(alloc: Global, e: &clap::Error) -> Unread {
    if e.kind() == ErrorKind::OutOfMemory {
        return Unread::NoMemory;
    }
    match format!(in alloc; "{e}") {
        Ok(text) if e.use_stderr() => Unread::Usage(text),
        Ok(text) => Unread::Help(text),
        Err(_) => Unread::NoMemory,
    }
}
