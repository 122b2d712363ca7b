//! The values that `clap` finds at the words.
ghost use Rattle.std.specs.Prelude.{◌≡◌, ◌<◌, ◌≤◌, ◌-◌, ◌^◌, IfSome, option_map, codes};
ghost use Rattle.clap.specs.Words.{first_of};
ghost use Rattle.command_words.specs.Laws.Words.{AreOptions, number_in, options_of};
ghost use Rattle.command_words.specs.Command.{options_in};
ghost use Rattle.command_words.specs.Finding.{AreIn, HasNumbers, WritesWithin, rows_in};

use crate::{ABSENCE_LIMIT, Options};
use clap::ArgMatches;
use wf_names::{LANE_LIMIT, ROUND_LIMIT};

/// The words and numbers that a command finds, each where it has it.
#[derive(Clone, Copy)]
pub(crate) struct Found<'a> {
    pub(crate) policy: Option<&'a str>,
    pub(crate) flow: Option<&'a str>,
    pub(crate) requests: Option<&'a str>,
    pub(crate) transcript: Option<&'a str>,
    pub(crate) model: Option<&'a str>,
    pub(crate) absences: Option<u8>,
    pub(crate) seed: Option<u64>,
    pub(crate) options: Option<Options>,
}

/// The words and numbers that were found.
pub(crate) fn found_in<'a>(matches: &ArgMatches<'a>) -> Found<'a>
    requires numbers { HasNumbers (rows_in matches.now) }
    ensures { AreIn (rows_in matches.now) result }
{
    Found {
        policy: word_in(matches, "POLICY"),
        flow: word_in(matches, "FLOW"),
        requests: word_in(matches, "REQUESTS"),
        transcript: word_in(matches, "TRANSCRIPT"),
        model: word_in(matches, "MODEL"),
        absences: number_in(matches, "T", 0, ABSENCE_LIMIT),
        seed: seed_in(matches),
        options: options_in(matches),
    }
}

// The word that was found under a name.
fn word_in<'a>(matches: &ArgMatches<'a>, name: &str) -> Option<&'a str>
    ensures { option_map (λ s. s.now) result ≡ first_of name.now (rows_in matches.now) }
{
    matches.get_str(name)
}

// The number that was found under a name, which is within these bounds.
fn number_in(matches: &ArgMatches<'_>, name: &str, least: u8, most: u8) -> Option<u8>
    requires within { WritesWithin least most name.now (rows_in matches.now) }
    ensures number { result ≡ number_in name.now (rows_in matches.now) }
    ensures within { IfSome result (λ n. (least ≤ n) × (n ≤ most)) }
{
    matches.get_one::<u8>(name)
}

// The number that was found as the seed.
fn seed_in(matches: &ArgMatches<'_>) -> Option<u64>
    requires within { WritesWithin 0 (2 ^ 64 - 1) (codes "SEED") (rows_in matches.now) }
    ensures { result ≡ number_in (codes "SEED") (rows_in matches.now) }
{
    matches.get_one::<u64>("SEED")
}

// The options of a session that were found.
fn options_in(matches: &ArgMatches<'_>) -> Option<Options>
    requires numbers { HasNumbers (rows_in matches.now) }
    ensures options { option_map options_in result ≡ options_of (rows_in matches.now) }
    ensures within { IfSome result (λ o. AreOptions (options_in o)) }
{
    let lanes = number_in(matches, "lanes", 1, LANE_LIMIT)?;
    let rounds = number_in(matches, "rounds", 0, ROUND_LIMIT)?;
    Some(Options { lanes, rounds })
}
