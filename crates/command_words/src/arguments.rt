//! The words and the options of the commands.
ghost use Rattle.std.specs.Prelude.{◌≡◌, false, pos};
ghost use Rattle.clap.specs.Words.{rule_of};
ghost use Rattle.clap.specs.declared.builder.value_parser.ValueParser.TheVariants.{Signed};
ghost use Rattle.command_words.specs.Laws.Words.{ranged, wanted};
ghost use Rattle.command_words.specs.Forms.{rule_for};

use crate::ABSENCE_LIMIT;
use clap::Arg;
use clap::builder::ValueParser;
use std::alloc::Global;
use wf_names::{LANE_LIMIT, ROUND_LIMIT};

/// A word or an option of a command.
#[derive(Clone, Copy)]
pub(crate) enum Word {
    /// The policy file.
    Policy,
    /// The name of a workflow.
    Flow,
    /// The file with the requests.
    Requests,
    /// The file with the transcript.
    Transcript,
    /// The file with a model, which may be left out.
    Model,
    /// The number of users who may be absent.
    Absences,
    /// What the random numbers begin from.
    Seed,
    /// The option for the number of lanes.
    Lanes,
    /// The option for the number of rounds.
    Rounds,
}

/// The argument of `clap` for a word or an option.
pub(crate) fn argument<'a>(alloc: Global, word: Word) -> Arg<'a>
    ensures rule { rule_of result ≡ rule_for word }
    ensures own { result.global ≡ false }
{
    match word {
        Word::Policy => wanted(alloc, "POLICY"),
        Word::Flow => wanted(alloc, "FLOW"),
        Word::Requests => wanted(alloc, "REQUESTS"),
        Word::Transcript => wanted(alloc, "TRANSCRIPT"),
        Word::Model => Arg::new(alloc, "MODEL"),
        Word::Absences => wanted(alloc, "T").value_parser(numbers(0, ABSENCE_LIMIT)),
        Word::Seed => wanted(alloc, "SEED").value_parser(clap::value_parser!(u64)),
        // The last word is `DEFAULT_LANES` in digits.
        Word::Lanes => ranged(alloc, "lanes", 1, LANE_LIMIT, "1"),
        // The last word is `DEFAULT_ROUNDS` in digits.
        Word::Rounds => ranged(alloc, "rounds", 0, ROUND_LIMIT, "2"),
    }
}

// A word that has to be there.
fn wanted<'a>(alloc: Global, name: &'a str) -> Arg<'a>
    ensures rule { rule_of result ≡ wanted name.entry.now }
    ensures own { result.global ≡ false }
{
    Arg::new(alloc, name).required(true)
}

// An option with a number, which is as `usual` writes it where the option is left out.
fn ranged<'a>(alloc: Global, name: &'a str, least: u8, most: u8, usual: &'a str) -> Arg<'a>
    ensures rule { rule_of result ≡ ranged name.entry.now least most usual.entry.now }
    ensures own { result.global ≡ false }
{
    Arg::new(alloc, name)
        .long(name)
        .value_parser(numbers(least, most))
        .default_value(usual)
}

fn numbers<'a>(least: u8, most: u8) -> ValueParser<'a>
    ensures { result ≡ Signed (pos least) (pos most) }
{
    clap::value_parser!(u8).range(i64::from(least)..=i64::from(most))
}
