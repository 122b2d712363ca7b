//! The summary of a session.
ghost use Rattle.std.specs.Prelude.{◌≡◌, ◌++◌, IfOk, OnOk, decimal, string_bytes};
ghost use Rattle.trial_command.specs.Run.{summary, summary_line};
ghost use Rattle.trial_command.specs.Serving.{trial_told};

use crate::counts::{Counts, count_replies};
use crate::session::Served;
use itoa::Buffer;
use std::alloc::{AllocError, Global};

/// The summary of the session of a seed's trial, as one line.
pub(crate) fn summary_of(alloc: Global, seed: u64, served: &Served) -> Result<String, AllocError>
    ensures { IfOk result (λ text. string_bytes text ≡ summary seed (trial_told served.now)) }
{
    let counts = count_replies(served.entries.as_slice());
    summary_line(alloc, seed, served.jobs.len() as u64, &counts)
}

/// The line for a seed, `lines` jobs and these counts of replies.
pub(crate) fn summary_line(
    alloc: Global,
    seed: u64,
    lines: u64,
    counts: &Counts,
) -> Result<String, AllocError>
    ensures { IfOk result (λ text. string_bytes text ≡ summary_line seed lines counts.now) }
{
    let mut line = String::new(alloc);
    push_number(&mut line, "trial ", seed)?;
    push_number(&mut line, " lines ", lines)?;
    push_number(&mut line, " opened ", counts.opened)?;
    push_number(&mut line, " granted ", counts.granted)?;
    push_number(&mut line, " finished ", counts.finished)?;
    push_number(&mut line, " edited ", counts.edited)?;
    push_number(&mut line, " denied ", counts.denied)?;
    push_number(&mut line, " no_memory ", counts.no_memory)?;
    line.push_str("\n")?;
    Ok(line)
}

// Adds a word and a number.
fn push_number(line: &mut String, word: &str, n: u64) -> Result<(), AllocError>
    ensures { OnOk result (string_bytes line.new ≡ string_bytes line.old ++ word.now ++ decimal n) }
{
    let mut digits = Buffer::new();
    line.push_str(word)?;
    line.push_str(digits.format(n))
}
