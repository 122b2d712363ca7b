//! Models read from text.
ghost use Rattle.std.specs.Prelude.{◌≡◌, ◌≤◌, ◌<◌, ◌+◌, ◌^◌, ℕ, suc, Bool, [], ◌∷◌, length, Some};
ghost use Rattle.std.specs.Prelude.{IfErr, IfOk, IfSome};
ghost use Rattle.std.specs.Option.{option_map_or};
ghost use Rattle.std.specs.List.{slice_split};
ghost use Rattle.memchr.specs.Find.{IsFirstByte};
ghost use Rattle.basics.specs.Laws.Reading.{each, Gives};
ghost use Rattle.cnf_export.specs.declared.model_text.ModelFault.TheVariants.{NoMemory};
ghost use Rattle.cnf_export.specs.ModelText.{is_blank, is_lf, is_passed_over, model_of_text};
ghost use Rattle.cnf_export.specs.ModelText.{words_read};
ghost use Rattle.cnf_export.specs.ModelText.{take_line, next_part, without_v, fault_word, IsWordOf};

use crate::Model;
use crate::word::read_part;
use memchr::memchr;
use std::alloc::{AllocError, Global};

/// Why a text is no model.
#[derive(Clone, Copy)]
pub enum ModelFault {
    /// This is its first word that is none, numbered from 0.
    Word(usize),
    /// There was no memory.
    NoMemory,
}

impl From<AllocError> for ModelFault {
    ghost from_gives = { λ _ fault. fault ≡ NoMemory };

    fn from(_: AllocError) -> Self {
        ModelFault::NoMemory
    }
}

/// The model of `variables` variables that a text says.
pub fn read_model(alloc: Global, text: &[u8], variables: u32) -> Result<Model, ModelFault>
    ensures model { Gives fault_word (λ m. m) result (model_of_text variables text.now) }
    ensures word { IfErr result (IsWordOf text.now) }
{
    let mut flags = vec![in alloc; false; variables as usize]?;
    match read_lines(variables, text, &mut flags) {
        Ok(_) => Ok(Model::from_vec(flags)),
        Err(k) => Err(ModelFault::Word(k)),
    }
}

// Reads all lines; says how many words were read, where no 0 has ended the model.
#[tactic(auto, using(crate::proofs::ModelSteps::reads_on, crate::proofs::ModelSteps::fails_here))]
fn read_lines(limit: u32, text: &[u8], flags: &mut [bool]) -> Result<Option<usize>, usize>
    requires { limit ≤ length flags.old }
    ensures read { Gives Some (λ words. (flags.new, words)) result
        (each (take_line limit) (flags.old, Some 0) (slice_split is_lf text.now)) }
    ensures word { IfErr result (λ k. k ≤ length text.now) }
{
    prove!(text.len() <= usize::MAX);
    let mut words = Some(0);
    let mut rest = text;
    'lines: loop {
        let (line, behind) = cut(rest, memchr(b'\n', rest));
        words = read_line(limit, words, line, flags)?;
        match behind {
            Some(behind) => rest = behind,
            None => return Ok(words),
        }
    }
}

// Reads the words of a line.
#[tactic(auto, using(crate::proofs::ModelSteps::reads_on, crate::proofs::ModelSteps::fails_here))]
fn read_line(
    limit: u32,
    words: Option<usize>,
    line: &[u8],
    flags: &mut [bool],
) -> Result<Option<usize>, usize>
    requires places { limit ≤ length flags.old }
    requires fits { words_read words + length line.now < 2 ^ 64 }
    ensures read { Gives Some (λ after. (flags.new, after)) result
        (take_line limit (flags.old, words) line.now) }
    ensures word { IfErr result (λ k. k ≤ words_read words + length line.now) }
    ensures few { IfOk result (λ after. words_read after ≤ words_read words + length line.now) }
    ensures places { length flags.new ≡ length flags.old }
{
    if passes_over(line) {
        return Ok(words);
    }
    let mut after = words;
    let mut rest = without_v(line);
    'parts: loop {
        let (part, behind) = cut(rest, find_blank(rest));
        after = read_part(limit, after, part, flags)?;
        match behind {
            Some(behind) => rest = behind,
            None => return Ok(after),
        }
    }
}

// What stands before the first byte that passes a test, and what stands behind that byte.
#[tactic(auto, using(crate::proofs::Splits::no_cut))]
fn cut(text: &[u8], first: Option<usize>) -> (&[u8], Option<&[u8]>)
    requires { IfSome first (λ n. n < length text.now) }
    ensures parts { (test : ℕ → Bool) → IsFirstByte test text.now first → slice_split test text.now
        ≡ result.0.now ∷ option_map_or (λ rest. slice_split test rest.now) result.1 [] }
    ensures lengths { length result.0.now
        + option_map_or (λ rest. suc (length rest.now)) result.1 0 ≡ length text.now }
{
    match first {
        Some(n) => {
            let (part, behind) = text.split_at(n);
            (part, Some(&behind[1..]))
        }
        None => (text, None),
    }
}

fn find_blank(line: &[u8]) -> Option<usize>
    ensures { IsFirstByte is_blank line.now result }
{
    'bytes: for n in 0..line.len() {
        if is_blank(line[n]) {
            return Some(n);
        }
    }
    None
}

fn is_blank(b: u8) -> bool
    ensures { result ≡ is_blank b }
{
    b == b' ' || (b == b'\t' || b == b'\r')
}

fn passes_over(line: &[u8]) -> bool
    ensures { result ≡ is_passed_over line.now }
{
    line.len() > 0 && (line[0] == b'c' || line[0] == b's')
}

fn without_v(line: &[u8]) -> &[u8]
    ensures rest { result.now ≡ without_v line.now }
    ensures shorter { length result.now ≤ length line.now }
{
    if line.len() > 0 && line[0] == b'v' && (line.len() == 1 || is_blank(line[1])) {
        &line[1..]
    } else {
        line
    }
}
