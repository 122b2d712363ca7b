//! The words of the command line.
ghost use Rattle.std.specs.Prelude.{◌≡◌, ◌≢◌, drop, Err, IfOk, IfErr, MatchResult};
ghost use Rattle.std.specs.Vec.Iter.{into_iter_items};
ghost use Rattle.std.specs.IoError.{error_kind};

use run_record::RunFault;
use std::alloc::{AllocError, Global};
use std::env::Args;
use std::io;
use std::io::ErrorKind;

/// All arguments, the program's name too. Where one is no text the command line is faulty.
pub fn all_words(alloc: Global, args: io::Result<Args>) -> Result<Vec<String>, RunFault>
    ensures all { IfOk args (λ given. MatchResult result
        (λ words. words.items ≡ into_iter_items given) (λ fault. fault ≡ RunFault.NoMemory)) }
    ensures memory { IfErr args (λ e.
        error_kind e ≡ ErrorKind.OutOfMemory → result ≡ Err RunFault.NoMemory) }
    ensures faulty { IfErr args (λ e.
        error_kind e ≢ ErrorKind.OutOfMemory → result ≡ Err RunFault.Usage) }
{
    match args {
        Ok(args) => Ok(listed(alloc, args)?),
        Err(e) => match e.kind() {
            ErrorKind::OutOfMemory => Err(RunFault::NoMemory),
            _ => Err(RunFault::Usage),
        },
    }
}

// What is left of the arguments, as a list.
fn listed(alloc: Global, mut args: Args) -> Result<Vec<String>, AllocError>
    ensures { IfOk result (λ words. words.items ≡ into_iter_items args) }
{
    let mut words = Vec::new(alloc);
    'listing: while let Some(word) = args.next() {
        words.push(word)?;
    }
    Ok(words)
}

/// The words after the program's name.
pub fn after_name(words: &[String]) -> &[String]
    ensures { result.now ≡ drop 1 words.now }
{
    match words {
        [_, rest @ ..] => rest,
        [] => words,
    }
}
