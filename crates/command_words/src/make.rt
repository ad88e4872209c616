//! The words behind `make`.
ghost use Rattle.clap.specs.Matches.{found_of};
ghost use Rattle.clap.specs.Walk.{rows_of};
ghost use Rattle.command_words.specs.Failing.{NoMemoryOr};
ghost use Rattle.command_words.specs.Make.{make_of, make_of_rows};
ghost use Rattle.std.specs.Prelude.{map, IfErr, IfOk, None, Some, ◌≡◌};

use crate::commands::{MakeWords, WordsFail};
use crate::matching::{given, matches_of};
use crate::numbers::seed_of;
use crate::parser::Parameter;
use clap::ArgMatches;
use item_actions::{Text, is_file_name};
use std::alloc::Global;

// What the words of `make` ask for, by the parser's matches.
fn make_words(alloc: Global, matches: &ArgMatches<'_>) -> Result<MakeWords, WordsFail>
    ensures ok { IfOk result (λ make. make_of_rows (rows_of (found_of matches.now)) ≡ Some make) }
    ensures err { IfErr result (NoMemoryOr (make_of_rows (rows_of (found_of matches.now)) ≡ None)) }
{
    let file = given(matches, "FILE");
    if !is_file_name(file.as_bytes()) {
        return Err(WordsFail::NoCommand);
    }
    let Some(seed) = seed_of(given(matches, "SEED")) else {
        return Err(WordsFail::NoCommand);
    };
    let file = Text::from_str(alloc, file)?;
    Ok(MakeWords { seed, file })
}

/// What the words after `make` ask for.
pub(crate) fn read_make(alloc: Global, words: &[&str]) -> Result<MakeWords, WordsFail>
    ensures ok { IfOk result (λ make. make_of (map (λ s. s.now) words.now) ≡ Some make) }
    ensures err { IfErr result (NoMemoryOr (make_of (map (λ s. s.now) words.now) ≡ None)) }
{
    let parameters = [Parameter::Required("SEED"), Parameter::Required("FILE")];
    let matches = matches_of(alloc, "make", &parameters, words)?;
    make_words(alloc, &matches)
}
