//! What a parser makes of words.
ghost use Rattle.clap.specs.Faults.{is_simple_and_free};
ghost use Rattle.clap.specs.Matches.{found_of};
ghost use Rattle.clap.specs.Simple.{matches_of};
ghost use Rattle.clap.specs.Walk.{first_of, rows_of};
ghost use Rattle.command_words.specs.Failing.{NoMemoryOr};
ghost use Rattle.command_words.specs.Matching.{given, is_faultless, is_on};
ghost use Rattle.command_words.specs.Rules.{app_with};
ghost use Rattle.std.specs.Prelude.{map, option_map, false, true, IfErr, IfOk, ◌≡◌};

use crate::commands::WordsFail;
use crate::parser::{Parameter, command_with};
use clap::ArgMatches;
use clap::error::ErrorKind;
use std::alloc::Global;

/// What the parser of a command makes of the words behind its name.
pub(crate) fn matches_of<'a>(
    alloc: Global,
    name: &'a str,
    parameters: &[Parameter<'a>],
    words: &'a [&'a str],
) -> Result<ArgMatches<'a>, WordsFail>
    requires { is_simple_and_free (app_with name.now parameters.now) ≡ true }
    ensures ok { let app = app_with name.entry.now parameters.now in
        IfOk result (λ m. (is_faultless app (map (λ s. s.now) words.entry.now) ≡ true)
        × (rows_of (found_of m) ≡ matches_of app (map (λ s. s.now) words.entry.now))) }
    ensures err { let app = app_with name.entry.now parameters.now in
        IfErr result (NoMemoryOr (is_faultless app (map (λ s. s.now) words.entry.now) ≡ false)) }
{
    let command = command_with(alloc, name, parameters)?;
    match command.try_get_matches_from(words) {
        Ok(matches) => Ok(matches),
        Err(error) => match error.kind() {
            ErrorKind::OutOfMemory => Err(WordsFail::NoMemory),
            _ => Err(WordsFail::NoCommand),
        },
    }
}

/// The first value under this name, if there is one.
pub(crate) fn text_at<'a>(matches: &ArgMatches<'a>, id: &str) -> Option<&'a str>
    ensures { option_map (λ s. s.now) result ≡ first_of id.now (rows_of (found_of matches.now)) }
{
    matches.get_str(id)
}

/// The value of an argument that has to stand there.
pub(crate) fn given<'a>(matches: &ArgMatches<'a>, id: &str) -> &'a str
    ensures { result.now ≡ given id.now (rows_of (found_of matches.now)) }
{
    text_at(matches, id).unwrap_or("")
}

/// Whether the option without a value was given.
pub(crate) fn is_on(matches: &ArgMatches<'_>, id: &str) -> bool
    ensures { result ≡ is_on id.now (rows_of (found_of matches.now)) }
{
    match text_at(matches, id) {
        Some(text) => text == "true",
        None => false,
    }
}
