//! The words behind `run`.
ghost use Rattle.clap.specs.Matches.{found_of};
ghost use Rattle.clap.specs.Walk.{first_of, rows_of};
ghost use Rattle.command_words.specs.Failing.{NoMemoryOr};
ghost use Rattle.command_words.specs.Run.{HasBounds, count_or, is_plan_name, run_of, run_of_rows};
ghost use Rattle.command_words.specs.declared.numbers.TheConstants.{MAX_COUNT};
ghost use Rattle.std.specs.List.{list_any};
ghost use Rattle.std.specs.Prelude.{map, IfErr, IfOk, IfSome, None, Some, ◌==◌, ◌≡◌, ◌≤◌};

use crate::commands::{RunWords, WordsFail};
use crate::matching::{given, is_on, matches_of, text_at};
use crate::numbers::parsed_count;
use crate::parser::Parameter;
use clap::ArgMatches;
use item_actions::Text;
use std::alloc::Global;

/// The most bytes of the name of the plan's file.
const MAX_PLAN_NAME_BYTES: usize = 255;

/// The most leases that may be out, where the words don't say it.
const DEFAULT_MAX_LEASES: u32 = 2;

// The number that an option gives, or the default where the option isn't there.
fn count_at(matches: &ArgMatches<'_>, id: &str, default: u32) -> Option<u32>
    requires some { 1 ≤ default }
    requires few { default ≤ MAX_COUNT }
    ensures value { result ≡ count_or (first_of id.now (rows_of (found_of matches.now))) default }
    ensures some { IfSome result (λ n. 1 ≤ n) }
    ensures few { IfSome result (λ n. n ≤ MAX_COUNT) }
{
    match text_at(matches, id) {
        Some(text) => parsed_count(text),
        None => Some(default),
    }
}

// Whether one of the bytes is zero.
fn has_zero(bytes: &[u8]) -> bool
    ensures { result ≡ list_any (λ b. b == 0) bytes.now }
{
    bytes.iter().any(|b| *b == 0)
}

/// Whether a text may be the name of a plan's file.
pub(crate) fn is_plan_name(text: &str) -> bool
    ensures { result ≡ is_plan_name text.now }
{
    1 <= text.len() && text.len() <= MAX_PLAN_NAME_BYTES && !has_zero(text.as_bytes())
}

// What the words of `run` ask for, by the parser's matches.
fn run_words(alloc: Global, matches: &ArgMatches<'_>) -> Result<RunWords, WordsFail>
    ensures ok { IfOk result (λ run. run_of_rows (rows_of (found_of matches.now)) ≡ Some run) }
    ensures bounds { IfOk result HasBounds }
    ensures err { IfErr result (NoMemoryOr (run_of_rows (rows_of (found_of matches.now)) ≡ None)) }
{
    let plan = given(matches, "PLAN");
    if !is_plan_name(plan) {
        return Err(WordsFail::NoCommand);
    }
    let Some(max_leases) = count_at(matches, "max-workers", DEFAULT_MAX_LEASES) else {
        return Err(WordsFail::NoCommand);
    };
    let Some(threads) = count_at(matches, "threads", max_leases) else {
        return Err(WordsFail::NoCommand);
    };
    Ok(RunWords {
        plan: Text::from_str(alloc, plan)?,
        threads,
        max_leases,
        parallel: is_on(matches, "parallel"),
        history: is_on(matches, "history"),
        daemons: is_on(matches, "daemons"),
        watch: is_on(matches, "watch"),
        summary: is_on(matches, "summary"),
    })
}

/// What the words after `run` ask for.
pub(crate) fn read_run(alloc: Global, words: &[&str]) -> Result<RunWords, WordsFail>
    ensures ok { IfOk result (λ run. run_of (map (λ s. s.now) words.now) ≡ Some run) }
    ensures bounds { IfOk result HasBounds }
    ensures err { IfErr result (NoMemoryOr (run_of (map (λ s. s.now) words.now) ≡ None)) }
{
    let parameters = [
        Parameter::Required("PLAN"),
        Parameter::WithValue("max-workers"),
        Parameter::WithValue("threads"),
        Parameter::Flag("parallel"),
        Parameter::Flag("history"),
        Parameter::Flag("daemons"),
        Parameter::Flag("watch"),
        Parameter::Flag("summary"),
    ];
    let matches = matches_of(alloc, "run", &parameters, words)?;
    run_words(alloc, &matches)
}
