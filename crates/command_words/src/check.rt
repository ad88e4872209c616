//! The words behind `check`.
ghost use Rattle.clap.specs.Matches.{found_of};
ghost use Rattle.clap.specs.Walk.{rows_of};
ghost use Rattle.command_words.specs.Check.{check_of, check_of_rows};
ghost use Rattle.command_words.specs.Failing.{NoMemoryOr};
ghost use Rattle.std.specs.Prelude.{map, IfErr, IfOk, None, Some, ◌≡◌};

use crate::commands::WordsFail;
use crate::matching::{given, matches_of};
use crate::parser::Parameter;
use crate::run::is_plan_name;
use clap::ArgMatches;
use item_actions::Text;
use std::alloc::Global;

/// The name of the plan's file, by the parser's matches.
pub(crate) fn plan_named(alloc: Global, matches: &ArgMatches<'_>) -> Result<Text, WordsFail>
    ensures ok { IfOk result (λ plan. check_of_rows (rows_of (found_of matches.now)) ≡ Some plan) }
    ensures err { IfErr result (NoMemoryOr (check_of_rows (rows_of (found_of matches.now)) ≡ None)) }
{
    let plan = given(matches, "PLAN");
    if !is_plan_name(plan) {
        return Err(WordsFail::NoCommand);
    }
    Ok(Text::from_str(alloc, plan)?)
}

/// The name of the plan's file that the words after `check` give.
#[tactic(auto, unfolding(crate::specs::Rules::check_app))]
pub(crate) fn read_check(alloc: Global, words: &[&str]) -> Result<Text, WordsFail>
    ensures ok { IfOk result (λ plan. check_of (map (λ s. s.now) words.now) ≡ Some plan) }
    ensures err { IfErr result (NoMemoryOr (check_of (map (λ s. s.now) words.now) ≡ None)) }
{
    let matches = matches_of(alloc, "check", &[Parameter::Required("PLAN")], words)?;
    plan_named(alloc, &matches)
}
