//! The words behind `again`.
ghost use Rattle.command_words.specs.Again.{again_of};
ghost use Rattle.command_words.specs.Failing.{NoMemoryOr};
ghost use Rattle.std.specs.Prelude.{map, IfErr, IfOk, None, Some, ◌≡◌};

use crate::check::plan_named;
use crate::commands::WordsFail;
use crate::matching::matches_of;
use crate::parser::Parameter;
use item_actions::Text;
use std::alloc::Global;

/// The name of the plan's file that the words after `again` give.
#[tactic(auto, unfolding(crate::specs::Rules::again_app))]
pub(crate) fn read_again(alloc: Global, words: &[&str]) -> Result<Text, WordsFail>
    ensures ok { IfOk result (λ plan. again_of (map (λ s. s.now) words.now) ≡ Some plan) }
    ensures err { IfErr result (NoMemoryOr (again_of (map (λ s. s.now) words.now) ≡ None)) }
{
    let matches = matches_of(alloc, "again", &[Parameter::Required("PLAN")], words)?;
    plan_named(alloc, &matches)
}
