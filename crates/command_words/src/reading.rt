ghost use Rattle.command_words.specs.Failing.{NoMemoryOr};
ghost use Rattle.command_words.specs.Again.{again_of};
ghost use Rattle.command_words.specs.Check.{check_of};
ghost use Rattle.command_words.specs.Make.{make_of};
ghost use Rattle.command_words.specs.Reading.{IsBounded, command_named, command_of, other_named};
ghost use Rattle.command_words.specs.Run.{run_of};
ghost use Rattle.command_words.specs.declared.commands.Command.TheVariants.{Again, Check, Make, Run};
ghost use Rattle.std.specs.Prelude.{map, option_map, IfErr, IfOk, None, Some, ◌≡◌};

use crate::again::read_again;
use crate::check::read_check;
use crate::commands::{Command, WordsFail};
use crate::make::read_make;
use crate::run::read_run;
use item_actions::Text;
use std::alloc::{AllocError, Global};

// The words as borrowed strings, in their order.
fn borrowed(alloc: Global, words: &[Text]) -> Result<Vec<&str>, AllocError>
    ensures { IfOk result (λ strs. map (λ s. s.now) strs.items ≡ words.entry.now) }
{
    let mut strs = Vec::with_capacity(alloc, words.len())?;
    for word in words {
        strs.push(word.as_str())?;
    }
    Ok(strs)
}

// The command `run` with these words, or that they are none.
fn run(alloc: Global, words: &[Text]) -> Result<Command, WordsFail>
    ensures ok { IfOk result (λ command. option_map Run (run_of words.now) ≡ Some command) }
    ensures bounds { IfOk result IsBounded }
    ensures err { IfErr result (NoMemoryOr (option_map Run (run_of words.now) ≡ None)) }
{
    let words = borrowed(alloc, words)?;
    read_run(alloc, &words).map(Command::Run)
}

// The command `check` with these words, or that they are none.
fn check(alloc: Global, words: &[Text]) -> Result<Command, WordsFail>
    ensures ok { IfOk result (λ command. option_map Check (check_of words.now) ≡ Some command) }
    ensures bounds { IfOk result IsBounded }
    ensures err { IfErr result (NoMemoryOr (option_map Check (check_of words.now) ≡ None)) }
{
    let words = borrowed(alloc, words)?;
    read_check(alloc, &words).map(Command::Check)
}

// The command `again` with these words, or that they are none.
fn again(alloc: Global, words: &[Text]) -> Result<Command, WordsFail>
    ensures ok { IfOk result (λ command. option_map Again (again_of words.now) ≡ Some command) }
    ensures bounds { IfOk result IsBounded }
    ensures err { IfErr result (NoMemoryOr (option_map Again (again_of words.now) ≡ None)) }
{
    let words = borrowed(alloc, words)?;
    read_again(alloc, &words).map(Command::Again)
}

// The command `make` with these words, or that they are none.
fn make(alloc: Global, words: &[Text]) -> Result<Command, WordsFail>
    ensures ok { IfOk result (λ command. option_map Make (make_of words.now) ≡ Some command) }
    ensures bounds { IfOk result IsBounded }
    ensures err { IfErr result (NoMemoryOr (option_map Make (make_of words.now) ≡ None)) }
{
    let words = borrowed(alloc, words)?;
    read_make(alloc, &words).map(Command::Make)
}

// The command of this name, where it is neither `run` nor `worker`.
fn other(alloc: Global, name: &str, rest: &[Text]) -> Result<Command, WordsFail>
    ensures ok { IfOk result (λ command. other_named name.now rest.now ≡ Some command) }
    ensures bounds { IfOk result IsBounded }
    ensures err { IfErr result (NoMemoryOr (other_named name.now rest.now ≡ None)) }
{
    match name {
        "check" => check(alloc, rest),
        "again" => again(alloc, rest),
        "make" => make(alloc, rest),
        _ => Err(WordsFail::NoCommand),
    }
}

// The command of this name.
fn named(alloc: Global, name: &str, rest: &[Text]) -> Result<Command, WordsFail>
    ensures ok { IfOk result (λ command. command_named name.now rest.now ≡ Some command) }
    ensures bounds { IfOk result IsBounded }
    ensures err { IfErr result (NoMemoryOr (command_named name.now rest.now ≡ None)) }
{
    match name {
        "run" => run(alloc, rest),
        "worker" => Ok(Command::Worker),
        _ => other(alloc, name, rest),
    }
}

/// The command that the words after the program's name are.
///
/// The first word is the command's name, `run`, `worker`, `check`, `again` or `make`. Behind `run` stand the name of the
/// plan's file and, in any order, `--max-workers` and `--threads` with a number each, `--parallel`, `--history`,
/// `--daemons`, `--watch` and `--summary`. What stands behind `worker` isn't looked at. Behind `check` and behind `again` stands
/// the name of the plan's file alone. Behind `make` stand a number below 2^64, with 1 to 20 digits, and the name of a
/// file. NoCommand comes exactly where the words are none.
pub fn read_command(alloc: Global, words: &[Text]) -> Result<Command, WordsFail>
    ensures ok { IfOk result (λ command. command_of words.now ≡ Some command) }
    ensures bounds { IfOk result IsBounded }
    ensures err { IfErr result (NoMemoryOr (command_of words.now ≡ None)) }
{
    let [name, rest @ ..] = words else {
        return Err(WordsFail::NoCommand);
    };
    named(alloc, name.as_str(), rest)
}
