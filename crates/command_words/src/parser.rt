//! The parsers of the words behind a command's name.
ghost use Rattle.clap.specs.Simple.{app_of};
ghost use Rattle.clap.specs.Walk.{rule_of};
ghost use Rattle.command_words.specs.Rules.{app_with, asked_rule, bare_app, flag_rule, option_rule, required_rule};
ghost use Rattle.std.specs.Prelude.{false, IfOk, ◌≡◌};

use clap::{Arg, ArgAction, Command};
use std::alloc::{AllocError, Global};

/// What may stand behind a command's name.
#[derive(Drop)]
pub(crate) enum Parameter<'a> {
    /// A value that has to stand there, by its place.
    Required(&'a str),
    /// An option with one value.
    WithValue(&'a str),
    /// An option without a value.
    Flag(&'a str),
}

// The parser's rule for a word that has to be there.
fn required<'a>(alloc: Global, name: &'a str) -> Arg<'a>
    ensures rule { rule_of result ≡ required_rule name.entry.now }
    ensures local { result.global ≡ false }
{
    Arg::new(alloc, name).required(true).action(ArgAction::Set)
}

// The parser's rule for an option with a value.
fn option<'a>(alloc: Global, name: &'a str) -> Arg<'a>
    ensures rule { rule_of result ≡ option_rule name.entry.now }
    ensures local { result.global ≡ false }
{
    Arg::new(alloc, name).long(name).action(ArgAction::Set)
}

// The parser's rule for an option without a value.
fn flag<'a>(alloc: Global, name: &'a str) -> Arg<'a>
    ensures rule { rule_of result ≡ flag_rule name.entry.now }
    ensures local { result.global ≡ false }
{
    Arg::new(alloc, name).long(name).action(ArgAction::SetTrue)
}

// The parser's rule for a parameter.
fn argument<'a>(alloc: Global, parameter: &Parameter<'a>) -> Arg<'a>
    ensures rule { rule_of result ≡ asked_rule parameter.now }
    ensures local { result.global ≡ false }
{
    match parameter {
        Parameter::Required(name) => required(alloc, name),
        Parameter::WithValue(name) => option(alloc, name),
        Parameter::Flag(name) => flag(alloc, name),
    }
}

// A command without parameters. It has none of the words that the parser adds by itself.
fn bare_command<'a>(alloc: Global, name: &'a str) -> Command<'a>
    ensures { app_of result ≡ bare_app name.entry.now }
{
    Command::new(alloc, name)
        .no_binary_name(true)
        .disable_help_flag(true)
        .disable_version_flag(true)
}

/// The parser of what stands behind a command's name.
#[tactic(auto, using(std::proofs::lemmas::List::Sums::fold_more))]
pub(crate) fn command_with<'a>(
    alloc: Global,
    name: &'a str,
    parameters: &[Parameter<'a>],
) -> Result<Command<'a>, AllocError>
    ensures { IfOk result (λ c. app_of c ≡ app_with name.entry.now parameters.now) }
{
    let mut command = bare_command(alloc, name);
    for parameter in parameters {
        command = command.arg(argument(alloc, parameter))?;
    }
    Ok(command)
}
