//! The commands of the program, and why words give none.
ghost use Rattle.std.specs.Prelude.{◌≡◌};

use item_actions::Text;
use std::alloc::AllocError;
use thiserror::Error;

/// A command.
#[derive(Drop)]
pub enum Command {
    /// Reads a plan, runs it and prints.
    Run(RunWords),
    /// Answers the requests of a stream.
    Worker,
    /// Checks a history against the plan in the file of this name: 1 to 255 bytes, none of them zero.
    Check(Text),
    /// Drives a recorded run of the plan in the file of this name again. The name is of the same form.
    Again(Text),
    /// Prints a large plan that is made from a number.
    Make(MakeWords),
}

/// What the words of `run` ask for.
#[derive(Drop)]
pub struct RunWords {
    /// The name of the plan's file: 1 to 255 bytes, none of them zero.
    pub plan: Text,
    /// How many threads work, 1 to `MAX_COUNT`.
    pub threads: u32,
    /// The most leases that may be out, 1 to `MAX_COUNT`.
    pub max_leases: u32,
    /// Whether each project has a lock of its own.
    pub parallel: bool,
    /// Whether the history is printed.
    pub history: bool,
    /// Whether what happened to the daemons is printed.
    pub daemons: bool,
    /// Whether the workers look at the history while they run, and what they saw is printed.
    pub watch: bool,
    /// Whether of the results the summary alone is printed.
    pub summary: bool,
}

/// What the words of `make` ask for.
#[derive(Drop)]
pub struct MakeWords {
    /// The number that the plan is made from.
    pub seed: u64,
    /// The file of each item, by a name of the form that `item_actions::is_file_name` tests.
    pub file: Text,
}

/// Why words give no command.
#[derive(Debug, Drop, Error)]
pub enum WordsFail {
    /// They are none.
    #[error("the words are no command")]
    NoCommand,
    /// There was no memory to read them.
    #[error("there is no memory to read the words")]
    NoMemory,
}

impl From<AllocError> for WordsFail {
    ghost use Rattle.command_words.specs.declared.commands.WordsFail.TheVariants.{NoMemory};

    ghost from_gives = { λ _ fail. fail ≡ NoMemory };

    fn from(_error: AllocError) -> WordsFail {
        WordsFail::NoMemory
    }
}
