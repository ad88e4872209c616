//! The words after the program's name, as a command.
#![tactic(auto)]

mod again;
mod check;
mod commands;
mod make;
mod matching;
mod numbers;
mod parser;
mod reading;
mod run;

pub use commands::{Command, MakeWords, RunWords, WordsFail};
pub use numbers::MAX_COUNT;
pub use reading::read_command;
