//! Whether the entries of a history that was read from its text kept an order of tasks. They needn't be lawful.
#![tactic(auto)]

mod checks;
mod read_entries;

pub use checks::check_text;
pub use read_entries::ReadEntries;
