//! TOML documents in little memory: what `toml` reads in a text, by the same grammar and rules, with each table as a row of its entries.
#![tactic(auto)]

mod inner_values;
mod nodes;
mod reading;
mod values;

pub use reading::{DocumentFail, read};
pub use values::{Table, Value, place_of, rises};
