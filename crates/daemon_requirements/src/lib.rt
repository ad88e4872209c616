//! What a daemon must be started with, and which daemon serves for what is asked.
#![tactic(auto)]

mod copies;
mod equality;
mod fields;
mod held_fields;
mod links;
mod names;
mod requirement;
mod rules;
mod work;

pub use fields::{Pair, RequirementFields};
pub use links::Linked;
pub use requirement::{MAX_HEAP_MB, PairList, RequirementRefusal, Requirements};
pub use rules::{FieldRule, FieldTable, REQUIREMENT_TABLE};
pub use work::{Isolation, Work};
