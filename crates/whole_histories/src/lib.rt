//! Histories that are held whole: read from their text, checked against a plan, and driven again.
#![tactic(auto)]

mod again;
mod laws;
mod lines;
mod read;
mod whole;

pub use again::drive_again;
pub use laws::whole_and_line_by_line_agree;
pub use lines::next_line;
pub use read::read_history;
pub use whole::{admit, check};
