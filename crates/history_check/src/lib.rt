//! Checks a printed history against a plan, line by line as its lines come, and drives a recorded run again.
#![tactic(auto)]

mod admitted;
mod admitters;
mod again;
mod checks;
mod driving;
mod entry_checks;
mod fails;
mod inputs;
mod laws;
mod lines;
mod reached;
mod stops;
mod values;
mod whole_books;

pub use admitted::Admitted;
pub use admitters::Admitter;
pub use again::{Again, drive_admitted, drive_input};
pub use checks::{Checked, HistoryCheck};
pub use entry_checks::EntryCheck;
pub use fails::CheckFail;
pub use inputs::{MAX_INPUT_BYTES, admit_input, check_input};
pub use laws::{
    an_input_has_one_answer, little_is_taken_behind_a_wrong_line,
    plain_plans_are_checked_as_before, the_first_bytes_may_be_taken,
};
pub use lines::MAX_PIECE;
pub use reached::Reached;
pub use whole_books::WholeBook;
