//! The texts of a run: its results, its history, and what happened to its daemons. Printing takes no memory.
//!
//! Each call adds a text to a page, which can take several texts one after another.
#![tactic(auto)]

mod change_words;
mod changes;
mod counts;
mod digests;
mod endings;
mod entries;
mod entry_lines;
mod events;
mod fails;
mod heads;
mod histories;
mod kinds;
mod laws;
mod lines;
mod outcome_words;
mod outcomes;
mod read_histories;
mod reading_laws;
mod results;
mod summaries;
mod tokens;
mod units;

pub use changes::{write_effect, write_mark};
pub use entries::{write_entry, write_kind};
pub use events::write_events;
pub use fails::TextFail;
pub use heads::{Version, read_version};
pub use histories::{write_end, write_head, write_head_lines, write_history};
pub use laws::results_go_by_number;
pub use lines::{LineHead, LineValue, read_line, read_line_into};
pub use outcomes::write_outcome;
pub use read_histories::{EntryHead, History, HistoryEntry, HistoryLine};
pub use reading_laws::{
    a_line_more, each_value_has_one_text, texts_stop_at_one_place, written_histories_are_read_back,
};
pub use results::write_results;
