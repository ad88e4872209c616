//! What is done with the files of a build: texts, actions on bytes, and the outcomes of units.
#![tactic(auto)]

mod action_kinds;
mod actions;
mod counted;
mod counting;
mod edge;
mod forms;
mod keep_alive;
mod lanes;
mod laws;
mod limits;
mod needle_matches;
mod needle_state;
mod needles;
mod numbers;
mod occurrences;
mod outcome_kinds;
mod outcomes;
mod piece_state;
mod pieces;
mod places;
mod run_state;
mod separators;
mod texts;
mod word_counts;
mod word_state;

pub use action_kinds::ActionKind;
pub use actions::{ItemAction, act};
pub use forms::is_file_name;
pub use keep_alive::KeepAlive;
pub use laws::{
    actions_have_words_of_their_own, counting_goes_on_behind_the_first,
    keep_alive_modes_have_words_of_their_own, longest_is_the_greatest_piece,
    outcomes_have_words_of_their_own,
};
pub use limits::{MAX_FILE_BYTES, MAX_FILE_NAME_BYTES, MAX_NEEDLE_BYTES};
pub use needles::Needle;
pub use outcome_kinds::OutcomeKind;
pub use outcomes::Outcome;
pub use piece_state::PieceState;
pub use separators::{LINE_END, is_space};
pub use texts::{Text, TextRefusal};
