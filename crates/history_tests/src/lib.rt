//! Tests of `history_text`, `history_check` and `run_spans`.
#![tactic(auto)]

#[cfg(test)]
mod history_check_tests;
#[cfg(test)]
mod history_reader_tests;
#[cfg(test)]
mod history_text_tests;
#[cfg(test)]
mod recorded_run_tests;
#[cfg(test)]
mod run_spans_tests;
#[cfg(test)]
mod segment_text_tests;
