//! Tests of `async_tracker` and `single_steps`: a task with two items, worked, waited for, skipped, closed and ended.
#![tactic(auto)]

#[cfg(test)]
mod async_tracker_tests;
#[cfg(test)]
mod closing_tests;
#[cfg(test)]
mod ending_tests;
#[cfg(test)]
mod skipping_tests;
#[cfg(test)]
mod waiting_tests;
