//! Tests of `item_actions` and `file_access`.
#![tactic(auto)]

#[cfg(test)]
mod file_access_tests;
#[cfg(test)]
mod folder_tests;
#[cfg(test)]
mod gate_tests;
#[cfg(test)]
mod item_actions_tests;
#[cfg(test)]
mod piece_tests;
