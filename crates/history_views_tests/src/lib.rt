//! Tests of `history_views`, and of services whose history is shown to views.
#![tactic(auto)]

#[cfg(test)]
mod history_views_tests;
#[cfg(test)]
mod looking_tests;
#[cfg(test)]
mod services;
#[cfg(test)]
mod turn_tests;
