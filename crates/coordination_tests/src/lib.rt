//! Tests of the crates from `coordination` to `blocking_section`: what several workers do. Services and questions are public for the tests
//! of `async_tracker_tests`.
#![tactic(auto)]

#[cfg(test)]
mod blocking_section_tests;
#[cfg(test)]
mod coordination_tests;
pub mod entries;
#[cfg(test)]
mod giving_tests;
#[cfg(test)]
mod lease_service_tests;
pub mod services;
