//! Tests of plans that are made by calls, and of what their workers do next.
#![tactic(auto)]

#[cfg(test)]
mod driving;
#[cfg(test)]
mod found;
#[cfg(test)]
mod misuse;
#[cfg(test)]
mod one_worker_tests;
#[cfg(test)]
mod outcome_tests;
#[cfg(test)]
mod plan_tests;
#[cfg(test)]
mod plans;
#[cfg(test)]
mod two_worker_tests;
#[cfg(test)]
mod two_workers;
