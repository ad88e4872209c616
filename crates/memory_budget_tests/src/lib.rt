//! Tests of a pool within a memory budget.
#![tactic(auto)]

#[cfg(test)]
mod asked;
#[cfg(test)]
mod plan_tests;
#[cfg(test)]
mod pool_tests;
#[cfg(test)]
mod run_tests;
#[cfg(test)]
mod scene_tests;
