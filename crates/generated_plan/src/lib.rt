//! A large plan that is made from a number: 40 projects, and 400 tasks of 8 items each.
#![tactic(auto)]

mod actions;
mod draws;
mod plans;
mod tasks;

pub use plans::make_plan;
