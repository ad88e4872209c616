//! Tests of the daemons: what they are started with, their pool, their frames, their desks and their items.
#![tactic(auto)]

#[cfg(test)]
mod asked;
#[cfg(test)]
mod claimed_items;
#[cfg(test)]
mod desk_tests;
#[cfg(test)]
mod item_tests;
#[cfg(test)]
mod lines;
#[cfg(test)]
mod manager_tests;
#[cfg(test)]
mod memory_desks;
#[cfg(test)]
mod pool_tests;
#[cfg(test)]
mod protocol_tests;
#[cfg(test)]
mod requirement_tests;
