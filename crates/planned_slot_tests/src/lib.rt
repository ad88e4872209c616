//! Tests of planned slots: plans that workers drive by tries of turns.
#![tactic(auto)]

#[cfg(test)]
mod plays;
#[cfg(test)]
mod rows;
