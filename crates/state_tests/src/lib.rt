//! Tests of the crates from `resource_lock` to `lock_journal`, and graphs and books for those of the crates above.
#![tactic(auto)]

#[cfg(test)]
mod all_projects_tests;
#[cfg(test)]
mod book_tests;
pub mod books;
#[cfg(test)]
mod fitting;
#[cfg(test)]
mod giving_tests;
pub mod graphs;
#[cfg(test)]
mod indexed;
#[cfg(test)]
mod limit_tests;
#[cfg(test)]
mod lock_calls;
#[cfg(test)]
mod many_workers_tests;
#[cfg(test)]
mod numbers;
#[cfg(test)]
mod ready_work_tests;
#[cfg(test)]
mod resource_lock_tests;
#[cfg(test)]
mod room_tests;
pub mod rows;
#[cfg(test)]
mod task_ranks_tests;
