//! Tests of `work_tickets`, `task_ordering` and `order_check`.
#![tactic(auto)]

#[cfg(test)]
mod order_check_tests;
#[cfg(test)]
mod task_ordering_tests;
#[cfg(test)]
mod work_tickets_tests;
