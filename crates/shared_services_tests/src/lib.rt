//! Tests of `shared_services` and `service_jobs`, which the program doesn't use.
#![tactic(auto)]

#[cfg(test)]
mod books;
#[cfg(test)]
mod replays;
#[cfg(test)]
mod service_jobs_tests;
#[cfg(test)]
mod shared_services_tests;
#[cfg(test)]
mod uses_tests;
