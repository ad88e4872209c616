//! A pool of daemons within a memory budget: the heaps of its daemons, and of those that may still be started, are together at
//! most the budget.
#![tactic(auto)]

mod counted_budget;
mod held;
mod locks;
mod permits;
mod pools;
mod rooms;
mod runs;

pub use counted_budget::{BudgetLedger, CountedBudget, CountedPermit};
pub use locks::BudgetLock;
pub use permits::Permit;
pub use pools::{BudgetPool, MAX_BUDGET_MB};
pub use rooms::{Room, Unadopted};
pub use runs::{Budgeted, BudgetedRun, SharedBudget, run_in_budget, stop_daemon, stop_idle};
