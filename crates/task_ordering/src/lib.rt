//! The order of tasks by what each comes after, what it must run after, and what finalizes it: the least order of those to run.
#![tactic(auto)]

ghost use Rattle.std.specs.Prelude.{◌≡◌, List, ℕ};
ghost use Rattle.task_ordering.specs.Orders.{IsLeastOrder};
ghost use Rattle.task_ordering.specs.Tasks.{IsBefore, IsToRun};
ghost use Rattle.task_ordering.specs.declared.tasks.OrderTask.{OrderTask};

mod admitting;
mod befores;
mod checking;
mod fails;
mod given_entries;
mod limits;
mod marks;
mod orderings;
mod placing;
mod reaching;
mod tasks;

pub use admitting::first_unlawful;
pub use checking::Kept;
pub use fails::{OrderFail, OrderRefusal};
pub use given_entries::{Entries, GivenEntry};
pub use limits::MAX_NUMBERS;
pub use orderings::Ordering;
pub use tasks::OrderTask;

/// Of any tasks, whatever is asked, there is one least order at most.
pub fn least_order_is_unique()
    ensures { (tasks : List OrderTask) (asked xs ys : List ℕ) → IsLeastOrder (IsToRun tasks asked) (IsBefore tasks asked) xs
        → IsLeastOrder (IsToRun tasks asked) (IsBefore tasks asked) ys → xs ≡ ys }
{}
