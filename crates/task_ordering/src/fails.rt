//! Why there is no order.
use std::alloc::AllocError;
use thiserror::Error;

/// Why tasks have no order.
#[derive(Clone, Copy, Debug, PartialEq, Eq, Error)]
pub enum OrderRefusal {
    /// There are more than `MAX_NUMBERS` tasks, or more numbers in a list or among those asked for.
    #[error("there are too many tasks or numbers")]
    TooMany,
    /// A task, or else what is asked for, names a number that is no task.
    #[error("a number is that of no task")]
    NoSuchTask(Option<u32>),
    /// The lowest of the tasks to run that stand on a cycle or come after one.
    #[error("a task stands on a cycle or comes after one")]
    Cycle(u32),
}

/// Why no order was made.
#[derive(Clone, Copy, Debug, PartialEq, Eq, Error)]
pub enum OrderFail {
    /// There is none.
    #[error("the tasks have no order")]
    Refused(OrderRefusal),
    /// There was no memory.
    #[error("there is no memory for the order")]
    NoMemory,
}

impl From<AllocError> for OrderFail {
    ghost use Rattle.std.specs.Prelude.{◌≡◌};
    ghost use Rattle.task_ordering.specs.declared.fails.OrderFail.TheVariants.{NoMemory};

    ghost from_gives = { λ _ fail. fail ≡ NoMemory };

    fn from(_error: AllocError) -> OrderFail {
        OrderFail::NoMemory
    }
}
