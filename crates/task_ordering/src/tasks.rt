//! Tasks, and the numbers in their lists.
ghost use Rattle.std.specs.Prelude.{length, ◌<◌, ◌≡◌};
ghost use Rattle.task_ordering.specs.Tasks.{after, finalized_by, must_after};

/// A task. Its lists have numbers of tasks.
#[derive(Drop)]
pub struct OrderTask {
    /// The tasks that it comes after. They run where it does.
    pub after: Vec<u32>,
    /// The tasks that it comes after where they run too.
    pub must_after: Vec<u32>,
    /// The tasks that come after it. They run where it does.
    pub finalized_by: Vec<u32>,
}

/// The tasks that a task comes after.
pub(crate) fn after_of(tasks: &[OrderTask], task: usize) -> &[u32]
    requires { task < length tasks.now }
    ensures { result.now ≡ after tasks.entry.now task }
{
    tasks[task].after.as_slice()
}

/// The tasks that a task comes after where they run too.
pub(crate) fn must_after_of(tasks: &[OrderTask], task: usize) -> &[u32]
    requires { task < length tasks.now }
    ensures { result.now ≡ must_after tasks.entry.now task }
{
    tasks[task].must_after.as_slice()
}

/// The tasks that finalize a task.
pub(crate) fn finalizers_of(tasks: &[OrderTask], task: usize) -> &[u32]
    requires { task < length tasks.now }
    ensures { result.now ≡ finalized_by tasks.entry.now task }
{
    tasks[task].finalized_by.as_slice()
}
