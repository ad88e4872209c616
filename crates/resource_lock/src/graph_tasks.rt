//! The tasks of a graph.
ghost use Rattle.std.specs.Prelude.{◌≡◌, ◌<◌, ◌∷◌, ◌++◌, [], ℕ, List, OnErr, OnOk, length, slice_index_or};
ghost use Rattle.resource_lock.specs.GraphView.{no_task};
ghost use Rattle.resource_lock.specs.GraphTasks.{graph_view, tasks_from};

use crate::ids::LockId;
use crate::number_lists::NumberLists;
use std::alloc::{AllocError, Global};
use std::marker::Model;

/// A task: its project lock, and its range of actions.
#[derive(Clone, Copy)]
pub struct GraphTask {
    pub lock: LockId,
    pub first_action: u32,
    pub actions: u32,
}

/// The tasks of a graph by number, each with the tasks that it comes after. The numbers of those stand in one vector, so that a task takes
/// 16 bytes, and 4 for each name. Contracts see a list of tasks.
#[derive(Drop)]
pub struct GraphTasks {
    rows: Vec<GraphTask>,
    // For each task those that it comes after.
    after: NumberLists,
}

impl Model for GraphTasks {
    ghost use Rattle.std.specs.Prelude.{◌≡◌, List, length};
    ghost use Rattle.resource_lock.specs.GraphView.{GraphTaskView};
    ghost use Rattle.resource_lock.specs.GraphTasks.{tasks_from};

    ghost Value = { List GraphTaskView };

    ghost view = { λ t. tasks_from t.rows.items t.after };

    ghost invariant = { λ t. length t.after ≡ length t.rows.items };
}

impl GraphTasks {
    /// No task. It takes no memory.
    pub fn none(alloc: Global) -> GraphTasks
        ensures { result ≡ [] }
    {
        GraphTasks {
            rows: Vec::new(alloc),
            after: NumberLists::none(alloc),
        }
    }

    /// Puts a task behind the others, which comes after those of these numbers. It fails for want of memory, and where there would be 2^32
    /// names in all, or more. The tasks are as before then.
    pub fn push(&mut self, task: GraphTask, after: &[u32]) -> Result<(), AllocError>
        ensures ok { OnOk result (self.new ≡ self.old ++ graph_view task after.now ∷ []) }
        ensures kept { OnErr result (self.new ≡ self.old) }
    {
        self.rows.try_reserve(1)?;
        self.after.push(after)?;
        self.rows.push_reserved(task);
        Ok(())
    }

    /// How many tasks there are.
    pub fn len(&self) -> usize
        ensures { result ≡ length self.now }
    {
        self.rows.len()
    }

    /// A task, by its number.
    pub fn at(&self, task: usize) -> GraphTask
        requires { task < length self.now }
        ensures lock { result.lock ≡ (slice_index_or self.now task no_task).lock }
        ensures first { result.first_action ≡ (slice_index_or self.now task no_task).first_action }
        ensures actions { result.actions ≡ (slice_index_or self.now task no_task).actions }
    {
        self.rows[task]
    }

    /// The tasks that a task comes after.
    pub fn after(&self, task: usize) -> &[u32]
        requires { task < length self.now }
        ensures { result.now ≡ (slice_index_or self.now task no_task).after }
    {
        self.after.at(task)
    }

    /// The tasks in order, without those that they come after.
    pub fn rows(&self) -> &[GraphTask]
        ensures { (lists : List (List ℕ)) × (tasks_from result.now lists ≡ self.now) }
    {
        &self.rows
    }
}
