//! The least order of the tasks to run.
ghost use Rattle.std.specs.Prelude.{IfErr, IfOk, ◌≡◌, ◌↔◌, ℕ};
ghost use Rattle.task_ordering.specs.Befores.{IsListedBefore};
ghost use Rattle.task_ordering.specs.Orders.{IsLeastOrder};
ghost use Rattle.task_ordering.specs.Refusals.{AreNamed, IsAccepted, IsFailedFor};
ghost use Rattle.task_ordering.specs.Tasks.{IsBefore, IsToRun};

use crate::befores::befores_of;
use crate::checking::{Ended, Kept};
use crate::fails::{OrderFail, OrderRefusal};
use crate::given_entries::Entries;
use crate::limits::refuse_strays;
use crate::marks::first_unplaced;
use crate::placing::Placing;
use crate::reaching::tasks_to_run;
use crate::tasks::OrderTask;
use std::alloc::{AllocError, Global};
use std::marker::Model;

/// The least order of the tasks to run, and for each of them those before it.
// Tasks are borrowed: nothing of them is kept but which stand before which. Tasks that are left when none is ready are those without a
// rank, so a cycle is found by placing.
#[derive(Drop)]
pub struct Ordering {
    befores: Vec<Vec<u32>>,
    order: Vec<u32>,
}

impl Model for Ordering {
    ghost use Rattle.task_ordering.specs.OrderingView.{OrderingView};
    ghost use Rattle.task_ordering.specs.Ordering.{ordering_view, HasTasks};

    ghost Value = { OrderingView };

    ghost view = { ordering_view };

    ghost invariant = { HasTasks };
}

impl Ordering {
    ghost use Rattle.task_ordering.specs.Checking.{IsFound};

    /// The least order of the tasks asked for and those that they need.
    pub fn of(alloc: Global, tasks: &[OrderTask], asked: &[u32]) -> Result<Ordering, OrderFail>
        ensures accepted { IfOk result (λ _. IsAccepted tasks.now asked.now) }
        ensures order { IfOk result (λ ordering. IsLeastOrder (IsToRun tasks.now asked.now) (IsBefore tasks.now asked.now) ordering.order) }
        ensures befores { IfOk result (λ ordering. (a b : ℕ) → IsListedBefore ordering.befores a b ↔ IsBefore tasks.now asked.now a b) }
        ensures refused { IfErr result (IsFailedFor tasks.now asked.now) }
    {
        if let Err(refusal) = refuse_strays(tasks, asked) {
            return Err(OrderFail::Refused(refusal));
        }
        Ordering::of_named(alloc, tasks, asked)
    }

    // `of`, where each number is that of a task.
    fn of_named(alloc: Global, tasks: &[OrderTask], asked: &[u32]) -> Result<Ordering, OrderFail>
        requires { AreNamed tasks.now asked.now }
        ensures accepted { IfOk result (λ _. IsAccepted tasks.now asked.now) }
        ensures order { IfOk result (λ ordering. IsLeastOrder (IsToRun tasks.now asked.now) (IsBefore tasks.now asked.now) ordering.order) }
        ensures befores { IfOk result (λ ordering. (a b : ℕ) → IsListedBefore ordering.befores a b ↔ IsBefore tasks.now asked.now a b) }
        ensures refused { IfErr result (IsFailedFor tasks.now asked.now) }
    {
        let to_run = tasks_to_run(alloc, tasks, asked)?;
        let befores = befores_of(alloc, tasks, &to_run)?;
        let Placing { placed, order, .. } = Placing::of(alloc, &befores, &to_run)?;
        match first_unplaced(&to_run, &placed) {
            Some(task) => Err(OrderFail::Refused(OrderRefusal::Cycle(task as u32))),
            None => Ok(Ordering { befores, order }),
        }
    }

    /// The tasks to run, in their order.
    pub fn order(&self) -> &[u32]
        ensures { result.now ≡ self.now.order }
    {
        self.order.as_slice()
    }

    /// Whether no finished entry of a history starts a task before those that stand before it have ended or been skipped. The
    /// history may be a book that gave no entries away, or entries that needn't be lawful: given ones, or with `order_check`
    /// those of a text.
    pub fn check<H: Entries>(&self, alloc: Global, history: &H) -> Result<Kept, AllocError>
        requires { H.whole history.now }
        ensures { IfOk result (IsFound self.now.befores (H.entries history.now)) }
    {
        let mut ended = Ended::none(alloc, self.befores.len())?;
        for place in 0..history.count() {
            let entry = history.at(place);
            if ended.starts_early(&self.befores, entry) {
                return Ok(Kept::Broken(place + 1));
            }
            ended.note(entry);
        }
        Ok(Kept::Kept)
    }
}
