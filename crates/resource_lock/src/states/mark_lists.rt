//! The marks of a state.
ghost use Rattle.std.specs.Prelude.{◌≡◌, IfOk, length, replicate};
ghost use Rattle.resource_lock.specs.Change.{with_mark};
ghost use Rattle.resource_lock.specs.MarkLists.{with_marks};
ghost use Rattle.resource_lock.specs.StateView.{StateView, IsMarkOf};
ghost use Rattle.resource_lock.specs.declared.marks.Mark.TheVariants.{Waiting};

use crate::graphs::Graph;
use crate::marks::{Mark, MarkId};
use std::alloc::{AllocError, Global};

/// How far each task, action and unit has come.
#[derive(Drop)]
pub(super) struct MarkLists {
    pub(super) tasks: Vec<Mark>,
    pub(super) actions: Vec<Mark>,
    pub(super) units: Vec<Mark>,
}

impl MarkLists {
    /// The marks of a graph's tasks, actions and units, each Waiting. Only want of memory is an error.
    pub(super) fn waiting(alloc: Global, graph: &Graph) -> Result<MarkLists, AllocError>
        ensures tasks { IfOk result (λ marks. marks.tasks.items ≡ replicate (length graph.now.tasks) Waiting) }
        ensures actions { IfOk result (λ marks. marks.actions.items ≡ replicate (length graph.now.actions) Waiting) }
        ensures units { IfOk result (λ marks. marks.units.items ≡ replicate graph.now.units Waiting) }
    {
        Ok(MarkLists {
            tasks: vec![in alloc; Mark::Waiting; graph.tasks().len()]?,
            actions: vec![in alloc; Mark::Waiting; graph.actions().len()]?,
            units: vec![in alloc; Mark::Waiting; graph.units() as usize]?,
        })
    }

    /// Writes the mark of a task, an action or a unit.
    #[inline(always)]
    pub(super) fn set(&mut self, id: MarkId, mark: Mark)
        requires { (s : StateView) × IsMarkOf (with_marks s self.old) id }
        ensures { (s : StateView) → with_marks s self.new ≡ with_mark (with_marks s self.old) id mark }
    {
        match id {
            MarkId::Task(task) => self.tasks[task as usize] = mark,
            MarkId::Action(action) => self.actions[action as usize] = mark,
            MarkId::Unit(unit) => self.units[unit as usize] = mark,
        }
    }
}
