//! The tasks to run: those asked for, and what they need.
ghost use Rattle.std.specs.Prelude.{◌<◌, ◌≡◌, ◌∷◌, [], length, All, IfOk, OnOk};
ghost use Rattle.task_ordering.specs.Tasks.{IsToRun};
ghost use Rattle.task_ordering.specs.Refusals.{AreNamed};
ghost use Rattle.task_ordering.specs.Marks.{MarksExactly};

use crate::marks::no_marks;
use crate::tasks::{OrderTask, after_of, finalizers_of};
use std::alloc::{AllocError, Global};

/// A task has a mark once it is known to run. `stack` has those with a mark whose needs weren't looked at since.
#[derive(Drop)]
pub(crate) struct Reach {
    marks: Vec<bool>,
    stack: Vec<u32>,
}

impl Reach {
    ghost use Rattle.task_ordering.specs.Reach.{Reaches};

    // Marks a task, and puts it on the stack where it had no mark.
    fn reach(&mut self, task: u32) -> Result<(), AllocError>
        requires { task < length self.old.marks.items }
        ensures { OnOk result (Reaches self.old self.new (task ∷ [])) }
    {
        if !self.marks[task as usize] {
            self.stack.push(task)?;
            self.marks[task as usize] = true;
        }
        Ok(())
    }

    // Marks tasks, and puts those that had no mark on the stack.
    fn reach_all(&mut self, tasks: &[u32]) -> Result<(), AllocError>
        requires { All (λ t. t < length self.old.marks.items) tasks.now }
        ensures { OnOk result (Reaches self.old self.new tasks.now) }
    {
        for task in tasks {
            self.reach(*task)?;
        }
        Ok(())
    }
}

/// The marks of exactly the tasks that are to run.
pub(crate) fn tasks_to_run(
    alloc: Global,
    tasks: &[OrderTask],
    asked: &[u32],
) -> Result<Vec<bool>, AllocError>
    requires { AreNamed tasks.now asked.now }
    ensures { IfOk result (λ marks. MarksExactly (length tasks.now) (IsToRun tasks.now asked.now) marks.items) }
{
    let mut reach = Reach {
        marks: no_marks(alloc, tasks.len())?,
        stack: Vec::new(alloc),
    };
    reach.reach_all(asked)?;
    while let Some(task) = reach.stack.pop() {
        reach.reach_all(after_of(tasks, task as usize))?;
        reach.reach_all(finalizers_of(tasks, task as usize))?;
    }
    let Reach { marks, .. } = reach;
    Ok(marks)
}
