//! Units by their places in a plan.
ghost use Rattle.std.specs.Prelude.{ℕ, ◌≡◌, ◌<◌, IfNone, IfSome, length};
ghost use Rattle.planned_work.specs.Numbers.{IsActionAt, IsUnitAt};

use resource_lock::Graph;

/// A unit by its place in the plan.
#[derive(Clone, Copy, PartialEq, Eq)]
pub struct Numbered {
    /// The task.
    pub task: u32,
    /// The action, by its place in its task.
    pub action: u32,
    /// The item, by its place in its action, or none for the fetch.
    pub item: Option<u32>,
}

impl Numbered {
    /// The place of a unit.
    pub fn of_unit(graph: &Graph, unit: u32) -> Numbered
        requires { unit < graph.now.units }
        ensures { IsUnitAt graph.now unit result }
    {
        let number = graph.action_with(unit);
        let action = &graph.actions()[number as usize];
        let place = unit - action.first_unit;
        let item = if action.fetch {
            place.checked_sub(1)
        } else {
            Some(place)
        };
        let (task, action) = action_place(graph, number);
        Numbered { task, action, item }
    }

    /// The unit at this place. None says that there is none.
    pub fn unit(self, graph: &Graph) -> Option<u32>
        ensures some { IfSome result (λ unit. IsUnitAt graph.now unit self × (unit < graph.now.units)) }
        ensures none { IfNone result ((u : ℕ) → IsUnitAt graph.now u self → ⊥) }
    {
        let tasks = graph.tasks();
        if self.task as usize >= tasks.len() {
            return None;
        }
        let task = tasks.at(self.task as usize);
        if self.action >= task.actions {
            return None;
        }
        let action = &graph.actions()[(task.first_action + self.action) as usize];
        match self.item {
            None => action.fetch.then_some(action.first_unit),
            Some(item) if item < action.items => {
                Some(action.first_unit + u32::from(action.fetch) + item)
            }
            Some(_) => None,
        }
    }
}

/// The task of an action, and the action's place in it.
pub fn action_place(graph: &Graph, action: u32) -> (u32, u32)
    requires { action < length graph.now.actions }
    ensures { IsActionAt graph.now action result.0 result.1 }
{
    let task = graph.actions()[action as usize].task;
    let first = graph.tasks().at(task as usize).first_action;
    (task, action - first)
}
