//! Which action a unit belongs to.
ghost use Rattle.std.specs.Prelude.{◌≡◌, ◌<◌, IfOk, length};
ghost use Rattle.resource_lock.specs.Ranges.{IsUnitOf, is_item};
ghost use Rattle.resource_lock.specs.UnitActions.{HasUnitActions, IsNear};

use super::Graph;
use std::alloc::{AllocError, Global};

impl Graph {
    /// Notes the action of each unit, a word for each, so that the questions below take one look. It fails for want of memory
    /// alone. The graph is as before, also then.
    pub fn note_unit_actions(&mut self, alloc: Global) -> Result<(), AllocError>
        ensures { self.new ≡ self.old }
    {
        let unit_actions = unit_actions(alloc, self)?;
        self.unit_actions = Some(unit_actions);
        Ok(())
    }

    /// The action that a unit belongs to, in constant time where the actions of units were noted, and else in time
    /// logarithmic in the number of actions.
    pub fn action_with(&self, unit: u32) -> u32
        requires { unit < self.now.units }
        ensures action { IsUnitOf self.now result unit }
        ensures in_range { result < length self.now.actions }
    {
        match &self.unit_actions {
            Some(unit_actions) => unit_actions[unit as usize],
            None => self.search_action_with(unit),
        }
    }

    /// Whether a unit is an item, and not a fetch, in the time of `action_with`.
    pub fn is_item(&self, unit: u32) -> bool
        requires { unit < self.now.units }
        ensures { result ≡ is_item self.now unit }
    {
        let action = &self.actions()[self.action_with(unit) as usize];
        action.first_item() <= u64::from(unit)
    }

    // The action that a unit belongs to, looked for among all actions.
    fn search_action_with(&self, unit: u32) -> u32
        requires { unit < self.now.units }
        ensures action { IsUnitOf self.now result unit }
        ensures in_range { result < length self.now.actions }
    {
        let actions = self.actions();
        actions.partition_point(|action| action.units_end() <= u64::from(unit)) as u32
    }

    // The action that a unit belongs to, which is this one or the next.
    fn this_or_next(&self, action: u32, unit: u32) -> u32
        requires unit { unit < self.now.units }
        requires place { IsNear self.now unit action }
        ensures action { IsUnitOf self.now result unit }
        ensures in_range { result < length self.now.actions }
    {
        if u64::from(unit) < self.actions()[action as usize].units_end() {
            action
        } else {
            action + 1
        }
    }
}

// The action of each unit.
fn unit_actions(alloc: Global, graph: &Graph) -> Result<Vec<u32>, AllocError>
    ensures { IfOk result (λ actions. HasUnitActions graph.now graph.now.units actions.items) }
{
    // Of the graph, that it fits: each unit is one of an action.
    let _ = graph.actions();
    let mut unit_actions = Vec::with_capacity(alloc, graph.units() as usize)?;
    let mut action = 0;
    for unit in 0..graph.units() {
        action = graph.this_or_next(action, unit);
        unit_actions.push_reserved(action);
    }
    Ok(unit_actions)
}
