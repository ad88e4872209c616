//! The units of a plan by their numbers.
ghost use Rattle.std.specs.Prelude.{◌≡◌, ◌++◌, IfOk, OnOk, map};
ghost use Rattle.plan_reader.specs.PlanView.{plan_action_view, plan_task_view, work_view};
ghost use Rattle.plan_reader.specs.Units.{action_units, fetch_units, item_unit, plan_units, task_units, unit_view};

use crate::plans::{Plan, PlanAction, PlanTask};
use daemon_requirements::Work;
use item_actions::Text;
use std::alloc::{AllocError, Global};

/// What a unit is.
#[derive(Clone, Copy)]
pub enum UnitWork<'a> {
    /// A file that is fetched.
    Fetch(&'a Text),
    /// An item.
    Item(&'a Work),
}

/// The units of a plan in order.
pub fn units_of(alloc: Global, plan: &Plan) -> Result<Vec<UnitWork<'_>>, AllocError>
    ensures units { IfOk result (λ units. map unit_view units.items ≡ plan_units plan.now) }
{
    let mut units = Vec::new(alloc);
    for task in plan.tasks() {
        add_task(&mut units, task)?;
    }
    Ok(units)
}

// Adds the units of a task.
fn add_task<'a>(units: &mut Vec<UnitWork<'a>>, task: &'a PlanTask) -> Result<(), AllocError>
    ensures { OnOk result (map unit_view units.new.items ≡ map unit_view units.old.items ++ task_units (plan_task_view task.now)) }
{
    for action in &task.actions {
        add_action(units, action)?;
    }
    Ok(())
}

// Adds the units of an action: its fetch, if it has one, and its items.
fn add_action<'a>(units: &mut Vec<UnitWork<'a>>, action: &'a PlanAction) -> Result<(), AllocError>
    ensures { OnOk result (map unit_view units.new.items ≡ map unit_view units.old.items ++ action_units (plan_action_view action.now)) }
{
    add_fetch(units, &action.fetch)?;
    add_items(units, &action.items)
}

// Adds the unit of a fetch, if there is one.
fn add_fetch<'a>(units: &mut Vec<UnitWork<'a>>, fetch: &'a Option<Text>) -> Result<(), AllocError>
    ensures { OnOk result (map unit_view units.new.items ≡ map unit_view units.old.items ++ fetch_units fetch.now) }
{
    if let Some(file) = fetch {
        units.push(UnitWork::Fetch(file))?;
    }
    Ok(())
}

// Adds the unit of each item, in their order.
fn add_items<'a>(units: &mut Vec<UnitWork<'a>>, items: &'a [Work]) -> Result<(), AllocError>
    ensures { OnOk result (map unit_view units.new.items ≡ map unit_view units.old.items ++ map (λ w. item_unit (work_view w)) items.now) }
{
    for work in items {
        units.push(UnitWork::Item(work))?;
    }
    Ok(())
}
