//! What the workers of a run share.
ghost use Rattle.std.specs.Prelude.{◌≡◌, ◌+◌, ◌<◌, ◌≤◌, ℕ, Some, false, length, slice_get, true};
ghost use Rattle.item_actions.specs.Forms.{is_file_name};
ghost use Rattle.resource_lock.specs.Fits.{Fits};
ghost use Rattle.resource_lock.specs.GraphView.{action_of, task_of};
ghost use Rattle.resource_lock.specs.Ranges.{IsActionOf, IsFetchOf};
ghost use Rattle.async_tracker.specs.Shows.{IsItemHere};
ghost use Rattle.item_work.specs.Sends.{MayAskFor};
ghost use Rattle.plan_reader.specs.PlanView.{work_view};
ghost use Rattle.plan_reader.specs.Units.{fetch_unit, item_unit};

use crate::run_types::RunTypes;
use coordination::{QueuedUnits, ShownService};
use daemon_desk::Desk;
use daemon_requirements::Work;
use item_actions::Text;
use item_work::PoolLock;
use plan_reader::UnitWork;
use resource_lock::{Graph, GraphAction};
use std::alloc::Global;
use std::marker::Model;
use std::ops::Range;

/// The service of a run.
pub type RunService<'a, R> = ShownService<QueuedUnits, &'a R>;

/// What the workers of a run share. The units are those of the graph, and each may ask the pool for what it asks for.
#[derive(Drop)]
pub struct Site<'a, 'r, T: RunTypes> {
    /// What lets a worker wait.
    pub rt: &'a T::Runtime,
    /// The state lock.
    pub service: &'a RunService<'r, T::Runtime>,
    /// The graph of the plan.
    pub graph: &'a Graph,
    /// The units by their numbers.
    pub units: &'a [UnitWork<'a>],
    /// The daemons.
    pub pool: &'a PoolLock<<T::Desk as Desk>::Link, T::Reserved, T::Failed>,
    /// What an item passes before it runs.
    pub gate: &'a T::Gate,
    /// Where files are read to.
    pub alloc: Global,
}

impl<'a, 'r, T: RunTypes> Model for Site<'a, 'r, T> {
    ghost use Rattle.std.specs.Prelude.{map};
    ghost use Rattle.build_workers.specs.Site.{SiteView};

    ghost Value = { SiteView };

    ghost use Rattle.plan_reader.specs.Units.{unit_view};
    ghost use Rattle.build_workers.specs.Units.{AllMayAsk, AreUnitsOf};

    ghost view = { λ s. record { service = s.service.now; graph = s.graph.now; units = map unit_view s.units.now } };

    ghost invariant = { λ s. AreUnitsOf s.graph.now (map unit_view s.units.now)
        × AllMayAsk T.Reserved.asks (map unit_view s.units.now) };
}

impl<'a, 'r, T: RunTypes> Site<'a, 'r, T> {
    /// Whether there are as many leases as workers: then none of them ever waits for one.
    pub fn has_lease_for_each(&self) -> bool
        ensures yes { result ≡ true → self.now.graph.workers ≤ self.now.graph.max_leases }
        ensures no { result ≡ false → self.now.graph.max_leases < self.now.graph.workers }
    {
        self.graph.workers() <= self.graph.max_leases()
    }

    /// The actions of a task, by number.
    pub fn actions_of(&self, task: u32) -> Range<u32>
        requires { task < length self.now.graph.tasks }
        ensures first { result.start ≡ (task_of self.now.graph task).first_action }
        ensures end { result.end ≡ (task_of self.now.graph task).first_action + (task_of self.now.graph task).actions }
    {
        let found = self.graph.tasks().at(task as usize);
        found.first_action..found.first_action + found.actions
    }

    /// An action of a task.
    pub fn action_of(&self, task: u32, action: u32) -> GraphAction
        requires task { task < length self.now.graph.tasks }
        requires action { IsActionOf self.now.graph task action }
        ensures value { result ≡ action_of self.now.graph action }
        ensures fits { Fits self.now.graph }
        ensures within { action < length self.now.graph.actions }
    {
        self.graph.actions()[action as usize]
    }

    /// The file of an action's fetch, by the fetch's number.
    pub fn fetch(&self, unit: u32) -> &'a Text
        requires { (action : ℕ) × IsFetchOf self.now.graph action unit }
        ensures { slice_get self.now.units unit ≡ Some (fetch_unit result.now) }
    {
        let found = self.units[unit as usize];
        let UnitWork::Fetch(file) = found else {
            unreachable!()
        };
        file
    }

    /// An item, by its number.
    pub fn item(&self, unit: u32) -> &'a Work
        requires { IsItemHere self.now.graph unit }
        ensures unit { slice_get self.now.units unit ≡ Some (item_unit (work_view result.now)) }
        ensures named { is_file_name result.now.file ≡ true }
        ensures asks { MayAskFor (T.Reserved.asks unit) result.now.isolation }
    {
        let found = self.units[unit as usize];
        let UnitWork::Item(work) = found else {
            unreachable!()
        };
        work
    }
}
