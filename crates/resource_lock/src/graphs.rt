//! Graphs: what a state belongs to.
ghost use Rattle.std.specs.Prelude.{◌≡◌};
ghost use Rattle.resource_lock.specs.Fits.{Fits};
ghost use Rattle.resource_lock.specs.Made.{made_of};

mod unit_ranges;

use crate::fitting::unit_count;
use crate::graph_tasks::GraphTasks;
use crate::ids::LockId;
use std::marker::Model;

/// What a worker does with its project lock while it waits for an action's items.
#[derive(Clone, Copy, PartialEq, Eq)]
pub enum Retention {
    /// It keeps the lock.
    Retain,
    /// It gives the lock back for good.
    Release,
    /// It gives the lock back, and takes it again after the wait.
    ReleaseAndReacquire,
}

impl Retention {
    ghost use Rattle.std.specs.Prelude.{◌≡◌};
    ghost use Rattle.resource_lock.specs.Words.{retention_word, retention_of};

    /// Every retention, once.
    pub const ALL: [Retention; 3] = [
        Retention::Retain,
        Retention::Release,
        Retention::ReleaseAndReacquire,
    ];

    /// The word by which plans ask for it.
    pub fn word(self) -> &'static str
        ensures { result.now ≡ retention_word self }
    {
        match self {
            Retention::Retain => "retain",
            Retention::Release => "release",
            Retention::ReleaseAndReacquire => "release_and_reacquire",
        }
    }

    /// The retention whose word this is, if there is one.
    pub fn of_word(word: &str) -> Option<Retention>
        ensures { result ≡ retention_of word.now }
    {
        for retention in &Retention::ALL {
            if retention.word() == word {
                return Some(*retention);
            }
        }
        None
    }
}

/// An action: its task, the retention of the lock, and its range of units. Where it has a fetch,
/// that is the first of them; the others are its items.
#[derive(Clone, Copy)]
pub struct GraphAction {
    pub task: u32,
    pub retention: Retention,
    pub fetch: bool,
    pub first_unit: u32,
    pub items: u32,
}

impl GraphAction {
    ghost use Rattle.std.specs.Prelude.{◌≡◌, ◌+◌};
    ghost use Rattle.resource_lock.specs.Ranges.{first_item, units_in};

    /// The first of the items, which stand behind the fetch.
    pub(crate) fn first_item(&self) -> u64
        ensures { result ≡ first_item self.now }
    {
        u64::from(self.first_unit) + u64::from(self.fetch)
    }

    /// The number behind the last unit.
    pub(crate) fn units_end(&self) -> u64
        ensures { result ≡ self.now.first_unit + units_in self.now }
    {
        u64::from(self.first_unit) + u64::from(self.fetch) + u64::from(self.items)
    }
}

/// The locks, workers, leases, tasks, actions and units that a state belongs to. One of the locks may be
/// the all-projects lock, which conflicts with each other. A graph always fits:
/// its numbers are in range and within the limits, and its ranges follow one another.
#[derive(Drop)]
pub struct Graph {
    locks: u32,
    all: Option<LockId>,
    workers: u32,
    max_leases: u32,
    units: u32,
    tasks: GraphTasks,
    actions: Vec<GraphAction>,
    // The action of each unit, where these were noted: a graph is made without memory. The table stands here, where the invariant ties
    // it to the actions, so no condition of a kind takes one more argument.
    unit_actions: Option<Vec<u32>>,
}

impl Model for Graph {
    ghost use Rattle.resource_lock.specs.GraphView.{GraphView};
    ghost use Rattle.resource_lock.specs.UnitActions.{graph_value, IsGraph};

    ghost Value = { GraphView };

    ghost view = { graph_value };

    ghost invariant = { IsGraph };
}

impl Graph {
    /// The graph that is made of these; `Graph::fits` tests whether one can be. It takes no memory.
    pub fn new(
        locks: u32,
        all: Option<LockId>,
        workers: u32,
        max_leases: u32,
        tasks: GraphTasks,
        actions: Vec<GraphAction>,
    ) -> Graph
        requires { Fits (made_of locks all workers max_leases tasks actions.items) }
        ensures { result ≡ made_of locks all workers max_leases tasks actions.items }
    {
        let units = unit_count(&actions) as u32;
        Graph {
            locks,
            all,
            workers,
            max_leases,
            units,
            tasks,
            actions,
            unit_actions: None,
        }
    }

    /// How many locks there are, at most `MAX_LOCKS`.
    pub fn locks(&self) -> u32
        ensures { result ≡ self.now.locks }
    {
        self.locks
    }

    /// The all-projects lock, if the graph has one: while a worker owns it, no other owns any lock.
    pub fn all(&self) -> Option<LockId>
        ensures { result ≡ self.now.all }
    {
        self.all
    }

    /// How many workers there are, from 1 to `MAX_WORKERS`.
    pub fn workers(&self) -> u32
        ensures { result ≡ self.now.workers }
    {
        self.workers
    }

    /// How many leases may be out at once, from 1 to `MAX_LEASES`.
    pub fn max_leases(&self) -> u32
        ensures { result ≡ self.now.max_leases }
    {
        self.max_leases
    }

    /// How many units there are, at most `MAX_UNITS`.
    pub fn units(&self) -> u32
        ensures { result ≡ self.now.units }
    {
        self.units
    }

    /// The tasks by number, at most `MAX_TASKS`.
    pub fn tasks(&self) -> &GraphTasks
        ensures value { result.now ≡ self.now.tasks }
        ensures fits { Fits self.now }
    {
        &self.tasks
    }

    /// The actions by number, at most `MAX_ACTIONS_PER_TASK` a task, and no more than units.
    pub fn actions(&self) -> &[GraphAction]
        ensures value { result.now ≡ self.now.actions }
        ensures fits { Fits self.now }
    {
        &self.actions
    }
}
