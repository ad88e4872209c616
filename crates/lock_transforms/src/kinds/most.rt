//! At most how many changes an entry has.
ghost use Rattle.std.specs.Prelude.{◌≡◌, ◌<◌, ◌≤◌, ◌^◌, ℕ, length};
ghost use Rattle.resource_lock.specs.GraphView.{action_of};
ghost use Rattle.resource_lock.specs.Shape.{BelongsTo};
ghost use Rattle.resource_lock.specs.StateView.{holding_of};
ghost use Rattle.lock_transforms.specs.MostChanges.{IsRoomFor, changes_below};
ghost use Rattle.lock_transforms.specs.Table.{owned};

use crate::kinds::ranges::{action_of, actions_of, units_of};
use resource_lock::{Graph, State, WorkerId};

/// How many changes skip all actions of a task, and their units.
pub(crate) fn changes_below(graph: &Graph, task: u32) -> u64
    ensures value { result ≡ changes_below graph.now task }
    ensures few { result < 2 ^ 33 }
{
    if task as usize >= graph.tasks().len() {
        return 0;
    }
    let actions = actions_of(graph, task);
    if actions.count == 0 {
        return 0;
    }
    let first = action_of(graph, actions.first).first_unit;
    let last = units_of(graph, actions.first + (actions.count - 1));
    u64::from(actions.count) + u64::from(last.first + last.count - first)
}

/// How many items an action has.
pub(crate) fn item_count(graph: &Graph, action: u32) -> u64
    ensures value { result ≡ (action_of graph.now action).items }
    ensures few { result < 2 ^ 32 }
{
    if action as usize >= graph.actions().len() {
        return 0;
    }
    u64::from(action_of(graph, action).items)
}

/// How many locks a worker owns.
pub(crate) fn owned_count(graph: &Graph, state: &State, worker: WorkerId) -> u64
    requires { BelongsTo graph.now state.now }
    ensures value { result ≡ length (owned state.now worker) }
    ensures few { result < 2 ^ 32 }
{
    // Of the graph, how many locks it has.
    let _ = graph.locks();
    state.lock_count(worker) as u64
}

/// How many locks a worker has parked.
pub(crate) fn parked_count(graph: &Graph, state: &State, worker: WorkerId) -> u64
    requires belongs { BelongsTo graph.now state.now }
    requires worker_in_range { worker.0 < graph.now.workers }
    ensures value { result ≡ length (holding_of state.now worker).parked }
    ensures few { result < 2 ^ 32 }
{
    // Of the state and the graph, that each is one of the graph's locks, and how many those are.
    let _ = state.leases_out();
    let _ = graph.locks();
    state.parked(worker).len() as u64
}

/// The least room for any entry of the graph: as many changes as an entry has at most. It goes through the tasks.
pub fn room_for_any(graph: &Graph) -> u64
    ensures enough { IsRoomFor graph.now result }
    ensures least { (room : ℕ) → IsRoomFor graph.now room → result ≤ room }
    ensures few { result < 2 ^ 34 }
{
    let mut room = (3 + 2 * u64::from(graph.locks())).max(4);
    for task in 0..graph.tasks().len() {
        room = room.max(3 + changes_below(graph, task as u32));
    }
    room
}
