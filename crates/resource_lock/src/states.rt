//! The state: who owns which lock, who has a lease, and how far the work has come.
use crate::ids::{LockId, WorkerId};
use held::Held;
use mark_lists::MarkLists;
use std::marker::Model;

mod asking;
mod changing;
mod conflicts;
mod held;
mod mark_lists;
mod opening;
mod owned;
mod reading;
mod trying;

/// Who owns each lock, what each worker has, and how far each task, action and unit has come.
#[derive(Drop)]
pub struct State {
    max_leases: u32,
    /// The all-projects lock.
    all: Option<LockId>,
    owners: Vec<Option<WorkerId>>,
    held: Vec<Held>,
    /// How many leases are out.
    out: u32,
    /// How many locks have an owner.
    owned: usize,
    marks: MarkLists,
}

impl Model for State {
    ghost use Rattle.resource_lock.specs.StateView.{StateView};
    ghost use Rattle.resource_lock.specs.State.{state_view, IsSound};

    ghost Value = { StateView };

    ghost view = { state_view };

    ghost invariant = { IsSound };
}
