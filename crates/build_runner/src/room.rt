//! Room for what the workers of a run leave, taken before any desk moves.
ghost use Rattle.std.specs.Prelude.{◌≡◌, [], IfOk, OnOk};
ghost use Rattle.build_runner.specs.Rooms.{IsEmptyFor};

use crate::prepared::boxed;
use build_workers::{Kit, RunTypes, Worker};
use coordination::Pass;
use std::alloc::{AllocError, Global};

/// Room for the workers, and for the passes, desks and kits that they leave.
#[derive(Drop)]
pub(crate) struct TeamRoom<T: RunTypes> {
    pub team: Vec<Worker<T>>,
    pub passes: Vec<Pass>,
    pub desks: Vec<T::Desk>,
    pub kits: Vec<Kit>,
}

impl<T: RunTypes> TeamRoom<T> {
    /// Room for so many workers, and for all desks. It fails for want of memory.
    pub fn new(alloc: Global, workers: usize, desks: usize) -> Result<Box<TeamRoom<T>>, AllocError>
        ensures team { IfOk result (λ room. IsEmptyFor workers room.value.team) }
        ensures passes { IfOk result (λ room. IsEmptyFor workers room.value.passes) }
        ensures desks { IfOk result (λ room. IsEmptyFor desks room.value.desks) }
        ensures kits { IfOk result (λ room. IsEmptyFor workers room.value.kits) }
    {
        let mut room = TeamRoom {
            team: Vec::new(alloc),
            passes: Vec::new(alloc),
            desks: Vec::new(alloc),
            kits: Vec::new(alloc),
        };
        room.make(workers, desks)?;
        boxed(alloc, room)
    }

    // Makes that room, where there is nothing yet.
    fn make(&mut self, workers: usize, desks: usize) -> Result<(), AllocError>
        requires empty { (self.old.team.items ≡ []) × (self.old.passes.items ≡ []) × (self.old.desks.items ≡ []) × (self.old.kits.items ≡ []) }
        ensures team { OnOk result (IsEmptyFor workers self.new.team) }
        ensures passes { OnOk result (IsEmptyFor workers self.new.passes) }
        ensures desks { OnOk result (IsEmptyFor desks self.new.desks) }
        ensures kits { OnOk result (IsEmptyFor workers self.new.kits) }
    {
        self.team.reserve(workers)?;
        self.passes.reserve(workers)?;
        self.kits.reserve(workers)?;
        self.desks.reserve(desks)
    }
}
