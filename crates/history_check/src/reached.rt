//! The state that entries lead to, without the entries.
ghost use Rattle.std.specs.Prelude.{◌≡◌, ◌<◌, ◌-◌, ◌^◌, Some, true, false};
ghost use Rattle.lock_transforms.specs.Allowed.{IsKindOf};
ghost use Rattle.lock_transforms.specs.Entry.{entry};
ghost use Rattle.history_check.specs.AdmitterView.{Admits, Refuses};

use crate::admitters::Admitter;
use lock_transforms::kinds::{is_kind_of, room_for_any};
use lock_transforms::{Kind, Tentative};
use resource_lock::{Change, Graph, WorkerId};
use std::alloc::{AllocError, Global};
use std::marker::Model;

/// The state that the admitted entries lead to, and how many they are. The entries themselves are forgotten, so its
/// memory doesn't grow with them.
#[derive(Drop)]
pub struct Reached {
    tentative: Tentative,
    entries: u64,
}

impl Model for Reached {
    ghost use Rattle.history_check.specs.AdmitterView.{AdmitterView};
    ghost use Rattle.history_check.specs.Reached.{IsBetweenEntries, reached_view};

    ghost Value = { AdmitterView };

    ghost view = { λ r. reached_view r.tentative r.entries };

    ghost invariant = { λ r. IsBetweenEntries r.tentative };
}

impl Reached {
    // Admits an entry with changes, whose numbers are in range.
    fn admit_finished(&mut self, worker: WorkerId, kind: Kind, changes: &[Change]) -> bool
        requires worker_in_range { worker.0 < self.old.graph.workers }
        requires kind { IsKindOf self.old.graph kind }
        requires count { self.old.entries < 2 ^ 64 - 1 }
        ensures admitted { result ≡ true → Admits self.old self.new (entry worker kind (Some changes.now)) }
        ensures refused { result ≡ false → Refuses self.old self.new (entry worker kind (Some changes.now)) }
    {
        if !self.tentative.admit(worker, kind, changes, true) {
            return false;
        }
        self.entries += 1;
        true
    }
}

impl Admitter for Reached {
    ghost seen = { λ r. r };

    fn open(alloc: Global, graph: Graph) -> Result<Reached, AllocError> {
        let room = room_for_any(&graph) as usize;
        let tentative = Tentative::opening(alloc, graph, room)?;
        Ok(Reached {
            tentative,
            entries: 0,
        })
    }

    fn admitted(&self) -> u64 {
        self.entries
    }

    fn admit_next(
        &mut self,
        worker: WorkerId,
        kind: &Kind,
        changes: Option<&[Change]>,
    ) -> Result<bool, AllocError> {
        if worker.0 >= self.tentative.graph().workers()
            || !is_kind_of(self.tentative.graph(), *kind)
        {
            return Ok(false);
        }
        match changes {
            Some(changes) => Ok(self.admit_finished(worker, *kind, changes)),
            None => {
                self.entries += 1;
                Ok(true)
            }
        }
    }
}
