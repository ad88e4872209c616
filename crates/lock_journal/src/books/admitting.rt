ghost use Rattle.std.specs.Prelude.{◌≡◌, ◌≢◌, ◌≤◌, ◌<◌, ◌⊎◌, true, false, Some, None, OnErr, length, option_map};
ghost use Rattle.lock_journal.specs.Admitting.{HasAdmitted, IsFullFor, IsRefused};
ghost use Rattle.lock_transforms.specs.Allowed.{Allowed, IsKindOf};
ghost use Rattle.lock_journal.specs.BookView.{SameBook};
ghost use Rattle.lock_transforms.specs.Entry.{entry};

use crate::books::{Book, follow_entry};
use lock_transforms::Kind;
use lock_transforms::kinds::is_kind_of;
use resource_lock::{Change, WorkerId};
use std::alloc::AllocError;

impl Book {
    /// Adds an entry to the history where it is allowed in the state, and answers whether it is. It
    /// has the changes given, or failed where none are.
    ///
    /// Where it isn't allowed the state and the history are as before. It fails for want of memory,
    /// and only where the entry is allowed and there isn't room for it and its changes. Then they are
    /// as before too.
    pub fn admit(
        &mut self,
        worker: WorkerId,
        kind: &Kind,
        changes: Option<&[Change]>,
    ) -> Result<bool, AllocError>
        ensures admitted { result ≡ Ok true → HasAdmitted self.old self.new (entry worker kind.now (option_map (λ c. c.now) changes.entry)) }
        ensures refused { result ≡ Ok false → IsRefused self.old self.new (entry worker kind.now (option_map (λ c. c.now) changes.entry)) }
        ensures no_memory { OnErr result (SameBook self.old self.new) }
        ensures allowed { OnErr result (Allowed self.old.graph self.old.state (entry worker kind.now (option_map (λ c. c.now) changes.entry))) }
        ensures full { OnErr result (IsFullFor self.old (option_map (λ c. c.now) changes.entry)) }
    {
        if worker.0 >= self.graph().workers() || !is_kind_of(self.graph(), *kind) {
            return Ok(false);
        }
        match changes {
            Some(changes) => self.admit_finished(worker, *kind, changes),
            None => self.admit_failed(worker, *kind),
        }
    }

    // Adds an entry that failed, whose numbers are in range.
    fn admit_failed(&mut self, worker: WorkerId, kind: Kind) -> Result<bool, AllocError>
        requires worker_in_range { worker.0 < self.old.graph.workers }
        requires kind { IsKindOf self.old.graph kind }
        ensures admitted { result ≡ Ok true → HasAdmitted self.old self.new (entry worker kind None) }
        ensures refused { result ≢ Ok false }
        ensures no_memory { OnErr result (SameBook self.old self.new) }
        ensures full { OnErr result (self.old.spare_entries < 1) }
    {
        self.reserve(1, 0)?;
        self.tentative.settle();
        self.history.push_failed(worker, &kind);
        Ok(true)
    }

    // Adds an entry with changes, where it is allowed.
    fn admit_finished(
        &mut self,
        worker: WorkerId,
        kind: Kind,
        changes: &[Change],
    ) -> Result<bool, AllocError>
        requires worker_in_range { worker.0 < self.old.graph.workers }
        requires kind { IsKindOf self.old.graph kind }
        ensures admitted { result ≡ Ok true → HasAdmitted self.old self.new (entry worker kind (Some changes.now)) }
        ensures refused { result ≡ Ok false → IsRefused self.old self.new (entry worker kind (Some changes.now)) }
        ensures no_memory { OnErr result (SameBook self.old self.new) }
        ensures allowed { OnErr result (Allowed self.old.graph self.old.state (entry worker kind (Some changes.now))) }
        ensures full { OnErr result ((self.old.spare_entries < 1) ⊎ (self.old.spare_changes < length changes.now)) }
    {
        match self.reserve(1, changes.len() as u64) {
            Ok(()) => Ok(self.add_where_allowed(worker, kind, changes)),
            Err(error) => {
                if self.allows(worker, kind, changes) {
                    Err(error)
                } else {
                    Ok(false)
                }
            }
        }
    }

    // Adds an entry with changes, where it is allowed, and answers whether it is. There is room for it.
    fn add_where_allowed(&mut self, worker: WorkerId, kind: Kind, changes: &[Change]) -> bool
        requires worker_in_range { worker.0 < self.old.graph.workers }
        requires kind { IsKindOf self.old.graph kind }
        requires entries { 0 < self.old.spare_entries }
        requires changes { length changes.now ≤ self.old.spare_changes }
        ensures admitted { result ≡ true → HasAdmitted self.old self.new (entry worker kind (Some changes.now)) }
        ensures refused { result ≡ false → IsRefused self.old self.new (entry worker kind (Some changes.now)) }
    {
        if !self.tentative.admit(worker, kind, changes, true) {
            return false;
        }
        self.history.push_finished(worker, &kind, changes);
        follow_entry(&mut self.ready, &self.tentative, &kind);
        true
    }

    // Whether an entry with changes is allowed.
    fn allows(&mut self, worker: WorkerId, kind: Kind, changes: &[Change]) -> bool
        requires { worker.0 < self.old.graph.workers }
        ensures allowed { result ≡ true → Allowed self.old.graph self.old.state (entry worker kind (Some changes.now)) }
        ensures refused { result ≡ false → ¬ Allowed self.old.graph self.old.state (entry worker kind (Some changes.now)) }
        ensures same { SameBook self.old self.new }
    {
        self.tentative.admit(worker, kind, changes, false)
    }
}
