//! What admits the entries of a history one by one.
ghost use Rattle.std.specs.Prelude.{◌≡◌, ◌<◌, ◌-◌, ◌^◌, Ok, true, false, OnErr, IfOk, option_map};
ghost use Rattle.lock_transforms.specs.Entry.{entry};
ghost use Rattle.history_check.specs.AdmitterView.{AdmitterView, Admits, IsOpened, Refuses};

use lock_transforms::Kind;
use resource_lock::{Change, Graph, WorkerId};
use std::alloc::{AllocError, Global};

/// What admits the entries of a history one by one: a `WholeBook`, which keeps them, or `Reached`, the state alone that they lead to.
pub trait Admitter: Drop {
    /// The graph, the state that the entries lead to, how many they are, and the entries where they are kept.
    ghost seen: { Self → AdmitterView };

    /// One of the graph, without entries. The error is want of memory.
    fn open(alloc: Global, graph: Graph) -> Result<Self, AllocError>
        ensures { IfOk result (λ a. IsOpened graph (seen a)) };

    /// How many entries it admitted.
    fn admitted(&self) -> u64
        ensures { result ≡ (seen self.now).entries };

    /// Admits an entry where it is allowed in the state, and answers whether it is. It has the changes given, or failed
    /// where none are. Where it isn't allowed, and for want of memory, nothing changes.
    fn admit_next(
        &mut self,
        worker: WorkerId,
        kind: &Kind,
        changes: Option<&[Change]>,
    ) -> Result<bool, AllocError>
        requires { (seen self.old).entries < 2 ^ 64 - 1 }
        ensures admitted { result ≡ Ok true → Admits (seen self.old) (seen self.new) (entry worker kind.now (option_map (λ c. c.now) changes.entry)) }
        ensures refused { result ≡ Ok false → Refuses (seen self.old) (seen self.new) (entry worker kind.now (option_map (λ c. c.now) changes.entry)) }
        ensures no_memory { OnErr result (seen self.new ≡ seen self.old) };
}
