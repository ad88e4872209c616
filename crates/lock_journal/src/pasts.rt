//! Entries that were, of which nothing is kept.
ghost use Rattle.std.specs.Prelude.{◌≡◌, []};

use lock_transforms::Kind;
use logbook::{Rule, Seen, Start};
use resource_lock::{Change, WorkerId};
use std::marker::Model;

/// An entry. It is for contracts alone: no value of it is made.
pub struct Recorded {
    /// The worker.
    pub worker: WorkerId,
    /// What the entry is for.
    pub kind: Kind,
    /// The changes, or none where it failed.
    pub changes: Option<Vec<Change>>,
}

impl Model for Recorded {
    ghost use Rattle.std.specs.Option.{option_map};
    ghost use Rattle.lock_transforms.specs.Entry.{Entry, entry};

    ghost Value = { Entry };

    ghost view = { λ r. entry r.worker r.kind (option_map (λ c. c.items) r.changes) };
}

/// The rule of a past: any entries may be in it.
pub struct AnyEntries;

impl Rule<Recorded, u64> for AnyEntries {
    ghost use Rattle.std.specs.Prelude.{[]};
    ghost use base.Fml.{ftrue};

    ghost holds = { λ cells log. Unit {0} };

    ghost first = { [] };

    ghost hinted = { λ n log. Unit {0} };

    ghost shows = { λ log. [] };

    ghost keeps = { λ names log. ftrue };

    ghost moves = { λ ask before after answer. Unit {0} };
}

/// Entries as contracts see them. It takes no bytes, so it is the same whether they are kept anywhere.
#[derive(Drop)]
pub(crate) struct Past {
    pub(crate) seen: Seen<Recorded, u64, AnyEntries>,
}

const _: () = prove!(size_of::<Past>() == 0);

impl Model for Past {
    ghost use Rattle.std.specs.Prelude.{List};
    ghost use Rattle.lock_transforms.specs.Entry.{Entry};

    ghost Value = { List Entry };

    ghost view = { λ p. p.seen.log };
}

impl Past {
    /// No entries.
    pub(crate) fn none() -> Past
        ensures { result ≡ [] }
    {
        let (seen, _, _) = Seen::open(Start::alone(), 0, 0);
        Past { seen }
    }
}
