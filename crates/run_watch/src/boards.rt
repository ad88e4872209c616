//! The looks of a run, by unit, held against its book.
ghost use Rattle.std.specs.Prelude.{◌≡◌, All, IfOk, Some, length};
ghost use Rattle.lock_journal.specs.BookView.{BookView};
ghost use Rattle.history_views.specs.Growing.{IsLater};
ghost use Rattle.run_watch.specs.Looks.{MayShow, WasSeenIn};
ghost use Rattle.run_watch.specs.Watches.{AreWatchesOf};

use crate::closings::note_closings;
use crate::lines::watches_by;
use crate::watchers::{Look, Watcher};
use coordination::Pass;
use history_views::Extent;
use lock_journal::Book;
use std::alloc::{AllocError, Global};
use std::marker::Model;
use std::snapshot::Snapshot;

/// What was seen once an item was closed.
#[derive(Clone, Copy, PartialEq, Eq)]
pub struct Watch {
    /// The item.
    pub unit: u32,
    /// How many entries were shown. The entry that closed the item is one of them.
    pub entries: u64,
    /// How many leases were out after them.
    pub leases: u32,
}

/// Room for the looks of a run. Contracts see for how many units.
#[derive(Drop)]
pub struct BoardRoom {
    units: u32,
    // For the numbers of the entries that closed the units.
    closings: Vec<u64>,
    looks: Vec<Option<Extent>>,
    watches: Vec<Watch>,
}

impl Model for BoardRoom {
    ghost use Rattle.std.specs.Prelude.{ℕ, vec_capacity};
    ghost use Rattle.run_watch.specs.Looks.{IsRoomFor};

    ghost Value = { ℕ };

    ghost view = { λ r. r.units };

    ghost invariant = { λ r. IsRoomFor r.units r.closings.items r.looks.items r.watches.items (vec_capacity r.watches) };
}

impl BoardRoom {
    /// Room for the looks at so many units. It fails for want of memory.
    pub fn new(alloc: Global, units: u32) -> Result<BoardRoom, AllocError>
        ensures { IfOk result (λ room. room ≡ units) }
    {
        Ok(BoardRoom {
            units,
            closings: vec![in alloc; 0; units as usize]?,
            looks: vec![in alloc; None; units as usize]?,
            watches: Vec::with_capacity(alloc, units as usize)?,
        })
    }
}

/// The looks of a run by unit, once its workers have ended. Contracts see what the pass had seen that the views learnt from, and for
/// how many units there is room.
#[derive(Drop)]
pub struct Board {
    units: u32,
    closings: Vec<u64>,
    looks: Vec<Option<Extent>>,
    watches: Vec<Watch>,
    end: Snapshot<Pass>,
    // The number of the last entry of that pass's worker.
    entries: u64,
}

impl Model for Board {
    ghost use Rattle.std.specs.Prelude.{vec_capacity};
    ghost use Rattle.run_watch.specs.Looks.{BoardView, IsBoardOf};

    ghost Value = { BoardView };

    ghost view = { λ b. record { seen = b.end.value.sight.seen; units = b.units } };

    ghost invariant = { λ b. IsBoardOf b.end.value.sight.seen b.units b.entries b.closings.items b.looks.items b.watches.items
        (vec_capacity b.watches) };
}

impl Board {
    /// A board without looks, by a pass once the workers have ended. Looks count where they show no more than this pass has seen, so it is
    /// the pass of the worker that made the last entry.
    pub fn of(room: BoardRoom, pass: &Pass) -> Board
        ensures seen { result.seen ≡ pass.now.sight.seen }
        ensures units { result.units ≡ room }
    {
        let BoardRoom {
            units,
            closings,
            looks,
            watches,
        } = room;
        Board {
            units,
            closings,
            looks,
            watches,
            end: Snapshot::of(pass),
            entries: pass.last(),
        }
    }

    /// Takes what a watcher has noted. Its view looks once more, having learnt from the pass. What it noted counts where that shows
    /// no more than the pass has seen.
    pub fn take(&mut self, watcher: Watcher, pass: &Pass)
        requires ledger { pass.now.service.ledger ≡ Some watcher }
        requires seen { pass.now.sight.seen ≡ self.old.seen }
        ensures { self.new ≡ self.old }
    {
        // It looks once more behind the join, by the pass that made the last entry, whose last number is the history's length: so no call
        // to the service is needed.
        let (last, looks) = watcher.end(pass);
        if last.entries <= self.entries {
            place_all(&mut self.looks, looks);
        }
    }

    /// The looks by rising unit, one for each item that the book closed. Where no look at it counts, it is given the book's end.
    pub fn into_watches(self, book: &Book) -> Vec<Watch>
        requires later { IsLater self.seen book.now }
        requires units { self.units ≡ book.now.graph.units }
        requires whole { book.now.given ≡ 0 }
        ensures { AreWatchesOf book.now result.items }
    {
        let Board {
            units: _,
            mut closings,
            looks,
            mut watches,
            end: _,
            entries: _,
        } = self;
        note_closings(book, &mut closings);
        watches_by(book, &closings, &looks, &mut watches);
        watches
    }
}

// Puts looks to their units.
fn place_all(places: &mut [Option<Extent>], looks: Vec<Look>)
    ensures len { length places.new ≡ length places.old }
    ensures shown { (b : BookView) → All (WasSeenIn b) looks.items → All (MayShow b) places.old → All (MayShow b) places.new }
{
    for look in looks {
        let Look { unit, shown } = look;
        if (unit as usize) < places.len() {
            places[unit as usize] = Some(shown);
        }
    }
}
