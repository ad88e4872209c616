//! Which entries of a history closed items.
ghost use Rattle.std.specs.Prelude.{◌≡◌, ◌<◌, ℕ, get_or, length, replicate};
ghost use Rattle.lock_journal.specs.Shown.{entry_shown};
ghost use Rattle.run_watch.specs.Watches.{closing_number, item_closed};

use lock_journal::{Book, Shown};
use lock_transforms::Kind;

// The item that an entry closed, if it closed one.
fn closed_by(entry: &Shown<'_>) -> Option<u32>
    ensures { result ≡ item_closed (entry_shown entry.now) }
{
    match entry.kind {
        Kind::Close(closed) if !entry.failed => Some(closed.unit),
        _ => None,
    }
}

/// Notes for each unit the number of the entry that closed it as an item, counted from 1, or 0.
pub(crate) fn note_closings(book: &Book, closings: &mut [u64])
    requires none { closings.old ≡ replicate (length closings.old) 0 }
    requires whole { book.now.given ≡ 0 }
    ensures len { length closings.new ≡ length closings.old }
    ensures closings { (u d : ℕ) → u < length closings.old → get_or closings.new u d ≡ closing_number u book.now.history }
{
    for place in 0..book.len() {
        if let Some(unit) = closed_by(&book.entry(place))
            && (unit as usize) < closings.len()
        {
            closings[unit as usize] = place + 1;
        }
    }
}
