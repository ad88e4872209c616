//! A watch for each item that a book closed.
ghost use Rattle.std.specs.Prelude.{◌≡◌, ◌<◌, ◌≤◌, All, IfSome, ℕ, [], get_or, length, vec_capacity};
ghost use Rattle.run_watch.specs.Looks.{MayShow, Shows};
ghost use Rattle.run_watch.specs.Watches.{AreWatchesOf, IsWatchOf, closing_number};

use crate::boards::Watch;
use history_views::Extent;
use lock_journal::Book;

// The end of a book.
#[tactic(auto, using(crate::proofs::Shown::shown_whole))]
fn end_of(book: &Book) -> Extent
    ensures shown { Shows book.now result }
    ensures entries { result.entries ≡ length book.now.history }
{
    Extent {
        entries: book.len(),
        leases: book.state().leases_out(),
    }
}

// What was shown of a unit that this entry closed, where a look shows that entry. Else the book's end.
fn watch_of(book: &Book, unit: u32, closed: u64, look: Option<Extent>) -> Watch
    requires closed { closed ≡ closing_number unit book.now.history }
    requires look { MayShow book.now look }
    ensures unit { result.unit ≡ unit }
    ensures watch { IsWatchOf book.now result }
    ensures look { IfSome look (λ e. closed ≤ e.entries → (result.entries ≡ e.entries) × (result.leases ≡ e.leases)) }
{
    let shown = match look {
        Some(shown) if closed <= shown.entries => shown,
        Some(_) | None => end_of(book),
    };
    Watch {
        unit,
        entries: shown.entries,
        leases: shown.leases,
    }
}

/// A watch for each unit that the book closed as an item, by rising unit: what was shown once it was closed, or the book's end.
pub(crate) fn watches_by(
    book: &Book,
    closings: &[u64],
    looks: &[Option<Extent>],
    watches: &mut Vec<Watch>,
)
    requires closings { (u d : ℕ) → u < length closings.now → get_or closings.now u d ≡ closing_number u book.now.history }
    requires len { length closings.now ≡ book.now.graph.units }
    requires looks { length looks.now ≡ book.now.graph.units }
    requires shown { All (MayShow book.now) looks.now }
    requires empty { watches.old.items ≡ [] }
    requires room { book.now.graph.units ≤ vec_capacity watches.old }
    ensures { AreWatchesOf book.now watches.new.items }
{
    for unit in 0..book.graph().units() {
        let closed = closings[unit as usize];
        if closed > 0 {
            watches.push_reserved(watch_of(book, unit, closed, looks[unit as usize]));
        }
    }
}
