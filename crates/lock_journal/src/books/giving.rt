ghost use Rattle.std.specs.Prelude.{◌≡◌, true, false};
ghost use Rattle.lock_journal.specs.Giving.{CanGive, GivesTo};

use crate::books::Book;
use crate::pasts::{Past, Recorded};
use crate::segments::{MOST_BEFORE, Segment};
use logbook::{Opening, Seen, Start};

/// The past that is a book's whole history.
pub struct OfBook;

impl Opening<Book, Recorded> for OfBook {
    ghost use Rattle.lock_journal.specs.BookView.{BookView};

    ghost log = { λ n (book : BookView). book.history };
}

impl Book {
    /// Gives the entries away that the book keeps: they move into the segment, which has none, and the book goes on with the segment's room.
    /// It takes constant time and no memory. The graph, the state and the history are as before, as contracts see them, but the entries
    /// that were given away can't be read here any more.
    ///
    /// False says that nothing was given: the segment has entries, or was opened for another number of units, or the history has more than
    /// 2^62 entries.
    pub fn give(&mut self, segment: &mut Segment) -> bool
        ensures given { result ≡ true → GivesTo self.old self.new segment.old segment.new }
        ensures can { result ≡ true → CanGive self.old segment.old }
        ensures not { result ≡ false → (self.new ≡ self.old) × (segment.new ≡ segment.old) }
        ensures why { result ≡ false → CanGive self.old segment.old → ⊥ }
    {
        if !self.can_give(segment) {
            return false;
        }
        let whole = past_of(self);
        self.history.give(whole, segment);
        true
    }

    // Whether the book can give its entries to the segment.
    fn can_give(&self, segment: &Segment) -> bool
        ensures can { result ≡ true → CanGive self.now segment.now }
        ensures not { result ≡ false → CanGive self.now segment.now → ⊥ }
    {
        segment.len() == 0
            && segment.units() == self.graph().units() as usize
            && self.len() <= MOST_BEFORE
    }
}

// The past that is the history of a book.
fn past_of(book: &Book) -> Past
    ensures { result ≡ book.now.history }
{
    let (seen, _) = Seen::open_row::<Book, OfBook>(book, Start::alone(), 0);
    Past { seen }
}
