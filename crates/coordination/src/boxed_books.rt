//! A book in a box, which the state lock hands from worker to worker by its address.
ghost use Rattle.std.specs.Prelude.{◌≡◌};

use lock_journal::Book;
use std::marker::Model;

/// A book in a box, which moves as one pointer. Contracts see the book.
#[derive(Drop)]
pub struct BoxedBook {
    /// The book.
    pub inner: Box<Book>,
}

impl Model for BoxedBook {
    ghost use Rattle.lock_journal.specs.BookView.{BookView};

    ghost Value = { BookView };

    ghost view = { λ b. b.inner.value };
}

impl BoxedBook {
    /// The book in its own box.
    pub fn into_box(self) -> Box<Book>
        ensures { result.value ≡ self }
    {
        let BoxedBook { inner } = self;
        inner
    }
}
