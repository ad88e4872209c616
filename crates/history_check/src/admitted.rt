//! What admitting a history comes to.
ghost use Rattle.std.specs.Prelude.{◌≡◌};
ghost use Rattle.history_check.specs.Admitting.{checked_of};

use crate::checks::Checked;
use lock_journal::Book;

/// What admitting the entries of a history one by one came to.
#[derive(Drop)]
pub enum Admitted {
    /// All entries are lawful, and this is their book.
    Lawful(Book),
    /// The entry of this number is the first that isn't allowed after those before it. Of a text that stops
    /// being a history it is the number at which it stops. It is 0 where the history names another number of
    /// locks than the plan's graph has.
    NotLawful(u64),
}

impl Admitted {
    /// What a check answers that needs no book.
    pub fn checked(&self) -> Checked
        ensures { result ≡ checked_of self.now }
    {
        match self {
            Admitted::Lawful(book) => Checked::Lawful(book.len()),
            Admitted::NotLawful(number) => Checked::NotLawful(*number),
        }
    }
}
