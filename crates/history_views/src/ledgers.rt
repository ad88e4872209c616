//! The ledger of a history: each book that it has come to, for contracts alone.
ghost use Rattle.std.specs.Prelude.{◌≡◌, ◌<◌, ◌+◌, ◌-◌, ◌^◌, ◌++◌, ◌∷◌, [], IfSome, length, true, false};
ghost use Rattle.history_views.specs.Growing.{IsLater, MayFollow, head_of, last_book};

use crate::reaches::{Add, Growing, Nothing, Reach};
use lock_journal::Book;
use logbook::{Offer, Seen, Start, Word};
use std::marker::Model;

/// Contracts see which ledger it is, and its books.
#[derive(Drop)]
pub struct Ledger {
    word: Word<Book, u64, Growing>,
    books: u64,
    reach: Reach,
}

impl Model for Ledger {
    ghost use Rattle.std.specs.Prelude.{◌≡◌, length};
    ghost use Rattle.history_views.specs.Growing.{ReachView, head_of};

    ghost Value = { ReachView };

    ghost view = { λ l. l.reach };

    ghost invariant = { λ l. (l.word ≡ head_of l.reach.ledger) × (l.books ≡ length l.reach.log) };
}

impl Ledger {
    /// A ledger that begins with the book. None would mean that somebody else had it before.
    pub fn open(book: &Book) -> Option<Ledger>
        ensures { IfSome result (λ l. l.log ≡ book.now ∷ []) }
    {
        let (mut token, mut pen, _) = Seen::open(Start::alone(), 0, 0);
        let word = Word::tracked(0, &mut pen);
        if !add(&word, &mut token, 0, book) {
            return None;
        }
        Some(Ledger {
            word,
            books: 1,
            reach: reach_of(book, token),
        })
    }

    /// Adds a book that goes on from the last one. False would mean that somebody else had added one.
    pub fn advance(&mut self, book: &Book) -> bool
        requires { IsLater (last_book self.old.log) book.now }
        ensures ledger { self.new.ledger ≡ self.old.ledger }
        ensures added { result ≡ true → self.new.log ≡ self.old.log ++ book.now ∷ [] }
        ensures not { result ≡ false → self.new ≡ self.old }
    {
        let mut token = self.reach.token.again();
        if self.books == u64::MAX || !add(&self.word, &mut token, self.books, book) {
            return false;
        }
        self.books += 1;
        self.reach = reach_of(book, token);
        true
    }

    /// How far the history has come.
    pub fn reach(&self) -> &Reach
        ensures { result.now ≡ self.now }
    {
        &self.reach
    }
}

// Adds a book to all that the token knows of.
fn add(
    word: &Word<Book, u64, Growing>,
    token: &mut Seen<Book, u64, Growing>,
    books: u64,
    book: &Book,
) -> bool
    requires word { word.now ≡ head_of token.old.book }
    requires books { books ≡ length token.old.log }
    requires room { books < 2 ^ 64 - 1 }
    requires follows { MayFollow token.old.log book.now }
    ensures ledger { token.new.book ≡ token.old.book }
    ensures added { result ≡ true → token.new.log ≡ token.old.log ++ book.now ∷ [] }
{
    let mut offer: Offer<Book, u64, Growing, Nothing> = token.plain::<Nothing, Book, Add>(book);
    let mut pen = token.no_pen();
    let found = word.compare_exchange::<Add, Nothing>(
        books,
        books + 1,
        token,
        &mut offer,
        &mut pen,
    );
    found == books
}

// The reach of a history that has come to the book.
fn reach_of(book: &Book, token: Seen<Book, u64, Growing>) -> Reach
    requires last { last_book token.log ≡ book.now }
    requires some { 0 < length token.log }
    requires follows { MayFollow token.log book.now }
    ensures { result ≡ record { ledger = token.book; log = token.log } }
{
    Reach {
        entries: book.len(),
        leases: book.state().leases_out(),
        token,
    }
}
