//! What the lock's holder shows to views.
ghost use Rattle.std.specs.Prelude.{◌≡◌, ◌<◌, ◌++◌, ◌∷◌, [], IfOk, IsNone, Some, drop, true, false};
ghost use Rattle.left_right.specs.Sides.{view};
ghost use Rattle.history_views.specs.Boards.{Writes};
ghost use Rattle.history_views.specs.Growing.{IsLater, last_book};

use crate::boards::{BoardWriter, has_room, open_board, reader_of, show};
use crate::ledgers::Ledger;
use crate::reaches::Reach;
use crate::views::View;
use lock_journal::Book;
use std::alloc::{AllocError, Global};
use std::marker::Model;
use std::sync::Wait;

/// The ledger of a history and the board that shows how far it has come. Contracts see the ledger.
// It keeps its runtime, because its end waits for the views that read: so a shown book may be dropped like any other. The number of
// views is chosen at the opening, since each showing visits each view's place.
pub struct Stage<R: Wait + Drop> {
    ledger: Ledger,
    writer: Option<BoardWriter>,
    // Whether there was no memory to show what the ledger has.
    is_late: bool,
    rt: R,
}

impl<R: Wait + Drop> Model for Stage<R> {
    ghost use Rattle.std.specs.Prelude.{◌≡◌, IsSome, IfSome, drop, false};
    ghost use Rattle.left_right.specs.Sides.{view as known_at};
    ghost use Rattle.history_views.specs.Growing.{ReachView};
    ghost use Rattle.history_views.specs.Boards.{Writes};

    ghost Value = { ReachView };

    ghost view = { λ s. s.ledger };

    ghost invariant = { λ s. IsSome s.writer
        × IfSome s.writer (λ w. Writes s.ledger.ledger (known_at w.desk.place) w.desk.shown.value (drop w.behind w.log.items))
        × IfSome s.writer (λ w. s.is_late ≡ false → w.desk.shown.value ≡ s.ledger) };
}

impl<R: Wait + Drop> Stage<R> {
    /// A stage that shows the book, with room for so many views. It fails for want of memory alone.
    pub fn open(alloc: Global, rt: R, book: &Book, views: u32) -> Result<Stage<R>, AllocError>
        requires { 0 < views }
        ensures { IfOk result (λ s. s.log ≡ book.now ∷ []) }
    {
        let ledger = Ledger::open(book).ok_or(AllocError)?;
        let writer = open_board(&rt, alloc, ledger.reach(), views as usize)?;
        Ok(Stage {
            ledger,
            writer: Some(writer),
            is_late: false,
            rt,
        })
    }

    /// A view of it, which has seen what is shown now. There is one for each that it has room for.
    pub fn view(&mut self) -> Result<View, AllocError>
        ensures stage { self.new ≡ self.old }
        ensures view { IfOk result (λ v. v ≡ self.old) }
    {
        let Some(writer) = &mut self.writer else {
            unreachable!()
        };
        let reader = reader_of(writer, self.ledger.reach())?;
        Ok(View::over(reader, self.ledger.reach()))
    }

    /// Shows the book, which goes on from the last one. False says that there was no memory for it, and that nothing
    /// has changed.
    pub fn show(&mut self, book: &Book) -> bool
        requires { IsLater (last_book self.old.log) book.now }
        ensures ledger { self.new.ledger ≡ self.old.ledger }
        ensures shown { result ≡ true → self.new.log ≡ self.old.log ++ book.now ∷ [] }
        ensures not { result ≡ false → self.new ≡ self.old }
    {
        let writer = self.writer.take().unwrap();
        let (writer, shown) = show_on(&self.rt, writer, &mut self.ledger, &mut self.is_late, book);
        put(&mut self.writer, writer);
        shown
    }

    /// How far the history has come.
    pub fn reach(&self) -> &Reach
        ensures { result.now ≡ self.now }
    {
        self.ledger.reach()
    }
}

impl<R: Wait + Drop> Drop for Stage<R> {
    fn drop(self) {
        let Stage {
            ledger: _,
            writer,
            is_late: _,
            rt,
        } = self;
        if let Some(writer) = writer {
            let _ = writer.take(&rt);
        }
    }
}

// Adds the book to the ledger, and shows how far it has come then.
//
// An operation that changes nothing takes the memory before the ledger gets the entry. What is put on the board after that can't fail
// any more. The kit's contract doesn't say so: the board is late where it does.
fn show_on<R: Wait>(
    rt: &R,
    mut writer: BoardWriter,
    ledger: &mut Ledger,
    is_late: &mut bool,
    book: &Book,
) -> (BoardWriter, bool)
    requires shown { is_late.old ≡ false → writer.desk.shown.value ≡ ledger.old }
    requires writes { Writes ledger.old.ledger (view writer.desk.place) writer.desk.shown.value (drop writer.behind writer.log.items) }
    requires later { IsLater (last_book ledger.old.log) book.now }
    ensures writes { Writes ledger.old.ledger (view result.0.desk.place) result.0.desk.shown.value (drop result.0.behind result.0.log.items) }
    ensures ledger { ledger.new.ledger ≡ ledger.old.ledger }
    ensures shown { result.1 ≡ true → ledger.new.log ≡ ledger.old.log ++ book.now ∷ [] }
    ensures not { result.1 ≡ false → ledger.new ≡ ledger.old }
    ensures board { is_late.new ≡ false → result.0.desk.shown.value ≡ ledger.new }
{
    if !has_room(&mut writer, ledger.reach()) || !ledger.advance(book) {
        return (writer, false);
    }
    let (writer, shown) = show(rt, writer, ledger.reach());
    *is_late = !shown;
    (writer, true)
}

// Puts a writer back that was taken out.
fn put(place: &mut Option<BoardWriter>, writer: BoardWriter)
    requires { IsNone place.old }
    ensures { place.new ≡ Some writer }
{
    let old = place.replace(writer);
    let None = old else { unreachable!() };
}
