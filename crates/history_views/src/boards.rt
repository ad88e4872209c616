//! The board that views read: two copies of a reach, of which the writer changes the one that nobody reads.
ghost use Rattle.std.specs.Prelude.{◌≡◌, ◌<◌, ◌^◌, IfOk, IfSome, drop, true};
ghost use Rattle.left_right.specs.Sides.{view};
ghost use Rattle.history_views.specs.Boards.{IsLast, Names, Writes};

use crate::reaches::Reach;
use atomic_table::{Join, Split};
use crossbeam_utils::rule::{Outcome, Protocol};
use left_right::Absorb;
use left_right::reader::Reader;
use left_right::writer::Writer;
use std::alloc::{AllocError, Global};
use std::sync::Wait;

impl Absorb<Reach> for Reach {
    type State = Reach;

    ghost state = { λ r. r };

    ghost applied = { λ s op. op };

    ghost never_fails = { Unit {0} };

    fn absorb_first(&mut self, operation: &Reach, _other: &Reach) -> Result<(), AllocError> {
        *self = operation.again();
        Ok(())
    }
}

/// The rule of a board: whatever is shown is of the one ledger.
pub struct OneLedger;

impl Protocol<Reach, Option<Reach>> for OneLedger {
    ghost use Rattle.std.specs.Prelude.{None};
    ghost use Rattle.history_views.specs.Boards.{AreOf};

    ghost holds = { AreOf };

    ghost first = { None };
}

/// Something else is shown.
pub struct Showing;

impl Outcome<Reach, Option<Reach>> for Showing {
    ghost use Rattle.std.specs.Prelude.{◌≡◌, Some};

    ghost then = { λ v x y w. w ≡ Some y };
}

/// What is shown is read.
pub struct Looking;

impl Outcome<Reach, Option<Reach>> for Looking {
    ghost use Rattle.std.specs.Prelude.{◌≡◌};
    ghost use Rattle.history_views.specs.Boards.{IsOf};

    ghost then = { λ v x y w. (w ≡ v) × IsOf y.ledger v };
}

/// The writer tells which ledger it is, and a reader hears it.
pub struct Telling;

impl Split<Option<Reach>> for Telling {
    ghost left = { λ v. v };

    ghost right = { λ v. v };
}

impl Join<Option<Reach>> for Telling {
    ghost use Rattle.std.specs.Prelude.{None};

    ghost both = { λ v w. w };

    ghost spent = { None };
}

/// The end of a board at which a reach is shown.
pub type BoardWriter = Writer<Reach, Reach, Option<Reach>, OneLedger>;

/// An end of a board at which a reach is read.
pub type BoardReader = Reader<Reach, Option<Reach>, OneLedger>;

/// A board that shows the reach, with room for so many readers.
pub fn open_board<R: Wait>(
    rt: &R,
    alloc: Global,
    reach: &Reach,
    readers: usize,
) -> Result<BoardWriter, AllocError>
    requires { (0 < readers) × (readers < 2 ^ 32) }
    ensures shown { IfOk result (λ w. w.desk.shown.value ≡ reach.now) }
    ensures writes { IfOk result (λ w. Writes reach.now.ledger (view w.desk.place) w.desk.shown.value (drop w.behind w.log.items)) }
{
    let writer: BoardWriter = Writer::new(alloc, reach.again(), reach.again(), readers)?;
    let (writer, _) = writer.publish_as::<Showing, R>(rt);
    Ok(writer)
}

/// Takes the memory that the next showing needs, by having the reach be shown then. It is false where there is none, and changes
/// nothing that is shown.
pub fn has_room(writer: &mut BoardWriter, reach: &Reach) -> bool
    requires { Writes reach.now.ledger (view writer.old.desk.place) writer.old.desk.shown.value (drop writer.old.behind writer.old.log.items) }
    ensures writes { Writes reach.now.ledger (view writer.new.desk.place) writer.new.desk.shown.value (drop writer.new.behind writer.new.log.items) }
    ensures desk { writer.new.desk ≡ writer.old.desk }
    ensures last { result ≡ true → IsLast reach.now (drop writer.new.behind writer.new.log.items) }
{
    match writer.append(reach.again()) {
        Ok(()) => true,
        Err(_) => false,
    }
}

/// Shows the reach. It waits for those that still read what was shown before the last time. False says that there was no memory for
/// the reach, so that it isn't shown yet.
pub fn show<R: Wait>(rt: &R, mut writer: BoardWriter, reach: &Reach) -> (BoardWriter, bool)
    requires { Writes reach.now.ledger (view writer.desk.place) writer.desk.shown.value (drop writer.behind writer.log.items) }
    ensures writes { Writes reach.now.ledger (view result.0.desk.place) result.0.desk.shown.value (drop result.0.behind result.0.log.items) }
    ensures shown { result.1 ≡ true → result.0.desk.shown.value ≡ reach.now }
{
    let is_last = has_room(&mut writer, reach);
    let (writer, _) = writer.publish_as::<Showing, R>(rt);
    (writer, is_last)
}

/// A reader of the board, which knows the ledger. It fails where the board has no place left, or for want of memory.
pub fn reader_of(writer: &mut BoardWriter, reach: &Reach) -> Result<BoardReader, AllocError>
    requires { Writes reach.now.ledger (view writer.old.desk.place) writer.old.desk.shown.value (drop writer.old.behind writer.old.log.items) }
    ensures writer { Writes reach.now.ledger (view writer.new.desk.place) writer.new.desk.shown.value (drop writer.new.behind writer.new.log.items) }
    ensures shown { writer.new.desk.shown ≡ writer.old.desk.shown }
    ensures reader { IfOk result (λ r. Names reach.now.ledger (view r.place)) }
{
    let mut reader = writer.factory().reader()?;
    reader.learn::<Telling>(writer.tell::<Telling>());
    Ok(reader)
}

/// What is shown, or none where the writer is gone.
pub fn read(reader: BoardReader, reach: &Reach) -> (BoardReader, Option<Reach>)
    requires { Names reach.now.ledger (view reader.place) }
    ensures reader { Names reach.now.ledger (view result.0.place) }
    ensures read { IfSome result.1 (λ r. r.ledger ≡ reach.now.ledger) }
{
    match reader.enter_as::<Looking>() {
        Ok(reading) => {
            let found = reading.get().again();
            (reading.leave(), Some(found))
        }
        Err(reader) => (reader, None),
    }
}
