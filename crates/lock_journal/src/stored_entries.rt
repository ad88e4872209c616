//! What is stored of an entry.
ghost use Rattle.std.specs.Prelude.{◌≡◌, ◌≤◌, ◌<◌, ◌+◌, ◌∷◌, [], ◌++◌, ◌-◌, length, map, slice_range};
ghost use Rattle.std.specs.Prelude.{if◌then◌else◌};
ghost use Rattle.lock_journal.specs.Changes.{changes_left};
ghost use Rattle.lock_journal.specs.Closings.{closed_of};
ghost use Rattle.lock_journal.specs.StoredChange.{change_of_worker};
ghost use Rattle.lock_journal.specs.StoredEntry.{IsLastNumber, IsNumberOf, closing_at, closings_until, end_before, kind_from};
ghost use Rattle.lock_journal.specs.declared.stored_entries.TheConstants.{MOST_PLACES};

use crate::shown_changes::Changes;
use crate::stored_changes::StoredChange;
use crate::stored_closings::StoredClosings;
use lock_transforms::{Closed, Kind};
use resource_lock::WorkerId;

/// An entry, with the place where its changes begin among those of all entries. They end where those
/// of the next entry begin. It has no outcome: closings stand in a row of their own, in which a failed entry's can be another than the
/// last of its unit.
#[derive(Clone, Copy)]
pub struct StoredEntry {
    pub start: u32,
    pub number: u32,
    /// Where the closing stood before of the unit that the entry closes, if it closes one.
    pub earlier: u32,
    pub worker: WorkerId,
    pub kind: StoredKind,
    pub failed: bool,
}

const _: () = prove!(size_of::<StoredEntry>() == 20);

/// At most how many changes are stored in a row, how many closings, and how many digests: so that their places have 32 bits.
pub const MOST_PLACES: u64 = (1 << 32) - 1;

/// What a stored entry is for. The entry's number is that of the task, the action or the unit. Of a
/// kind with an outcome it is the place of the closing among those of all entries.
#[derive(Clone, Copy)]
pub enum StoredKind {
    Start,
    Skip,
    Submit,
    Park,
    Resume,
    Claim,
    Close,
    BlockForFetch,
    Block,
    UnblockAfterFetch,
    Unblock,
    End,
    Acquire,
    HandBack,
}

/// What is stored of a kind, with its number. Its closing, if it has one, comes last in the closings.
#[inline(always)]
pub fn store_kind(kind: &Kind, closings: &mut StoredClosings) -> (StoredKind, u32)
    requires room { 0 < closings.old.spare }
    requires few { length closings.old.items ≤ MOST_PLACES }
    ensures kind { kind_from closings.new.items result.0 result.1 ≡ kind.now }
    ensures number { IsLastNumber (length closings.new.items) result.0 result.1 }
    ensures until { closings_until result.0 result.1 (length closings.new.items) ≡ length closings.old.items }
    ensures items { closings.new.items ≡ closings.old.items ++ closed_of kind.now }
    ensures few { length closings.new.items ≤ MOST_PLACES }
    ensures spare { closings.old.spare ≤ closings.new.spare + 1 }
{
    match *kind {
        Kind::Start(task) => (StoredKind::Start, task),
        Kind::Skip(task) => (StoredKind::Skip, task),
        Kind::Submit(action) => (StoredKind::Submit, action),
        Kind::Park(action) => (StoredKind::Park, action),
        Kind::Resume(action) => (StoredKind::Resume, action),
        Kind::Claim(unit) => (StoredKind::Claim, unit),
        Kind::Close(closed) => (StoredKind::Close, store_closing(closed, closings)),
        Kind::Block(Some(unit)) => (StoredKind::BlockForFetch, unit),
        Kind::Block(None) => (StoredKind::Block, 0),
        Kind::Unblock(Some(closed)) => (
            StoredKind::UnblockAfterFetch,
            store_closing(closed, closings),
        ),
        Kind::Unblock(None) => (StoredKind::Unblock, 0),
        Kind::End(task) => (StoredKind::End, task),
        Kind::Acquire => (StoredKind::Acquire, 0),
        Kind::HandBack => (StoredKind::HandBack, 0),
    }
}

// Puts a closing last, and answers its place.
fn store_closing(closed: Closed, closings: &mut StoredClosings) -> u32
    requires { 0 < closings.old.spare }
    ensures place { result ≡ length closings.old.items }
    ensures last { result + 1 ≡ length closings.new.items }
    ensures closing { closing_at closings.new.items result ≡ closed }
    ensures items { closings.new.items ≡ closings.old.items ++ closed ∷ [] }
    ensures few { length closings.new.items ≤ MOST_PLACES }
    ensures spare { closings.old.spare ≤ closings.new.spare + 1 }
{
    let place = place_behind(closings.len());
    closings.push_reserved(closed);
    place
}

/// The place behind so many.
pub fn place_behind(count: usize) -> u32
    requires { count ≤ MOST_PLACES }
    ensures { result ≡ count }
{
    count as u32
}

/// How many places of 32 bits are free behind so many.
pub fn free_places(count: usize) -> u64
    ensures { result ≡ MOST_PLACES - count }
{
    MOST_PLACES.saturating_sub(count as u64)
}

/// The kind of a stored entry, where these are the closings of all entries.
pub fn kind_of(stored: StoredEntry, closings: &StoredClosings) -> Kind
    requires { IsNumberOf (length closings.now.items) stored.kind stored.number }
    ensures { result ≡ kind_from closings.now.items stored.kind stored.number }
{
    match stored.kind {
        StoredKind::Start => Kind::Start(stored.number),
        StoredKind::Skip => Kind::Skip(stored.number),
        StoredKind::Submit => Kind::Submit(stored.number),
        StoredKind::Park => Kind::Park(stored.number),
        StoredKind::Resume => Kind::Resume(stored.number),
        StoredKind::Claim => Kind::Claim(stored.number),
        StoredKind::Close => Kind::Close(closings.at(stored.number as usize)),
        StoredKind::BlockForFetch => Kind::Block(Some(stored.number)),
        StoredKind::Block => Kind::Block(None),
        StoredKind::UnblockAfterFetch => {
            Kind::Unblock(Some(closings.at(stored.number as usize)))
        }
        StoredKind::Unblock => Kind::Unblock(None),
        StoredKind::End => Kind::End(stored.number),
        StoredKind::Acquire => Kind::Acquire,
        StoredKind::HandBack => Kind::HandBack,
    }
}

/// Where the changes end that come before those of these entries, where there are so many in all.
pub fn end_before(stored: &[StoredEntry], changes: usize) -> usize
    ensures { result ≡ end_before stored.now changes }
{
    match stored.first() {
        Some(next) => next.start as usize,
        None => changes,
    }
}

/// How many closings stand before that of a stored entry, where its own is the last of so many, if it
/// has one.
pub fn closings_until(stored: StoredEntry, closings: usize) -> usize
    ensures { result ≡ closings_until stored.kind stored.number closings }
{
    match stored.kind {
        StoredKind::Close | StoredKind::UnblockAfterFetch => stored.number as usize,
        _ => closings,
    }
}

/// The changes of a stored entry among those of all entries, where its own end there.
pub fn changes_of(stored: StoredEntry, end: usize, changes: &[StoredChange]) -> Changes<'_>
    requires ordered { stored.start ≤ end }
    requires bounded { end ≤ length changes.now }
    ensures { changes_left result
        ≡ if stored.failed then [] else map (change_of_worker stored.worker) (slice_range changes.now stored.start end) }
{
    if stored.failed {
        Changes::none()
    } else {
        Changes::stored(stored.worker, &changes[stored.start as usize..end])
    }
}
