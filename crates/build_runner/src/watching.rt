//! What the workers of a run have seen of its history.
ghost use Rattle.std.specs.Prelude.{◌≡◌, ◌<◌, [], All, Contains, IfOk, IfSome, None, Some, length};
ghost use Rattle.coordination.specs.Passes.{ServiceId};
ghost use Rattle.run_watch.specs.Watches.{AreWatchesOf};
ghost use Rattle.build_runner.specs.Watching.{HasRoomToLook, IsBoardFor, IsOfPasses, IsSeenBy, IsWatchedBy};

use build_workers::Kit;
use coordination::Pass;
use lock_journal::Book;
use run_watch::{Board, BoardRoom, Watch};
use std::alloc::{AllocError, Global};

// The pass of the worker that made the last entry that any of them knows to be its own.
fn last_of(passes: &[Pass]) -> &Pass
    requires { 0 < length passes.now }
    ensures { Contains passes.now result.now }
{
    let mut last = 0;
    for place in 0..passes.len() {
        if passes[last].last() < passes[place].last() {
            last = place;
        }
    }
    &passes[last]
}

// Takes what the workers have seen, once all have ended. Each view looks once more, having learnt from the pass of the worker that
// made the last entry.
fn take_looks(passes: &[Pass], kits: Vec<Kit>, room: BoardRoom) -> Board
    requires some { 0 < length passes.now }
    requires watched { (service : ServiceId) × All (λ p. p.service ≡ service) passes.now × All (IsWatchedBy service) kits.items }
    ensures { IsOfPasses passes.now room result }
{
    let last = last_of(passes);
    let mut board = Board::of(room, last);
    for kit in kits {
        if let Some(watcher) = kit.into_watcher() {
            board.take(watcher, last);
        }
    }
    board
}

/// What the workers have seen, once all have ended, where there is room for it: where the run is watched.
pub(crate) fn board_of(passes: &[Pass], kits: Vec<Kit>, room: Option<BoardRoom>) -> Option<Board>
    requires some { 0 < length passes.now }
    requires watched { (service : ServiceId) × All (λ p. p.service ≡ service) passes.now × All (IsWatchedBy service) kits.items }
    ensures { IsBoardFor passes.now room result }
{
    match room {
        Some(room) => Some(take_looks(passes, kits, room)),
        None => None,
    }
}

/// What was seen by rising unit, where the run was watched.
pub(crate) fn watches_of(alloc: Global, board: Option<Board>, book: &Book) -> Vec<Watch>
    requires seen { IfSome board (IsSeenBy book.now) }
    requires whole { book.now.given ≡ 0 }
    ensures some { IfSome board (λ _. AreWatchesOf book.now result.items) }
    ensures none { board ≡ None → result.items ≡ [] }
{
    match board {
        Some(board) => board.into_watches(book),
        None => Vec::new(alloc),
    }
}

/// Room for what is seen of so many units, where the run is watched.
pub(crate) fn room_for(
    alloc: Global,
    watch: bool,
    units: u32,
) -> Result<Option<BoardRoom>, AllocError>
    ensures { IfOk result (HasRoomToLook watch units) }
{
    if watch {
        Ok(Some(BoardRoom::new(alloc, units)?))
    } else {
        Ok(None)
    }
}
