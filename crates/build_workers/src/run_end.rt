//! The end of a run.
ghost use Rattle.std.specs.Prelude.{◌≡◌};

use daemon_manager::Event;
use lock_journal::Book;
use run_watch::Watch;

/// What a run leaves.
#[derive(Drop)]
pub struct RunEnd {
    /// All that its workers did. It keeps all entries.
    pub book: Box<Book>,
    /// All that happened to its daemons, in this order. None of them is idle any more.
    pub events: Vec<Event>,
    /// What was seen once each item was closed, by rising unit, where the run was watched. Else it is empty.
    pub watch: Vec<Watch>,
    pub ghost whole: { book.value.given ≡ 0 },
}
