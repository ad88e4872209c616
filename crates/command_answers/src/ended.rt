//! How a call of the program ended.
ghost use Rattle.std.specs.Prelude.{◌≡◌, ◌≢◌, [], None};
ghost use Rattle.command_answers.specs.Answered.{AreEventsOf, book_of};
ghost use Rattle.command_answers.specs.Told.{IsToldAs};
ghost use Rattle.command_answers.specs.declared.status.Status.TheVariants as status;

use crate::refusals::{told, told_but_no_memory};
use crate::status::Status;
use daemon_manager::Event;
use file_access::Sink;
use lock_journal::Book;
use run_watch::Watch;
use std::alloc::Global;

/// How a call ended.
#[derive(Drop)]
pub struct Ended {
    pub status: Status,
    /// The book of the run, if a run ended.
    pub book: Option<Box<Book>>,
    /// What happened to the run's daemons. They are none where no run ended.
    pub events: Vec<Event>,
    /// What the run's workers saw once each item was closed, by rising unit, where the words ask for it. Else, and where no run ended, it is
    /// empty.
    pub watch: Vec<Watch>,
}

/// The end of a call in which no run ended. It takes no memory.
pub fn without_run(alloc: Global, status: Status) -> Ended
    ensures book { result.book ≡ None }
    ensures events { AreEventsOf (book_of result.book) result.events.items }
    ensures watch { result.watch.items ≡ [] }
    ensures status { result.status ≡ status }
{
    Ended {
        status,
        book: None,
        events: Vec::new(alloc),
        watch: Vec::new(alloc),
    }
}

/// Writes the line of a refusal, and ends the call with it, or with SinkFault.
pub fn refuse<O: Sink>(alloc: Global, refusal: Status, out: &mut O) -> Ended
    ensures book { result.book ≡ None }
    ensures events { AreEventsOf (book_of result.book) result.events.items }
    ensures watch { result.book ≡ None → result.watch.items ≡ [] }
    ensures status { IsToldAs refusal (O.seen out.old) (O.seen out.new) result.status }
{
    without_run(alloc, told(refusal, out))
}

/// Writes the line of a refusal, but where there was no memory, and ends the call with it, or with SinkFault.
pub fn refuse_plan<O: Sink>(alloc: Global, refusal: Status, out: &mut O) -> Ended
    ensures book { result.book ≡ None }
    ensures events { AreEventsOf (book_of result.book) result.events.items }
    ensures watch { result.book ≡ None → result.watch.items ≡ [] }
    ensures no_memory { refusal ≡ status.NoMemory → (result.status ≡ status.NoMemory) × (O.seen out.new ≡ O.seen out.old) }
    ensures told { refusal ≢ status.NoMemory → IsToldAs refusal (O.seen out.old) (O.seen out.new) result.status }
{
    without_run(alloc, told_but_no_memory(refusal, out))
}
