//! Questions of the locked book.
ghost use Rattle.std.specs.Prelude.{◌≡◌, ◌<◌, Bool, IfNone, IfSome, Option};
ghost use Rattle.resource_lock.specs.declared.ids.WorkerId.{WorkerId};
ghost use Rattle.lock_journal.specs.BookView.{BookView};
ghost use Rattle.worker_choices.specs.NextSteps.{Waits};
ghost use Rattle.worker_choices.specs.declared.awaited.Awaited.{Awaited};

use lock_journal::Book;
use resource_lock::WorkerId;
use worker_choices::Awaited;

/// What a worker asks of the locked book, without an entry.
pub trait Question {
    /// What is answered.
    type Answer;

    /// Which answers a worker may get of a book, where work outside it is queued or isn't.
    ghost answers: { Self → Bool → WorkerId → BookView → Self.Answer → Type 0 };

    /// Where a worker may have to wait for an answer.
    ghost waits_on: { Self → Bool → WorkerId → BookView → Type 0 };

    /// What ends the wait for an answer; none says that any entry does.
    ghost awaits: { Self → Option Awaited };

    /// What ends the wait for an answer. None says that any entry does, a failed one too, so the
    /// answer may depend on anything in the book.
    fn awaited(&self) -> Option<Awaited>
        ensures { result ≡ awaits self.now };

    /// The answer, or None where it is to be asked again once what it waits for has come. Work outside the book is queued,
    /// as it waits beside it, or isn't (`Offers`).
    fn ask(&self, worker: WorkerId, book: &Book, queued: bool) -> Option<Self::Answer>
        requires { worker.0 < book.now.graph.workers }
        ensures answers { IfSome result (λ answer. answers self.now queued worker book.now answer) }
        ensures waits { IfNone result (waits_on self.now queued worker book.now) }
        // An answer is given where what it waits for has come, and nowhere else.
        ensures awaits { IfNone result (IfSome (awaits self.now) (Waits book.now.graph worker book.now.state queued)) }
        ensures comes { IfSome result (λ _. IfSome (awaits self.now) (λ a. Waits book.now.graph worker book.now.state queued a → ⊥)) };
}
