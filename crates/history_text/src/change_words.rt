ghost use Rattle.std.specs.Prelude.{◌≡◌};
ghost use Rattle.std.specs.Option.{option_map};
ghost use Rattle.history_text.specs.Reading.{mark_at, id_at, move_at, change_at};

use crate::tokens::{by_word, read_short, text_after};
use resource_lock::{Change, LockId, Mark, MarkId, WorkerId};

// A mark. One that runs is run by the worker.
#[tactic(auto, unfolding(crate::specs::Reading::mark_at, crate::specs::Reading::branch))]
fn read_mark(text: &[u8], worker: WorkerId) -> Option<(Mark, &[u8])>
    ensures { option_map (λ x. (x.0, x.1.now)) result ≡ mark_at worker text.now }
{
    by_word! { text:
        b"waiting" => Mark::Waiting,
        b"queued" => Mark::Queued,
        b"running" => Mark::Running(worker),
        b"passed" => Mark::Passed,
        b"failed" => Mark::Failed,
        b"skipped" => Mark::Skipped,
    }
    None
}

// Reads which mark it is at the start of the text, and gives what follows.
#[tactic(auto, unfolding(crate::specs::Reading::id_at, crate::specs::Reading::branch))]
fn read_id(text: &[u8]) -> Option<(MarkId, &[u8])>
    ensures { option_map (λ x. (x.0, x.1.now)) result ≡ id_at text.now }
{
    by_word! { text:
        b"task " read_short(task) => MarkId::Task(task),
        b"action " read_short(action) => MarkId::Action(action),
        b"unit " read_short(unit) => MarkId::Unit(unit),
    }
    None
}

// Reads a move of a mark at the start of the text, and gives what follows.
#[tactic(auto, unfolding(crate::specs::Reading::move_at))]
fn read_move(text: &[u8], worker: WorkerId) -> Option<(Change, &[u8])>
    ensures { option_map (λ x. (x.0, x.1.now)) result ≡ move_at worker text.now }
{
    let (id, rest) = read_id(text)?;
    let rest = text_after(rest, b" ")?;
    let (from, rest) = read_mark(rest, worker)?;
    let rest = text_after(rest, b" ")?;
    let (to, rest) = read_mark(rest, worker)?;
    Some((Change::Move(id, from, to), rest))
}

/// A change that the worker made, and the text after it.
#[tactic(auto, unfolding(crate::specs::Reading::change_at, crate::specs::Reading::branch))]
pub(crate) fn read_change(text: &[u8], worker: WorkerId) -> Option<(Change, &[u8])>
    ensures { option_map (λ x. (x.0, x.1.now)) result ≡ change_at worker text.now }
{
    by_word! { text:
        b"lock " read_short(lock) => Change::Lock(LockId(lock)),
        b"unlock " read_short(lock) => Change::Unlock(LockId(lock)),
        b"take" => Change::Take,
        b"give" => Change::Give,
        b"park " read_short(lock) => Change::Park(LockId(lock)),
        b"unpark " read_short(lock) => Change::Unpark(LockId(lock)),
        b"enter" => Change::Enter,
        b"leave" => Change::Leave,
    }
    read_move(text, worker)
}
