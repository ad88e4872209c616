//! The changes of a state.
use crate::ids::LockId;
use crate::marks::{Mark, MarkId};

/// A change of the state, made by one worker. It changes what its line says, and nothing else.
#[derive(Clone, Copy, PartialEq, Eq)]
pub enum Change {
    /// The worker becomes the owner of a lock that nobody owns and from which it isn't kept.
    Lock(LockId),
    /// A lock of the worker has no owner any more.
    Unlock(LockId),
    /// The worker gets a lease.
    Take,
    /// The worker gives its lease back.
    Give,
    /// A mark goes from the first to the second.
    Move(MarkId, Mark, Mark),
    /// A lock that the worker doesn't own is put last in its list of parked locks.
    Park(LockId),
    /// The last of the worker's parked locks is taken off its list.
    Unpark(LockId),
    /// The worker becomes blocked.
    Enter,
    /// The worker is blocked no more.
    Leave,
}

impl Change {
    ghost use Rattle.std.specs.Prelude.{◌≡◌};
    ghost use Rattle.resource_lock.specs.Change.{inverse_of};

    /// The change that undoes this one, once it was made.
    pub fn inverse(self) -> Change
        ensures { result ≡ inverse_of self }
    {
        match self {
            Change::Lock(lock) => Change::Unlock(lock),
            Change::Unlock(lock) => Change::Lock(lock),
            Change::Take => Change::Give,
            Change::Give => Change::Take,
            Change::Move(id, from, to) => Change::Move(id, to, from),
            Change::Park(lock) => Change::Unpark(lock),
            Change::Unpark(lock) => Change::Park(lock),
            Change::Enter => Change::Leave,
            Change::Leave => Change::Enter,
        }
    }
}
