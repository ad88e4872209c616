//! What others have to count on of a worker between its calls.
ghost use Rattle.std.specs.Prelude.{◌≡◌};
ghost use Rattle.worker_choices.specs.Stances.{looks, sleeps};

use crate::awaited::Awaited;

/// What a worker does between two of its calls under the state lock.
#[derive(Clone, Copy)]
pub enum Stance {
    /// It works, waits in a transform, hasn't come yet, or promised nothing.
    Away,
    /// It comes to the state lock again, and doesn't work before that.
    Looks,
    /// It sleeps until what it waits for comes.
    Sleeps(Awaited),
}

impl Stance {
    /// Whether the worker looks.
    #[inline]
    pub fn looks(self) -> bool
        ensures { result ≡ looks self }
    {
        matches!(self, Stance::Looks)
    }

    /// Whether the worker sleeps.
    #[inline]
    pub fn sleeps(self) -> bool
        ensures { result ≡ sleeps self }
    {
        matches!(self, Stance::Sleeps(_))
    }
}
