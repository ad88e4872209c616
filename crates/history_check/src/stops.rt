use item_actions::Outcome;
use std::alloc::AllocError;

/// Why driving a run again stopped before its end.
#[derive(Clone, Copy)]
pub(crate) enum Stop {
    /// The entry of this number isn't true: its unit gives this.
    Differs(u64, Outcome),
    /// The file of this unit wasn't read.
    ReadFault(u32),
    /// There was no memory.
    NoMemory,
}

impl From<AllocError> for Stop {
    ghost use Rattle.std.specs.Prelude.{◌≡◌};
    ghost use Rattle.history_check.specs.declared.stops.Stop.TheVariants.{NoMemory};

    ghost from_gives = { λ _ stop. stop ≡ NoMemory };

    fn from(_error: AllocError) -> Stop {
        Stop::NoMemory
    }
}
