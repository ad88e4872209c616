//! A part of a history that was taken while its service ran.
ghost use Rattle.std.specs.Prelude.{◌≡◌};

use lock_journal::Segment;

/// Entries that were taken, and the numbers that stand in the text before the first entry of all.
#[derive(Drop)]
pub struct TakenPart {
    /// The entries.
    pub segment: Segment,
    /// How many workers the service has.
    pub workers: u32,
    /// How many of them may have a lease at once.
    pub max_leases: u32,
    /// How many project locks it has.
    pub locks: u32,
    // A service for C has no units, so any part can be filled again.
    ghost no_units: { segment.units ≡ 0 },
}
