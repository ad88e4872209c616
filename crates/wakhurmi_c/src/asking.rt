//! The locks that a call asks for.
ghost use Rattle.std.specs.Prelude.{◌≡◌, OnOk};
ghost use Rattle.wakhurmi_c.specs.Locks.{locks_of};
ghost use Rattle.wakhurmi_c.specs.Places.{are_in_order};

use resource_lock::LockId;
use std::alloc::AllocError;

/// Notes the locks of these numbers.
pub(crate) fn ask_for(asked: &mut Vec<LockId>, numbers: &[u32]) -> Result<(), AllocError>
    ensures { OnOk result (asked.new.items ≡ locks_of numbers.now) }
{
    asked.clear();
    for number in numbers {
        asked.push(LockId(*number))?;
    }
    Ok(())
}

/// Whether the locks of these numbers strictly rise, and each is one of so many. It reads one number more than there are locks at most:
/// among more numbers one doesn't rise or is none of theirs.
pub(crate) fn are_in_order(numbers: &[u32], locks: u32) -> bool
    ensures { result ≡ are_in_order (locks_of numbers.now) locks }
{
    let mut low = 0;
    for number in numbers {
        if u64::from(*number) < low || *number >= locks {
            return false;
        }
        low = u64::from(*number) + 1;
    }
    true
}
