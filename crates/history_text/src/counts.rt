//! Counts of tasks and units by how they ended.
ghost use Rattle.std.specs.Prelude.{◌≡◌, ◌+◌, ◌<◌, ◌^◌, if◌then◌else◌};
ghost use Rattle.item_actions.specs.Value.{passes};
ghost use Rattle.lock_transforms.specs.Table.{has_passed};
ghost use Rattle.history_text.specs.Results.{has_failed, is_skipped, fails, was_skipped};

use item_actions::Outcome;
use resource_lock::Mark;

/// How many of tasks or units passed, failed and were skipped.
#[derive(Drop)]
pub struct Counts {
    pub passed: u64,
    pub failed: u64,
    pub skipped: u64,
}

impl Counts {
    /// Nothing counted yet.
    pub(crate) const NONE: Counts = Counts {
        passed: 0,
        failed: 0,
        skipped: 0,
    };

    /// Counts one more task, by its mark.
    pub(crate) fn add_task(&mut self, mark: Mark)
        requires passed { self.old.passed < 2 ^ 32 }
        requires failed { self.old.failed < 2 ^ 32 }
        requires skipped { self.old.skipped < 2 ^ 32 }
        ensures passed { self.new.passed ≡ self.old.passed + (if has_passed mark then 1 else 0) }
        ensures failed { self.new.failed ≡ self.old.failed + (if has_failed mark then 1 else 0) }
        ensures skipped { self.new.skipped ≡ self.old.skipped + (if is_skipped mark then 1 else 0) }
    {
        match mark {
            Mark::Passed => self.passed += 1,
            Mark::Failed => self.failed += 1,
            Mark::Skipped => self.skipped += 1,
            Mark::Waiting | Mark::Queued | Mark::Running(_) => {}
        }
    }

    /// Counts one more unit, by its outcome.
    pub(crate) fn add_unit(&mut self, outcome: &Outcome)
        requires passed { self.old.passed < 2 ^ 32 }
        requires failed { self.old.failed < 2 ^ 32 }
        requires skipped { self.old.skipped < 2 ^ 32 }
        ensures passed { self.new.passed ≡ self.old.passed + (if passes outcome.now then 1 else 0) }
        ensures failed { self.new.failed ≡ self.old.failed + (if fails outcome.now then 1 else 0) }
        ensures skipped { self.new.skipped ≡ self.old.skipped + (if was_skipped outcome.now then 1 else 0) }
    {
        match outcome {
            Outcome::Number(_) | Outcome::Digest(_) => self.passed += 1,
            Outcome::NotThere | Outcome::TooLong | Outcome::Fault | Outcome::NoMemory => {
                self.failed += 1;
            }
            Outcome::Skipped => self.skipped += 1,
        }
    }
}
