//! One try of a transform.
ghost use Rattle.std.specs.Prelude.{◌≡◌, ◌&&◌};
ghost use Rattle.worker_choices.specs.GoingOn.{last_lets_go_on};
ghost use Rattle.wakhurmi_c.specs.Leaves.{Leaves, is_entry};

use crate::answers::{Answer, Outcome};
use coordination::{Pass, Sleepers, Slot};
use lock_transforms::{Disposition, Transform};

/// Runs a transform of a worker once. It wakes others exactly where it made an entry that can let one go on. Where it can't be done yet
/// the worker hears of a stop, so `Busy` never comes once it has heard of one, or has stopped the service.
pub(crate) fn try_once<T: Transform>(
    service: &Slot,
    pass: &mut Pass,
    sleepers: &mut Sleepers,
    transform: &T,
) -> Outcome
    requires { pass.old.service.table ≡ service.now.table.shared.table_id }
    ensures service { pass.new.service ≡ pass.old.service }
    ensures graph { pass.new.sight.seen.graph ≡ pass.old.sight.seen.graph }
    ensures left { Leaves (T.kind_of transform.now) (T.makes transform.now) (T.fails_on transform.now) (T.retries_on transform.now)
        (λ _. ⊥) (λ _. ⊥) pass.old.sight pass.new.sight result.answer }
    ensures wakes { result.wakes ≡ (is_entry result.answer && last_lets_go_on pass.new.sight.seen.history) }
{
    sleepers.transforms = true;
    match service.attempt(pass, transform, sleepers) {
        None => Outcome::without_entry(Answer::Again),
        Some((Ok(Disposition::Finished), wakes)) => Outcome {
            answer: Answer::Done,
            wakes: wakes.transforms,
        },
        Some((Ok(Disposition::Failed), wakes)) => Outcome {
            answer: Answer::Refused,
            wakes: wakes.transforms,
        },
        Some((Err(_), _)) => Outcome::without_entry(Answer::NoMemory),
        Some((Ok(Disposition::Retry), _)) => match service.hear(pass) {
            Some(_) => Outcome::without_entry(Answer::Stopped),
            None => Outcome::without_entry(Answer::Busy),
        },
    }
}
