ghost use Rattle.std.specs.Prelude.{◌≡◌, ◌≢◌, IfOk, Err, None, Ok, true};
ghost use Rattle.resource_lock.specs.declared.ids.WorkerId.{WorkerId};
ghost use Rattle.lock_transforms.specs.Allowed.{IsFixedList};
ghost use Rattle.lock_transforms.specs.declared.entries.Kind.TheVariants as kinds;
ghost use Rattle.coordination.specs.Calls.{HasFinished, HasLooked, WasStopped};
ghost use Rattle.coordination.specs.Shown.{ShowsTheSame, lease_shown, locks_shown};
ghost use Rattle.blocking_section.specs.Sections.{CouldEnter, HasSetDown, IsGivenBackBy, IsNotReady, MayEnter, OwnsNothingMeanwhile};

use crate::blocked::Blocked;
use coordination::{Coordination, Halt, Offers, Pass, Runner};
use lock_transforms::kinds::Block;
use std::snapshot::Snapshot;
use std::sync::Wait;

/// Enters a blocking section: in one entry the worker gives back its lease and all its locks, which
/// it parks by rising number, and is blocked. It owns nothing in any state until it leaves. Where
/// the section is for a unit, which is a fetch of the worker's own task, the fetch runs from then on.
///
/// It waits only where the fetch isn't ready: where it or its action isn't Waiting, or an earlier
/// action of the task hasn't passed. So it never waits without a unit, nor where the fetch was ready
/// in the book that the pass has seen last, since nobody else moves what stands under the worker's
/// task. After an error the pass shows what it showed.
pub fn enter<R: Wait, O: Offers, K: Runner>(
    rt: &R,
    service: &Coordination<O, K>,
    pass: &mut Pass,
    unit: Option<u32>,
) -> Result<Blocked, Halt>
    requires service { pass.old.service ≡ service.now.service }
    requires lease { lease_shown pass.old.sight ≡ true }
    requires unit { MayEnter unit pass.old.sight }
    ensures service { pass.new.service ≡ pass.old.service }
    ensures worker { pass.new.sight.worker ≡ pass.old.sight.worker }
    ensures entry { IfOk result (λ _. HasFinished (kinds.Block unit) (IsFixedList (kinds.Block unit)) pass.old.sight pass.new.sight) }
    ensures given { IfOk result (λ blocked. blocked ≡ record { worker = pass.old.sight.worker; unit = unit; locks = locks_shown pass.old.sight }) }
    ensures own { IfOk result (λ blocked. IsGivenBackBy pass.new.sight blocked) }
    ensures shows { IfOk result (λ _. HasSetDown unit pass.old.sight pass.new.sight) }
    ensures meanwhile { IfOk result (λ _. OwnsNothingMeanwhile pass.new.sight) }
    ensures without { unit ≡ None → (by : WorkerId) → result ≢ Err (Halt.Stopped by) }
    ensures ready { CouldEnter unit pass.old.sight → (by : WorkerId) → result ≢ Err (Halt.Stopped by) }
    ensures no_memory { result ≡ Err Halt.NoMemory → HasLooked pass.old.sight pass.new.sight × ShowsTheSame pass.old.sight pass.new.sight }
    ensures stopped { (by : WorkerId) → result ≡ Err (Halt.Stopped by)
        → WasStopped (IsNotReady unit) by pass.old.sight pass.new.sight × ShowsTheSame pass.old.sight pass.new.sight }
{
    let blocked = Blocked {
        worker: pass.worker(),
        unit,
        before: Snapshot::of(pass),
    };
    service.with_state_lock(rt, pass, &Block { unit })?;
    Ok(blocked)
}
