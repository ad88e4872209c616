//! The end of a run's daemons.
ghost use Rattle.std.specs.Prelude.{◌≡◌, ◌≤◌, ℕ, [], drop, get_or, length};
ghost use Rattle.daemon_manager.specs.Asking.{AreAskedFor};
ghost use Rattle.daemon_manager.specs.Counts.{failures, reservations};
ghost use Rattle.daemon_manager.specs.Events.{NoneIdle, IsLegal};
ghost use Rattle.build_workers.specs.Desks.{desk_view};

use daemon_desk::Desk;
use daemon_manager::{CountedPool, Event, ReservationLedger, Tallies};
use item_work::PoolLock;
use std::sync::ledger::Ledger;

// Stops the idle daemons. All are told before the first is waited for, so that they end side by side. They are told in the order of
// their release, and waited for from the last to the first, by one call within another: the pool keeps few.
fn stop_idle<D: Desk, U: ReservationLedger, F: Ledger>(
    pool: &mut CountedPool<D::Link, U, F>,
    desk: &mut D,
)
    ensures none { pool.new.idle ≡ [] }
    ensures desk { desk_view D.files D.faults D.sends D.sent desk.new ≡ desk_view D.files D.faults D.sends D.sent desk.old }
{
    if let Some(mut link) = pool.stop_idle() {
        desk.tell_to_stop(&mut link);
        stop_idle(pool, desk);
        desk.stop(link);
    }
}

/// Stops the idle daemons through the first desk, and gives all that happened to daemons, which has as many reservations as the
/// tallies count, and no more failures. Each was for a unit that may ask for it. It takes no memory.
pub(crate) fn close_pool<D: Desk, U: ReservationLedger, F: Ledger>(
    pool: PoolLock<D::Link, U, F>,
    tallies: Tallies<U, F>,
    desks: &mut Vec<D>,
) -> Vec<Event>
    requires some { 1 ≤ length desks.old.items }
    requires parts { (tallies.parts ≡ U.parts) × (tallies.parts ≡ F.parts) }
    ensures places { length desks.new.items ≡ length desks.old.items }
    ensures desks { (i : ℕ) (d : D)
        → desk_view D.files D.faults D.sends D.sent (get_or desks.new.items i d) ≡ desk_view D.files D.faults D.sends D.sent (get_or desks.old.items i d) }
    ensures rest { drop 1 desks.new.items ≡ drop 1 desks.old.items }
    ensures legal { IsLegal result.items }
    ensures none_idle { NoneIdle result.items }
    ensures reserved { reservations result.items ≡ tallies.reserved }
    ensures failed { failures result.items ≤ tallies.failed }
    ensures units { AreAskedFor U.asks result.items }
{
    let mut pool = pool.into_inner();
    stop_idle(&mut pool, &mut desks[0]);
    pool.audit(tallies).into_events()
}
