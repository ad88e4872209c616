//! A daemon that is one too many while a run goes on.
ghost use Rattle.std.specs.Prelude.{◌≡◌};
ghost use Rattle.build_workers.specs.Desks.{desk_view};

use crate::site::RunService;
use daemon_desk::Desk;
use std::sync::Wait;

/// Stops a daemon that is one too many, if there is one. The service counts on this worker to come again at once, and so wakes nobody
/// for what the worker left behind. It doesn't come while it waits for the daemon's end, so the others are woken before.
pub(crate) fn stop_spare<R: Wait, D: Desk>(
    service: &RunService<'_, R>,
    desk: &mut D,
    spare: Option<Box<D::Link>>,
)
    ensures sends { D.sends desk.new ≡ D.sends desk.old }
    ensures desk { desk_view D.files D.faults D.sends D.sent desk.new ≡ desk_view D.files D.faults D.sends D.sent desk.old }
{
    if let Some(link) = spare {
        wake_and_stop(service, desk, link);
    }
}

// Wakes the other workers, and stops the daemon. It is a function of its own, since a function clears the room of its values first,
// and few items leave a daemon to stop.
#[cold]
#[inline(never)]
fn wake_and_stop<R: Wait, D: Desk>(service: &RunService<'_, R>, desk: &mut D, link: Box<D::Link>)
    ensures sends { D.sends desk.new ≡ D.sends desk.old }
    ensures desk { desk_view D.files D.faults D.sends D.sent desk.new ≡ desk_view D.files D.faults D.sends D.sent desk.old }
{
    service.notify_state_change();
    desk.stop(Box::into_inner(link));
}
