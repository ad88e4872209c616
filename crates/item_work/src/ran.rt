//! What an item wants of a daemon, and what comes of it.
ghost use Rattle.std.specs.Prelude.{◌≡◌, None};

use daemon_protocol::{Reply, Request};
use daemon_requirements::Requirements;
use item_actions::Outcome;

/// What an item wants of a daemon: the reply to a request, from one that covers these requirements.
#[derive(Clone, Copy)]
pub struct Wanted<'a> {
    pub request: &'a Request,
    pub requirements: &'a Requirements,
}

/// What an item gave, and perhaps a daemon to stop: one that was idle, where one too many was. `L` is the daemon's link, or a box of
/// it, which costs an item that leaves none less.
///
/// It can't be dropped, since the link can't. Who has it closes the item first, and stops the daemon then: the wait for the
/// daemon's end keeps no lease.
pub struct Ran<L> {
    pub outcome: Outcome,
    pub spare: Option<L>,
}

impl<L> Ran<L> {
    /// An item that leaves no daemon to stop.
    pub fn alone(outcome: Outcome) -> Ran<L>
        ensures { result ≡ record { outcome = outcome; spare = None } }
    {
        Ran {
            outcome,
            spare: None,
        }
    }
}

/// A daemon's reply, and perhaps another daemon to stop, by its link or by a box of it. It can't be dropped, since the link can't.
pub struct Answered<L> {
    pub reply: Reply,
    pub spare: Option<L>,
}
