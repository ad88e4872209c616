//! Links to daemons in memory.
ghost use Rattle.std.specs.Prelude.{◌≡◌, None, Some, IfSome, true};
ghost use Rattle.item_actions.specs.Forms.{is_file_name};
ghost use Rattle.daemon_desk.specs.LinkView.{new_link};

use daemon_protocol::Request;
use daemon_requirements::{Linked, Requirements};
use std::marker::Model;

/// A link to a daemon that serves in memory, when its reply is received. It can't be dropped: it has to be stopped.
pub struct MemoryLink {
    made_for: Requirements,
    waiting: Option<Request>,
    // Whether a call failed. Contracts alone ask for it.
    broken: bool,
}

impl Model for MemoryLink {
    ghost use Rattle.std.specs.Prelude.{◌≡◌, IfSome, true};
    ghost use Rattle.item_actions.specs.Forms.{is_file_name};
    ghost use Rattle.daemon_desk.specs.LinkView.{LinkView};

    ghost Value = { LinkView };

    ghost view = { λ link. record { made_for = link.made_for; waiting = link.waiting; broken = link.broken } };

    ghost invariant = { λ link. IfSome link.waiting (λ request. is_file_name request.file ≡ true) };
}

impl MemoryLink {
    /// A link that is made for these requirements, on which nothing waits.
    pub(crate) fn new(made_for: Requirements) -> MemoryLink
        ensures { result ≡ new_link made_for }
    {
        MemoryLink {
            made_for,
            waiting: None,
            broken: false,
        }
    }

    /// Ends the link to a daemon that is stopped.
    pub(crate) fn end(self) {
        let MemoryLink {
            made_for: _,
            waiting: _,
            broken: _,
        } = self;
    }

    /// Notes that a call on the link failed.
    pub(crate) fn break_off(&mut self)
        ensures { self.new ≡ record self.old { broken = true } }
    {
        self.broken = true;
    }

    /// Lets a request wait.
    pub(crate) fn wait_for(&mut self, request: Request)
        requires { is_file_name request.file ≡ true }
        ensures { self.new ≡ record self.old { waiting = Some request } }
    {
        self.waiting = Some(request);
    }

    /// Takes the request that waits.
    pub(crate) fn take_waiting(&mut self) -> Option<Request>
        ensures taken { result ≡ self.old.waiting }
        ensures left { self.new ≡ record self.old { waiting = None } }
        ensures form { IfSome result (λ request. is_file_name request.file ≡ true) }
    {
        self.waiting.take()
    }
}

impl Linked for MemoryLink {
    ghost use Rattle.daemon_desk.specs.LinkView.{is_settled};

    ghost requirements = { λ link. link.made_for };

    ghost settled = { λ link. is_settled link.broken link.waiting };

    fn made_for(&self) -> &Requirements {
        &self.made_for
    }
}
