//! What one worker sees of a run's history.
ghost use Rattle.std.specs.Prelude.{◌≡◌, IfOk, Some};
ghost use Rattle.run_watch.specs.Looks.{AreLooksAt};

use coordination::Pass;
use history_views::{Extent, View};
use std::alloc::{AllocError, Global};
use std::marker::Model;

/// A look: what was shown once the unit was closed.
#[derive(Clone, Copy, PartialEq, Eq)]
pub(crate) struct Look {
    pub unit: u32,
    pub shown: Extent,
}

/// A view, and what it showed after each item that its worker closed. Contracts see the ledger that shows it.
#[derive(Drop)]
pub struct Watcher {
    view: View,
    looks: Vec<Look>,
}

impl Model for Watcher {
    ghost use Rattle.std.specs.Prelude.{All};
    ghost use Rattle.logbook.specs.Pages.{Book};
    ghost use Rattle.history_views.specs.Growing.{last_book};
    ghost use Rattle.run_watch.specs.Looks.{WasSeenIn};

    ghost Value = { Book };

    ghost view = { λ w. w.view.ledger };

    ghost invariant = { λ w. All (WasSeenIn (last_book w.view.log)) w.looks.items };
}

impl Watcher {
    /// A watcher with room for so many looks. It fails for want of memory.
    pub fn new(alloc: Global, view: View, looks: u32) -> Result<Watcher, AllocError>
        ensures { IfOk result (λ w. w ≡ view.ledger) }
    {
        Ok(Watcher {
            view,
            looks: Vec::with_capacity(alloc, looks as usize)?,
        })
    }

    /// Learns from the pass, looks, and notes what is shown, where there is room for it.
    pub fn note(&mut self, pass: &Pass, unit: u32)
        requires { pass.now.service.ledger ≡ Some self.old }
        ensures { self.new ≡ self.old }
    {
        pass.teach(&mut self.view);
        let shown = self.view.look();
        if self.looks.len() < self.looks.capacity() {
            self.looks.push_reserved(Look { unit, shown });
        }
    }

    /// Learns from the pass, looks once more, and gives what is shown then, and all that was noted.
    pub(crate) fn end(self, pass: &Pass) -> (Extent, Vec<Look>)
        requires { pass.now.service.ledger ≡ Some self }
        ensures { AreLooksAt pass.now.sight.seen result.0 result.1.items }
    {
        let Watcher { mut view, looks } = self;
        pass.teach(&mut view);
        (view.look(), looks)
    }
}
