//! A worker of a run.
ghost use Rattle.std.specs.Prelude.{◌≡◌};
ghost use Rattle.coordination.specs.Shown.{lease_shown};

use crate::kits::Kit;
use crate::run_types::RunTypes;
use coordination::Pass;
use daemon_manager::Tally;
use std::marker::Model;

/// A worker of a run.
#[derive(Drop)]
pub struct Worker<T: RunTypes> {
    pub pass: Pass,
    pub desk: T::Desk,
    /// What it did with the daemons.
    pub tally: Tally<T::Reserved, T::Failed>,
    pub kit: Kit,
    /// Whether it saw that all tasks have ended.
    pub ended: bool,
}

impl<T: RunTypes> Model for Worker<T> {
    ghost use Rattle.build_workers.specs.WorkerView.{WorkerView};

    ghost Value = { WorkerView };

    ghost use Rattle.build_workers.specs.Desks.{desk_view};

    ghost view = { λ w. record {
      pass = w.pass;
      desk = desk_view T.Desk.files T.Desk.faults T.Desk.sends T.Desk.sent w.desk;
      tally = w.tally;
      watcher = w.kit.watcher;
      ended = w.ended;
    } };
}

impl<T: RunTypes> Worker<T> {
    /// Says that it comes to the state lock again at once, where it has left something there for others.
    pub fn promise_to_come_again(&mut self)
        ensures { self.new ≡ self.old }
    {
        self.pass.promise_to_come_again();
    }

    /// Whether it looks at the history while it works.
    pub fn is_watched(&self) -> bool {
        self.kit.is_watched()
    }

    /// Whether it has a lease.
    pub fn has_lease(&self) -> bool
        ensures { result ≡ lease_shown self.now.pass.sight }
    {
        self.pass.has_lease()
    }
}
