//! What a worker has beside its pass and its desk.
ghost use Rattle.std.specs.Prelude.{◌≡◌, IfSome, Some, is_some};

use coordination::Pass;
use run_watch::Watcher;

/// What a worker has beside its pass and its desk.
#[derive(Drop)]
pub struct Kit {
    /// What it looks with, where the run is watched.
    pub watcher: Option<Watcher>,
}

impl Kit {
    /// Looks, having learnt from the pass that has closed the unit, and notes what is seen, where the run is watched.
    pub fn watch(&mut self, pass: &Pass, unit: u32)
        requires { IfSome self.old.watcher (λ w. pass.now.service.ledger ≡ Some w) }
        ensures watcher { self.new.watcher ≡ self.old.watcher }
    {
        if let Some(watcher) = &mut self.watcher {
            watcher.note(pass, unit);
        }
    }

    /// Whether the run is watched.
    pub fn is_watched(&self) -> bool
        ensures { result ≡ is_some self.now.watcher }
    {
        self.watcher.is_some()
    }

    /// What it looks with.
    pub fn into_watcher(self) -> Option<Watcher>
        ensures { result ≡ self.watcher }
    {
        let Kit { watcher } = self;
        watcher
    }
}
