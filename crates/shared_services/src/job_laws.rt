ghost use Rattle.std.specs.Prelude.{◌≡◌, List, [], ℕ};
ghost use Rattle.resource_lock.specs.Opening.{opening_of};
ghost use Rattle.coordination.specs.Holds.{HoldsNothing};
ghost use Rattle.coordination.specs.declared.rule.Sight.{Sight};
ghost use Rattle.shared_services.specs.Takings.{HasTheLocks};
ghost use Rattle.shared_services.specs.Worked.{CanRun};

/// A pass of a service that was just opened, on a book without entries and the locks of the services, can run jobs.
pub fn fresh_passes_can_run()
    ensures { (maxima : List ℕ) (s : Sight) → HasTheLocks maxima s.seen.graph → HoldsNothing s → s.seen.history ≡ []
        → s.seen.state ≡ opening_of s.seen.graph → CanRun maxima s }
{}
