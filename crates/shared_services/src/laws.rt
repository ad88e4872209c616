ghost use Rattle.std.specs.Prelude.{List, ◌≤◌, ℕ};
ghost use Rattle.resource_lock.specs.StateView.{StateView};
ghost use Rattle.coordination.specs.Holds.{HoldsNothing};
ghost use Rattle.coordination.specs.Shown.{ShowsTheSame};
ghost use Rattle.coordination.specs.declared.rule.Sight.{Sight};
ghost use Rattle.lease_service.specs.Shows.{ShowsGivenBack};
ghost use Rattle.shared_services.specs.Services.{maximum_of, uses};
ghost use Rattle.shared_services.specs.Shows.{HasTakenUses};

/// A worker that had nothing has nothing again where nothing was taken, and once what it took was given back. So it can take uses
/// again.
pub fn uses_can_be_taken_again()
    ensures kept { (old new : Sight) → HoldsNothing old → ShowsTheSame old new → HoldsNothing new }
    ensures given_back { (maxima asked : List ℕ) (old taken new : Sight) → HoldsNothing old → HasTakenUses maxima asked old taken
        → ShowsGivenBack taken new → HoldsNothing new }
{}

/// In no state does a service have more users than its maximum. So it is after every entry of every history.
pub fn no_service_has_more_users_than_its_maximum()
    ensures { (maxima : List ℕ) (s : StateView) (service : ℕ) → uses maxima s service ≤ maximum_of maxima service }
{}
