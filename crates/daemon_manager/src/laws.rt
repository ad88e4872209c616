ghost use Rattle.std.specs.Prelude.{List, Some, All, ℕ, ◌++◌, ◌∷◌, ◌≡◌, ◌≢◌, ◌⊎◌};
ghost use Rattle.daemon_manager.specs.Events.{DaemonView, IsBusy, IsJustStarted, IsLegal, daemon_of, pool};
ghost use Rattle.daemon_manager.specs.declared.events.Event.TheVariants.{Failed, Released};
ghost use Rattle.daemon_manager.specs.declared.events.Event.{Event};

/// Events about others leave a daemon as it is. So what is reserved stays the pool's own while others use the pool.
pub fn events_about_others_leave_a_daemon_alone()
    ensures { (events more : List Event) (d : ℕ) (daemon : DaemonView) → pool events d ≡ Some daemon
        → All (λ e. daemon_of e ≢ d) more → pool (events ++ more) d ≡ Some daemon }
{}

/// A daemon that works for a unit is neither reserved again nor stopped: the next event about it is its release or its
/// failure, or, where it was just started, its first reservation.
pub fn busy_daemons_are_given_to_nobody_else()
    ensures { (earlier later : List Event) (e : Event) → IsLegal (earlier ++ e ∷ later) → IsBusy earlier (daemon_of e)
        → (e ≡ Released (daemon_of e)) ⊎ ((e ≡ Failed (daemon_of e)) ⊎ IsJustStarted earlier (daemon_of e)) }
{}
