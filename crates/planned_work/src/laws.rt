//! What a worker of a plan has at its place, and what it is never told.
ghost use Rattle.std.specs.List.{list_any};
ghost use Rattle.std.specs.Prelude.{◌≡◌, Bool, List, Option, Some, false, true, ℕ};
ghost use Rattle.resource_lock.specs.Fits.{Fits};
ghost use Rattle.resource_lock.specs.GraphView.{GraphView, action_of};
ghost use Rattle.resource_lock.specs.Ranges.{lock_with};
ghost use Rattle.resource_lock.specs.declared.ids.WorkerId.{WorkerId};
ghost use Rattle.lock_transforms.specs.Allowed.{Lawful};
ghost use Rattle.lock_transforms.specs.Entry.{Entry, replay};
ghost use Rattle.lock_journal.specs.Own.{is_unit};
ghost use Rattle.coordination.specs.Decisions.{IsToWaitIn};
ghost use Rattle.coordination.specs.Holds.{HoldsNothing};
ghost use Rattle.coordination.specs.Shown.{claimed_shown};
ghost use Rattle.coordination.specs.declared.rule.Sight.{Sight};
ghost use Rattle.async_tracker.specs.NextWork.{step_of_next, step_of_parked};
ghost use Rattle.async_tracker.specs.ParkedView.{ParkedView};
ghost use Rattle.async_tracker.specs.Shows.{IsFree, IsIdleOrParked, IsParkedBy, OwnsToPark, WorksOn};
ghost use Rattle.async_tracker.specs.WorkSteps.{IsRefused, RetriesAt};
ghost use Rattle.async_tracker.specs.declared.next_work.NextWork.TheVariants as next;
ghost use Rattle.async_tracker.specs.declared.next_work.ParkedWork.TheVariants as parked;
ghost use Rattle.single_steps.specs.TaskMoves.{step_of_move};
ghost use Rattle.single_steps.specs.declared.task_moves.TaskMove.TheVariants as moves;
ghost use Rattle.planned_work.specs.Done.{DoneLeaves, DoneNextLeaves, TakeUpLeaves, closed_as};
ghost use Rattle.planned_work.specs.InPlace.{IsInPlace, ReleasesLast};
ghost use Rattle.planned_work.specs.Next.{IsIdleChoice, IsMove, IsParkedChoice, NextLeaves};
ghost use Rattle.planned_work.specs.Places.{may_enter, place_of};
ghost use Rattle.planned_work.specs.Sections.{EnterLeaves, LeaveLeaves};
ghost use Rattle.planned_work.specs.declared.answers.Answer.TheVariants as answers;
ghost use Rattle.planned_work.specs.declared.answers.Next.TheVariants as nexts;
ghost use Rattle.planned_work.specs.declared.places.Place.TheVariants as places;

/// Where a worker may enter a section, leave one or close a fetch, its entry is never refused: `Stuck` is no answer of these calls.
pub fn sections_are_never_stuck()
    ensures enter { (old new : Sight) → may_enter old ≡ true → EnterLeaves old new answers.Stuck → ⊥ }
    ensures leave { (old new : Sight) → place_of old ≡ places.Section → LeaveLeaves old new answers.Stuck → ⊥ }
    ensures fetch { (old new : Sight) (u : ℕ) (gave : Option ℕ) → place_of old ≡ places.Fetch u → TakeUpLeaves (Some (closed_as u gave)) old new answers.Stuck → ⊥ }
{}

/// What the rules give next is done at once, in the very book of which they gave it: `Stuck` doesn't come of these choices. A worker that
/// holds nothing or waits for items claims the item, and one that holds nothing starts the task; its skip doesn't wait. A parked worker
/// goes on. In its task, with a lease, a worker begins the fetch, queues the items, and begins to wait for them.
pub fn choices_are_never_refused()
    ensures claim { (old new : Sight) (u : ℕ) → Fits old.seen.graph → IsFree old → IsIdleOrParked old
        → IsRefused IsIdleChoice step_of_next (next.Claim u) old new → ⊥ }
    ensures parked_claim { (old new : Sight) (a u : ℕ) → Fits old.seen.graph → IsFree old → IsIdleOrParked old
        → IsRefused (IsParkedChoice a) (step_of_parked a) (parked.Claim u) old new → ⊥ }
    ensures start { (old new : Sight) (t : ℕ) → HoldsNothing old → IsRefused IsIdleChoice step_of_next (next.Start t) old new → ⊥ }
    ensures skip { (old new : Sight) (t : ℕ) → IsToWaitIn IsIdleChoice step_of_next RetriesAt old new (next.Skip t) → ⊥ }
    ensures resume { (old new : Sight) (p : ParkedView) (failed : Bool) → IsParkedBy old p → IsFree old
        → IsRefused (IsParkedChoice p.action) (step_of_parked p.action) (parked.Resume failed) old new → ⊥ }
    ensures fetch { (old new : Sight) (t u : ℕ) → Fits old.seen.graph → WorksOn old t
        → IsRefused (IsMove t) (step_of_move t) (moves.Fetch u) old new → ⊥ }
    ensures submit { (old new : Sight) (t a : ℕ) → Fits old.seen.graph → WorksOn old t → list_any is_unit (claimed_shown old) ≡ false
        → IsRefused (IsMove t) (step_of_move t) (moves.Submit a) old new → ⊥ }
    ensures park { (old new : Sight) (t a : ℕ) → Fits old.seen.graph → WorksOn old t
        → OwnsToPark (action_of old.seen.graph a).retention (lock_with old.seen.graph a) old
        → IsRefused (IsMove t) (step_of_move t) (moves.Park a) old new → ⊥ }
{}

/// After every lawful history a worker has what its place asks for: the lock of the task that it runs, and a lease where it neither waits
/// for items nor is blocked, unless an action that releases has passed; parked locks only where it waits or is blocked; and for an item a
/// lease.
pub fn workers_are_in_place()
    ensures { (g : GraphView) (h : List Entry) (w : WorkerId) → Fits g → Lawful g h → IsInPlace g (replay g h) w }
{}

/// In a graph that fits, and in which only the last action of a task releases, as in each that is made of a plan, the rules refuse no call of
/// a worker that may make it: `Stuck` is no answer of what a worker does next, nor of the closing of its unit.
pub fn calls_are_never_stuck()
    ensures next { (old new : Sight) → Fits old.seen.graph → ReleasesLast old.seen.graph → NextLeaves old new nexts.Stuck → ⊥ }
    ensures done { (old new : Sight) (gave : Option ℕ) → Fits old.seen.graph → DoneLeaves gave old new answers.Stuck → ⊥ }
    ensures done_next { (old new : Sight) (gave : Option ℕ) → Fits old.seen.graph → DoneNextLeaves gave old new nexts.Stuck → ⊥ }
{}
