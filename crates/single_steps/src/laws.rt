ghost use Rattle.std.specs.List.{list_any};
ghost use Rattle.std.specs.Prelude.{◌≡◌, ◌<◌, Bool, Some, false, length, true, ℕ};
ghost use Rattle.resource_lock.specs.Fits.{Fits};
ghost use Rattle.resource_lock.specs.GraphView.{action_of};
ghost use Rattle.resource_lock.specs.Ranges.{lock_with};
ghost use Rattle.resource_lock.specs.declared.graphs.Retention.{Retention};
ghost use Rattle.resource_lock.specs.declared.ids.LockId.{LockId};
ghost use Rattle.lock_journal.specs.BookView.{BookView};
ghost use Rattle.lock_journal.specs.Own.{is_unit};
ghost use Rattle.lock_transforms.specs.Table.{condition, is_enabled};
ghost use Rattle.lock_transforms.specs.declared.entries.Kind.TheVariants as kinds;
ghost use Rattle.worker_notes.specs.Agrees.{Finds};
ghost use Rattle.coordination.specs.Decisions.{HasFailedIn, IsToWaitIn};
ghost use Rattle.coordination.specs.Holds.{HoldsNothing};
ghost use Rattle.worker_notes.specs.Offered.{AreTold, AsTold};
ghost use Rattle.coordination.specs.Shown.{ShowsTheSame, claimed_shown, lease_shown};
ghost use Rattle.coordination.specs.declared.rule.Sight.{Sight};
ghost use Rattle.async_tracker.specs.NextWork.{IsNextParkedWorkIf, IsNextWorkIf, step_of_next, step_of_parked};
ghost use Rattle.async_tracker.specs.ParkedView.{ParkedView};
ghost use Rattle.async_tracker.specs.Shows.{HasReleased, IsFree, IsIdleOrParked, IsParkedBy, OwnsToPark, ShowsClaimed, ShowsClosed, WorksOn};
ghost use Rattle.async_tracker.specs.WorkSteps.{FailsAt, IsRefused, RetriesAt, kind_of_work};
ghost use Rattle.async_tracker.specs.declared.next_work.NextWork.TheVariants as next;
ghost use Rattle.async_tracker.specs.declared.next_work.ParkedWork.TheVariants as parked;
ghost use Rattle.single_steps.specs.TaskMoves.{IsNextInTask};
ghost use Rattle.single_steps.specs.Tasks.{CannotSkip};
ghost use Rattle.single_steps.specs.declared.task_moves.TaskMove.TheVariants as moves;

use coordination::Offers;

/// After an item was claimed and closed the pass shows what it showed before. So a worker that waits
/// for an action can claim the next item, or resume.
pub fn closing_undoes_claiming()
    ensures same { (u : ℕ) (a b c : Sight) → lease_shown a ≡ false → ShowsClaimed u a b → ShowsClosed u b c → ShowsTheSame a c }
    ensures free { (a c : Sight) → ShowsTheSame a c → IsFree a → IsFree c }
    ensures parked { (a c : Sight) (p : ParkedView) → ShowsTheSame a c → IsParkedBy a p → IsParkedBy c p }
    ensures waits { (a c : Sight) → ShowsTheSame a c → IsIdleOrParked a → IsIdleOrParked c }
    ensures released { (r : Retention) (l : LockId) (a c : Sight) → ShowsTheSame a c → HasReleased r l a → HasReleased r l c }
{}

/// What `next_of_task` says that a worker with a lease does next in its task it can do at once, in the book that it was said of: it is
/// neither disabled nor waits. To queue items the worker runs no unit, and to wait for them it owns the lock that it parks. Of the task's
/// end, where it runs no unit either, this says that its condition holds: each action has passed, or never ran behind a unit that failed.
pub fn next_moves_are_possible()
    ensures fetch { (old : Sight) (book : BookView) (t u : ℕ) → Fits book.graph → Finds old.worker old.seen book → WorksOn old t
        → IsNextInTask book.graph old.worker book.state t (moves.Fetch u) → is_enabled book.graph book.state old.worker (kinds.Block (Some u)) ≡ true }
    ensures submit { (old : Sight) (book : BookView) (t a : ℕ) → Fits book.graph → Finds old.worker old.seen book → WorksOn old t
        → list_any is_unit (claimed_shown old) ≡ false → IsNextInTask book.graph old.worker book.state t (moves.Submit a)
        → is_enabled book.graph book.state old.worker (kinds.Submit a) ≡ true }
    ensures park { (old : Sight) (book : BookView) (t a : ℕ) → Fits book.graph → Finds old.worker old.seen book → WorksOn old t
        → OwnsToPark (action_of old.seen.graph a).retention (lock_with old.seen.graph a) old
        → IsNextInTask book.graph old.worker book.state t (moves.Park a) → is_enabled book.graph book.state old.worker (kinds.Park a) ≡ true }
    ensures end { (old : Sight) (book : BookView) (t : ℕ) → Fits book.graph → Finds old.worker old.seen book → WorksOn old t
        → list_any is_unit (claimed_shown old) ≡ false → IsNextInTask book.graph old.worker book.state t moves.End
        → condition book.graph book.state old.worker (kinds.End t) ≡ true }
{}

/// What `TakeNextWork` and `TakeParkedWork` decide is done in the book that it was decided of, whatever is offered: a claim, a start and a
/// worker's going on neither fail nor wait. A skip doesn't wait either, and fails only where one of the task's marks can't be skipped.
pub fn next_work_is_possible<O: Offers>()
    ensures claim { (old new : Sight) (u : ℕ) → Fits old.seen.graph → HoldsNothing old
        → IsRefused (AsTold (AreTold O.tells) IsNextWorkIf) step_of_next (next.Claim u) old new → ⊥ }
    ensures start { (old new : Sight) (t : ℕ) → HoldsNothing old
        → IsRefused (AsTold (AreTold O.tells) IsNextWorkIf) step_of_next (next.Start t) old new → ⊥ }
    ensures skip { (old new : Sight) (t : ℕ) → IsToWaitIn (AsTold (AreTold O.tells) IsNextWorkIf) step_of_next RetriesAt old new (next.Skip t) → ⊥ }
    ensures skip_fails { (old new : Sight) (t : ℕ) → HoldsNothing old
        → (f : HasFailedIn (AsTold (AreTold O.tells) IsNextWorkIf) step_of_next kind_of_work FailsAt old new (next.Skip t))
        → CannotSkip t f.failed.before.graph old.worker f.failed.before.state }
    ensures parked_claim { (p : ParkedView) (old new : Sight) (u : ℕ) → Fits old.seen.graph
        → p.action < length old.seen.graph.actions → IsFree old → IsIdleOrParked old
        → IsRefused (AsTold (AreTold O.tells) (IsNextParkedWorkIf p.action)) (step_of_parked p.action) (parked.Claim u) old new → ⊥ }
    ensures resume { (p : ParkedView) (old new : Sight) (failed : Bool) → p.action < length old.seen.graph.actions
        → IsParkedBy old p → IsFree old
        → IsRefused (AsTold (AreTold O.tells) (IsNextParkedWorkIf p.action)) (step_of_parked p.action) (parked.Resume failed) old new → ⊥ }
{}
