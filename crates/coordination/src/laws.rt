ghost use Rattle.std.specs.Prelude.{◌≡◌, ◌<◌, ◌≤◌, ℕ, List, get_or, length, map};
ghost use Rattle.resource_lock.specs.AtRest.{IsAtRest};
ghost use Rattle.resource_lock.specs.Good.{Good};
ghost use Rattle.resource_lock.specs.GraphView.{GraphView};
ghost use Rattle.resource_lock.specs.Opening.{opening_of};
ghost use Rattle.resource_lock.specs.Shape.{BelongsTo};
ghost use Rattle.resource_lock.specs.StateView.{IsWorkerOf};
ghost use Rattle.resource_lock.specs.declared.ids.WorkerId.{WorkerId};
ghost use Rattle.lock_transforms.specs.Allowed.{Lawful};
ghost use Rattle.lock_transforms.specs.Entry.{Entry, replay};
ghost use Rattle.lock_journal.specs.BookView.{BookView};
ghost use Rattle.lock_journal.specs.Own.{NamesWorkers, claimed};
ghost use Rattle.worker_notes.specs.Agrees.{IsSoundBook};
ghost use Rattle.worker_notes.specs.FewMarks.{RunsFew};
ghost use Rattle.coordination.specs.Passes.{PassView};

/// In the state that a run begins in nobody has anything, so a service can be opened with it.
pub fn openings_are_at_rest()
    ensures { (g : GraphView) → IsAtRest (opening_of g) }
{}

/// The state of a sound book, as each call finds one and leaves one, is a good one of its graph. Whoever owns a lock
/// or runs a mark in it is a worker of the graph, and each worker of the graph is one of the state.
pub fn sound_books_have_good_states()
    ensures good { (book : BookView) → IsSoundBook book → Good book.state }
    ensures belongs { (book : BookView) → IsSoundBook book → BelongsTo book.graph book.state }
    ensures workers { (book : BookView) → IsSoundBook book → NamesWorkers book.graph.workers book.state }
    ensures known { (book : BookView) (w : WorkerId) → IsSoundBook book → w.0 < book.graph.workers → IsWorkerOf book.state w }
{}

/// In every lawful history a worker runs at most a task, an action and a unit, so a pass never shows more than three marks.
pub fn workers_run_few_marks()
    ensures each { (g : GraphView) (h : List Entry) (w : WorkerId) → Lawful g h → RunsFew (replay g h) w }
    ensures all { (g : GraphView) (h : List Entry) (w : WorkerId) → Lawful g h → length (claimed (replay g h) w) ≤ 3 }
{}

/// Passes that have, place by place, the workers of others have their numbers. So a service can be finished with the passes that
/// threads have used.
pub fn used_passes_have_their_numbers()
    ensures { (old new : List PassView) → length new ≡ length old
        → ((i : ℕ) (p : PassView) → i < length old → (get_or new i p).sight.worker ≡ (get_or old i p).sight.worker)
        → map (λ p. p.sight.worker.0) new ≡ map (λ p. p.sight.worker.0) old }
{}
