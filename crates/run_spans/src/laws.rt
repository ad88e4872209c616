//! What the spans of every history tell.
ghost use Rattle.std.specs.Prelude.{ℕ, ◌≡◌, ◌+◌, ◌<◌, ◌≤◌, List, Some, length, slice_index_or};
ghost use Rattle.resource_lock.specs.Fits.{Fits};
ghost use Rattle.resource_lock.specs.GraphView.{GraphView};
ghost use Rattle.resource_lock.specs.StateView.{leases_out};
ghost use Rattle.resource_lock.specs.declared.ids.WorkerId.{WorkerId};
ghost use Rattle.lock_transforms.specs.Allowed.{Lawful};
ghost use Rattle.lock_transforms.specs.Entry.{Entry, prefix_state};
ghost use Rattle.history_text.specs.Fitting.{EntriesFit};
ghost use Rattle.run_spans.specs.Covering.{Covered, holder_after};
ghost use Rattle.run_spans.specs.Levels.{levels_of, nothing_out, units_queued};
ghost use Rattle.run_spans.specs.Spans.{spans_of};
ghost use Rattle.run_spans.specs.Standing.{IsShort, holder_in};
ghost use Rattle.run_spans.specs.Subjects.{key_of};
ghost use Rattle.run_spans.specs.declared.subjects.Subject.{Subject};

/// After each entry, a span that tells of a subject and a worker covers it exactly where the changes up to it say
/// that the subject holds for the worker: the worker has a lease, is blocked, owns or has parked the lock, runs the
/// task or the unit, or waits for the action.
pub fn spans_cover_what_holds()
    ensures covered { (es : List Entry) (k q : ℕ) (w : WorkerId) → k ≤ length es → Covered q w k (spans_of es) → holder_after es k q ≡ Some w }
    ensures holds { (es : List Entry) (k q : ℕ) (w : WorkerId) → k ≤ length es → holder_after es k q ≡ Some w → Covered q w k (spans_of es) }
{}

/// For every graph that makes a history lawful, a span covers an entry exactly where the state after the entry has
/// what it tells: the lease, the owner or the worker that has parked the lock, the mark that is Running by a worker.
pub fn spans_are_those_of_the_states()
    ensures covered { (g : GraphView) (h : List Entry) (k : ℕ) (s : Subject) (w : WorkerId) → EntriesFit h → Lawful g h → IsShort s → k ≤ length h
        → Covered (key_of s) w k (spans_of h) → holder_in (prefix_state g h k) s ≡ Some w }
    ensures holds { (g : GraphView) (h : List Entry) (k : ℕ) (s : Subject) (w : WorkerId) → EntriesFit h → Lawful g h → IsShort s → k ≤ length h
        → holder_in (prefix_state g h k) s ≡ Some w → Covered (key_of s) w k (spans_of h) }
    // Each subject has a key of its own.
    ensures own_key { (s t : Subject) → IsShort s → IsShort t → key_of s ≡ key_of t → s ≡ t }
{}

/// For every graph that makes a history lawful, the leases that are counted out after an entry are those of the state
/// after it.
pub fn levels_count_the_leases()
    ensures { (g : GraphView) (h : List Entry) (k : ℕ) → Fits g → Lawful g h → k < length h
        → (slice_index_or (levels_of nothing_out h) k nothing_out).out ≡ leases_out (prefix_state g h (k + 1)) }
{}

/// For every graph that makes a history lawful, the units that are counted queued after an entry are those of the state
/// after it.
pub fn levels_count_the_queued_units()
    ensures { (g : GraphView) (h : List Entry) (k : ℕ) → Fits g → Lawful g h → k < length h
        → (slice_index_or (levels_of nothing_out h) k nothing_out).queued ≡ units_queued (prefix_state g h (k + 1)) }
{}
