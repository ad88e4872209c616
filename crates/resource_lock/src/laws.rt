//! Laws of words, and of locks that conflict.
ghost use Rattle.std.specs.Prelude.{◌≡◌, ◌↔◌, ℕ, List, Some, true};
ghost use Rattle.resource_lock.specs.Conflicts.{IsKeptFrom, IsTaken};
ghost use Rattle.resource_lock.specs.StateView.{StateView, is_taken, kept_from};
ghost use Rattle.resource_lock.specs.declared.ids.LockId.{LockId};
ghost use Rattle.resource_lock.specs.declared.ids.WorkerId.{WorkerId};
ghost use Rattle.resource_lock.specs.Words.{retention_word, retention_of};
ghost use Rattle.resource_lock.specs.declared.graphs.Retention.{Retention};

/// Each retention is read by its own word, and by no other.
pub fn retentions_have_words_of_their_own()
    ensures read { (retention : Retention) → retention_of (retention_word retention) ≡ Some retention }
    ensures spelled { (word : List ℕ) (retention : Retention) → retention_of word ≡ Some retention → retention_word retention ≡ word }
{}

/// A worker is kept from a lock exactly where another worker owns a lock that conflicts with it, and a
/// lock is taken exactly where somebody owns one.
pub fn owners_of_conflicting_locks_keep_others_from_them()
    ensures kept { (s : StateView) (w : WorkerId) (l : LockId) → (kept_from s w l ≡ true) ↔ IsKeptFrom s w l }
    ensures taken { (s : StateView) (l : LockId) → (is_taken s l ≡ true) ↔ IsTaken s l }
{}
