//! Ranks of tasks: a task has one where each task that it comes after has one, so none on a cycle has.
ghost use Rattle.std.specs.Prelude.{None, Option, ◌≡◌, ℕ};
ghost use Rattle.ready_work.specs.Numbering.{IsNumbering};
ghost use Rattle.ready_work.specs.Rank.{Dependencies, InRange, IsFirstCycle};

/// There is one first task without a rank at most.
pub fn first_cycle_is_unique()
    ensures { (d : Dependencies) (a b : Option ℕ) → IsFirstCycle d a → IsFirstCycle d b → a ≡ b }
{}

/// Where each task has a rank, the tasks can be numbered so that each stands behind those that it comes after.
pub fn ranks_give_a_numbering()
    ensures { (d : Dependencies) → InRange d → IsFirstCycle d None → (number : ℕ → ℕ) × IsNumbering d number }
{}
