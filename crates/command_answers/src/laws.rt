//! A law of whole runs.
ghost use Rattle.std.specs.Prelude.{◌≡◌, ℕ, Some};
ghost use Rattle.item_actions.specs.Files.{Folder};
ghost use Rattle.resource_lock.specs.Fits.{Fits};
ghost use Rattle.lock_journal.specs.BookView.{BookView};
ghost use Rattle.plan_reader.specs.PlanView.{PlanView};
ghost use Rattle.build_workers.specs.RunDesks.{known_by};
ghost use Rattle.build_workers.specs.Desks.{DeskView};
ghost use Rattle.build_workers.specs.Run.{IsRunOf};
ghost use Rattle.build_workers.specs.declared.options.RunOptions.{RunOptions};
ghost use Rattle.command_answers.specs.SameResults.{HasNoTrouble, HaveSameResults};

use history_text::results_go_by_number;
use lock_journal::outcomes_go_by_number;

/// The results of a plan are the plan's own: where the files are known and no unit met a fault or want of memory, two runs
/// give the same results, whatever the numbers of threads, the most leases, and whether projects have locks of their own.
pub fn results_are_the_plans_own()
    ensures { (plan : PlanView) (one other : RunOptions) (files : Folder) (before after before' after' : ℕ → DeskView) (b c : BookView)
        → known_by one.workers before ≡ Some files → known_by other.workers before' ≡ Some files
        → IsRunOf plan one before after b → IsRunOf plan other before' after' c
        → Fits b.graph → Fits c.graph → HasNoTrouble b.history → HasNoTrouble c.history
        → HaveSameResults plan b c }
{
    outcomes_go_by_number();
    results_go_by_number();
}
