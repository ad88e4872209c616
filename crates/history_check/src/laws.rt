ghost use Rattle.std.specs.Prelude.{ℕ, ◌≡◌, ◌<◌, ◌≤◌, ◌↔◌, Bool, List, ◌++◌, length, take, Option, Some};
ghost use Rattle.std.specs.Io.KnownBytes.{Consumes};
ghost use Rattle.lock_journal.specs.PlainPlans.{NameLocksBelow, WasLawful};
ghost use Rattle.lock_transforms.specs.Allowed.{Lawful};
ghost use Rattle.lock_transforms.specs.Entry.{Entry};
ghost use Rattle.plan_reader.specs.Graph.{graph_of};
ghost use Rattle.plan_reader.specs.PlanView.{PlanView};
ghost use Rattle.history_text.specs.HistoryView.{HistoryView};
ghost use Rattle.history_text.specs.Lines.{IsLine, IsWrongAfter};
ghost use Rattle.history_text.specs.Grammar.{HistoryFits, lines_of};
ghost use Rattle.history_check.specs.declared.checks.Checked.{Checked};
ghost use Rattle.history_check.specs.declared.inputs.TheConstants.{MAX_INPUT_BYTES};
ghost use Rattle.history_check.specs.declared.lines.TheConstants.{MAX_PIECE};
ghost use Rattle.history_check.specs.Checking.{IsAnswer, IsJustDecided, all_given};
ghost use Rattle.history_check.specs.Naming.{ArePassedOver};
ghost use Rattle.history_check.specs.PlainPlans.{IsPlain, graph_before};

use lock_journal::plain_histories_are_lawful_as_without_all_projects;

/// Of the bytes that may be taken of an input there is one answer at most for a plan.
pub fn an_input_has_one_answer()
    ensures { (p : PlanView) (all came more came' more' : List ℕ) (a b : Checked) → all ≡ came ++ more → all ≡ came' ++ more'
        → IsAnswer p came all a → IsAnswer p came' all b → a ≡ b }
{}

/// The bytes that may be taken of an input whose bytes are known are its first `MAX_INPUT_BYTES`.
pub fn the_first_bytes_may_be_taken()
    ensures { (input came : List ℕ) (left : Option (List ℕ)) → Consumes (Some input) left came → length came ≤ MAX_INPUT_BYTES
        → all_given came left ≡ take MAX_INPUT_BYTES input }
{}

/// Where a line of a history is wrong, fewer than `MAX_PIECE` bytes are taken behind it.
pub fn little_is_taken_behind_a_wrong_line()
    ensures { (h : HistoryView) (passed line more : List ℕ) → ArePassedOver passed → HistoryFits h → IsLine line → IsWrongAfter h line
        → IsJustDecided (passed ++ lines_of h ++ line ++ more) → length more < MAX_PIECE }
{}

/// For a plan in which no task asks for all projects, entries that name no lock but the projects' are lawful exactly where they were
/// before there was an all-projects lock: by the graph that has none, in which a lock is kept by its owner alone.
pub fn plain_plans_are_checked_as_before()
    ensures { (p : PlanView) (workers max_leases : ℕ) (parallel : Bool) (es : List Entry) → IsPlain p
        → NameLocksBelow (graph_before p workers max_leases parallel).locks es
        → Lawful (graph_of p workers max_leases parallel) es ↔ WasLawful (graph_before p workers max_leases parallel) es }
{
    plain_histories_are_lawful_as_without_all_projects();
}
