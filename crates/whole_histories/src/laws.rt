ghost use Rattle.std.specs.Prelude.{ℕ, ◌≡◌, ◌≤◌, List, ◌++◌, length, Some, Ok};
ghost use Rattle.file_access.specs.SourceView.{SourceView};
ghost use Rattle.plan_reader.specs.PlanView.{PlanView};
ghost use Rattle.history_text.specs.HistoryView.{HistoryView};
ghost use Rattle.history_check.specs.CheckView.{CheckView, IsCheckOf};
ghost use Rattle.history_check.specs.declared.checks.Checked.{Checked};
ghost use Rattle.history_check.specs.declared.inputs.TheConstants.{MAX_INPUT_BYTES};
ghost use Rattle.history_check.specs.Checking.{HasChecked};
ghost use Rattle.history_check.specs.Naming.{Names};
ghost use Rattle.history_check.specs.Verdict.{IsAnswerTo, IsVerdict};

/// What `check` answers of a whole history is what a `HistoryCheck` answers of its lines, and what `check_input` answers
/// of an input that begins with its text, whatever follows.
pub fn whole_and_line_by_line_agree()
    ensures lines { (p : PlanView) (h : HistoryView) (c : CheckView) (whole by_line : Checked) → IsAnswerTo p h whole → IsCheckOf p h c
        → IsVerdict c.graph h.locks h.entries by_line → whole ≡ by_line }
    ensures input { (p : PlanView) (h : HistoryView) (bytes more : List ℕ) (old new : SourceView) (whole by_line : Checked)
        → IsAnswerTo p h whole → Names bytes h → length bytes ≤ MAX_INPUT_BYTES → old.left ≡ Some (bytes ++ more)
        → HasChecked p old new (Ok by_line) → whole ≡ by_line }
{}
