ghost use Rattle.std.specs.Prelude.{ℕ, ◌≡◌, ◌+◌, ◌++◌, All, Bool, List, Option, drop, length};
ghost use Rattle.std.specs.List.{flat_map};
ghost use Rattle.lock_transforms.specs.Entry.{Entry};
ghost use Rattle.lock_journal.specs.Giving.{AreInTurn, IsCutFrom, joined};
ghost use Rattle.lock_journal.specs.SegmentView.{SegmentView};
ghost use Rattle.history_text.specs.Text.{end_text, entry_text, head_text, history_text, numbered, segment_lines};

/// The head, the lines of segments that begin where the one before ends, the lines of the entries behind them and the end are the text of the
/// whole history.
pub fn segments_are_one_text()
    ensures lines { (h : List Entry) (ss : List SegmentView) → AreInTurn 0 ss → All (IsCutFrom h) ss
        → flat_map segment_lines ss ++ numbered entry_text (length (joined ss) + 1) (drop (length (joined ss)) h) ≡ numbered entry_text 1 h }
    ensures text { (workers max_leases : ℕ) (parallel : Bool) (locks : Option ℕ) (h : List Entry) (ss : List SegmentView) → AreInTurn 0 ss
        → All (IsCutFrom h) ss → head_text workers max_leases parallel locks ++ flat_map segment_lines ss
        ++ numbered entry_text (length (joined ss) + 1) (drop (length (joined ss)) h) ++ end_text (length h)
        ≡ history_text workers max_leases parallel locks h }
{}
