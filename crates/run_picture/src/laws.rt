//! What a picture tells of its history.
ghost use Rattle.std.specs.Prelude.{ℕ, ◌≡◌, ◌≤◌, ◌<◌, ◌^◌, true, All};
ghost use Rattle.std.specs.List.{flat_map};
ghost use Rattle.history_text.specs.Text.{numbered};
ghost use Rattle.history_text.specs.Fitting.{EntriesFit};
ghost use Rattle.history_text.specs.Grammar.{HistoryFits};
ghost use Rattle.history_text.specs.HistoryView.{HistoryView};
ghost use Rattle.resource_lock.specs.Fits.{Fits};
ghost use Rattle.resource_lock.specs.GraphView.{GraphView};
ghost use Rattle.resource_lock.specs.declared.ids.WorkerId.{WorkerId};
ghost use Rattle.lock_transforms.specs.Allowed.{Lawful};
ghost use Rattle.lock_transforms.specs.Entry.{Entry};
ghost use Rattle.run_picture.specs.Laws.{all_plain, layout_at, HasCurves, Shows};
ghost use Rattle.run_picture.specs.Picture.{panels_in, picture_text, ticks_of, IsDrawable};
ghost use Rattle.run_picture.specs.Ticks.{line_of, marks_of};
ghost use Rattle.picture_layout.specs.declared.layout.Layout.{Layout};

/// The ticks of all panels are one for each entry of the history, in order, each in the panel that shows the entry.
pub fn each_entry_has_one_tick()
    ensures { (h : HistoryView) (other : Layout)
        → flat_map (ticks_of h) (panels_in h) ≡ numbered (λ n e. marks_of (layout_at other (panels_in h) n) n e) 1 h.entries }
{}

/// Each byte of an entry's line stands for itself in XML, so a title is the line, byte for byte.
pub fn lines_stand_for_themselves()
    ensures { (n : ℕ) (e : Entry) → all_plain (line_of n e) ≡ true }
{}

/// For every graph that makes a history lawful, the curves of each panel stand over an entry's column as high as leases are
/// out, and units queued, in the state after the entry.
pub fn curves_show_the_states()
    ensures { (g : GraphView) (h : HistoryView) → Fits g → Lawful g h.entries → IsDrawable h → All (HasCurves g h) (panels_in h) }
{}

/// For every graph that makes a history lawful, each panel shows over an entry's column what holds in the state after the entry:
/// leases, who is blocked or parked, and the locks with a row that are owned or parked, each by a bar of its own kind.
pub fn bars_show_the_states()
    ensures { (g : GraphView) (h : HistoryView) → EntriesFit h.entries → Lawful g h.entries
        → All (λ p. (k : ℕ) (w : WorkerId) → w.0 < 2 ^ 32 → p.layout.first ≤ k → k < p.layout.behind → Shows g h p k w) (panels_in h) }
{}

/// Two histories never give one picture.
pub fn a_picture_has_one_history()
    ensures { (h k : HistoryView) → HistoryFits h → HistoryFits k → picture_text h ≡ picture_text k → h ≡ k }
{}
