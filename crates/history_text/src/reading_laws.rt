ghost use Rattle.std.specs.Prelude.{ℕ, ◌≡◌, ◌≢◌, ◌++◌, List, [], Result};
ghost use Rattle.history_text.specs.declared.fails.TextFail.{TextFail};
ghost use Rattle.history_text.specs.declared.heads.Version.{Version};
ghost use Rattle.history_text.specs.declared.read_histories.History.{History};
ghost use Rattle.history_text.specs.HistoryView.{HistoryView};
ghost use Rattle.history_text.specs.Lines.{IsLineBefore, IsNoFirst, IsWrongAfter, OpensNone, first_line, next_number};
ghost use Rattle.history_text.specs.Grammar.{HistoryFits, IsHistoryText, IsReadFrom, GivesBack, StopsAt, lines_of, text_of};

/// The grammar: each value of the stated form has exactly one text, and each text has at most one value.
pub fn each_value_has_one_text()
    ensures text { (h : HistoryView) → HistoryFits h → IsHistoryText (text_of h) h }
    ensures one_text { (s t : List ℕ) (h : HistoryView) → IsHistoryText s h → IsHistoryText t h → s ≡ t }
    ensures one_value { (text : List ℕ) (h k : HistoryView) → IsHistoryText text h → IsHistoryText text k → h ≡ k }
{}

/// Where the text of a value is read, the answer is that value or NoMemory.
pub fn written_histories_are_read_back()
    ensures { (text : List ℕ) (h : HistoryView) (result : Result History TextFail) → IsHistoryText text h → IsReadFrom text result → GivesBack h result }
{}

/// A text that stops being a history stops at one place, and isn't one.
pub fn texts_stop_at_one_place()
    ensures one_place { (text : List ℕ) (m n : ℕ) → StopsAt text m → StopsAt text n → m ≡ n }
    ensures no_history { (text : List ℕ) (n : ℕ) (h : HistoryView) → StopsAt text n → IsHistoryText text h → ⊥ }
{}

/// What a line says of a text whose lines before it are known, whatever is behind the line.
pub fn a_line_more()
    ensures first { (line more : List ℕ) → IsLineBefore line more → IsNoFirst line → StopsAt (line ++ more) 0 }
    ensures second { (v : Version) (line more : List ℕ) → IsLineBefore line more → OpensNone v line → StopsAt (first_line v ++ (line ++ more)) 0 }
    ensures wrong { (h : HistoryView) (line more : List ℕ) → HistoryFits h → IsLineBefore line more → IsWrongAfter h line
        → StopsAt (lines_of h ++ (line ++ more)) (next_number h) }
    ensures behind { (h : HistoryView) (more : List ℕ) → HistoryFits h → more ≢ [] → StopsAt (text_of h ++ more) (next_number h) }
{}
