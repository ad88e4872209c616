//! Laws of the values of two actions, and of words.
ghost use Rattle.std.specs.Prelude.{◌≡◌, ◌+◌, ◌-◌, ◌<◌, ◌≤◌, ℕ, List, length, drop, Some};
ghost use Rattle.memchr.specs.Find.{OccursAt};
ghost use Rattle.item_actions.specs.Bytes.{longest, occurrences};
ghost use Rattle.item_actions.specs.Pieces.{HasNoLineEnd, IsPiece};
ghost use Rattle.item_actions.specs.Words.{action_word, action_kind_of, outcome_word, outcome_kind_of, keep_alive_word, keep_alive_mode_of};
ghost use Rattle.item_actions.specs.declared.action_kinds.ActionKind.{ActionKind};
ghost use Rattle.item_actions.specs.declared.keep_alive.KeepAlive.{KeepAlive};
ghost use Rattle.item_actions.specs.declared.outcome_kinds.OutcomeKind.{OutcomeKind};

/// The greatest length is that of one of the pieces between line ends, and no run of bytes without a line end is longer.
pub fn longest_is_the_greatest_piece()
    ensures one_of_them { (bytes : List ℕ) → (i : ℕ) × (j : ℕ) × IsPiece bytes i j × (longest bytes ≡ j - i) }
    ensures none_longer { (bytes : List ℕ) (i j : ℕ) → HasNoLineEnd bytes i j → j - i ≤ longest bytes }
{}

/// A needle that stands nowhere is counted 0 times. Else it is counted once, at the first place where it stands, and
/// as often as in what follows behind it there, so that no two that are counted overlap.
pub fn counting_goes_on_behind_the_first()
    ensures nowhere { (needle bytes : List ℕ) → ((k : ℕ) → ¬ OccursAt bytes needle k) → occurrences needle bytes ≡ 0 }
    ensures first { (needle bytes : List ℕ) (k : ℕ) → 1 ≤ length needle → OccursAt bytes needle k → ((i : ℕ) → i < k → ¬ OccursAt bytes needle i)
        → occurrences needle bytes ≡ 1 + occurrences needle (drop (k + length needle) bytes) }
{}

/// Each kind of action is read by its own word, and by no other.
pub fn actions_have_words_of_their_own()
    ensures read { (kind : ActionKind) → action_kind_of (action_word kind) ≡ Some kind }
    ensures spelled { (word : List ℕ) (kind : ActionKind) → action_kind_of word ≡ Some kind → action_word kind ≡ word }
{}

/// Each kind of outcome is read by its own word, and by no other.
pub fn outcomes_have_words_of_their_own()
    ensures read { (kind : OutcomeKind) → outcome_kind_of (outcome_word kind) ≡ Some kind }
    ensures spelled { (word : List ℕ) (kind : OutcomeKind) → outcome_kind_of word ≡ Some kind → outcome_word kind ≡ word }
{}

/// Each keep-alive mode is read by its own word, and by no other.
pub fn keep_alive_modes_have_words_of_their_own()
    ensures read { (mode : KeepAlive) → keep_alive_mode_of (keep_alive_word mode) ≡ Some mode }
    ensures spelled { (word : List ℕ) (mode : KeepAlive) → keep_alive_mode_of word ≡ Some mode → keep_alive_word mode ≡ word }
{}
