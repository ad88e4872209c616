//! The kinds of actions.
ghost use Rattle.std.specs.Prelude.{◌≡◌};
ghost use Rattle.item_actions.specs.Words.{kind_of_action, action_word, action_kind_of};

use crate::actions::ItemAction;

/// Which of the six actions it is, without the needle that one of them searches for.
#[derive(Clone, Copy)]
pub enum ActionKind {
    Lines,
    Words,
    Bytes,
    Longest,
    Count,
    Sha256,
}

impl ActionKind {
    /// Every kind of action, once.
    pub const ALL: [ActionKind; 6] = [
        ActionKind::Lines,
        ActionKind::Words,
        ActionKind::Bytes,
        ActionKind::Longest,
        ActionKind::Count,
        ActionKind::Sha256,
    ];

    /// The word by which plans ask for it, and by which results name it.
    pub fn word(self) -> &'static str
        ensures { result.now ≡ action_word self }
    {
        match self {
            ActionKind::Lines => "lines",
            ActionKind::Words => "words",
            ActionKind::Bytes => "bytes",
            ActionKind::Longest => "longest",
            ActionKind::Count => "count",
            ActionKind::Sha256 => "sha256",
        }
    }

    /// The kind whose word this is, if there is one.
    pub fn of_word(word: &str) -> Option<ActionKind>
        ensures { result ≡ action_kind_of word.now }
    {
        for kind in &ActionKind::ALL {
            if kind.word() == word {
                return Some(*kind);
            }
        }
        None
    }
}

impl ItemAction {
    /// Which of the six it is.
    pub fn kind(&self) -> ActionKind
        ensures { result ≡ kind_of_action self.now }
    {
        match self {
            ItemAction::Lines => ActionKind::Lines,
            ItemAction::Words => ActionKind::Words,
            ItemAction::Bytes => ActionKind::Bytes,
            ItemAction::Longest => ActionKind::Longest,
            ItemAction::Count(_) => ActionKind::Count,
            ItemAction::Sha256 => ActionKind::Sha256,
        }
    }
}
