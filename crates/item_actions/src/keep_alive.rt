//! How long a daemon is kept. It stands below requirements and frames, which both have it.
ghost use Rattle.std.specs.Prelude.{◌≡◌};
ghost use Rattle.item_actions.specs.Words.{keep_alive_word, keep_alive_mode_of};

/// A daemon's keep-alive mode. It serves for matching, and is told to the child; nothing else rests on it.
#[derive(Clone, Copy, PartialEq, Eq)]
pub enum KeepAlive {
    /// For one session of work.
    Session,
    /// Longer than the session that started it.
    Daemon,
}

impl KeepAlive {
    /// Every mode, once.
    pub const ALL: [KeepAlive; 2] = [KeepAlive::Session, KeepAlive::Daemon];

    /// The word by which plans ask for it.
    pub fn word(self) -> &'static str
        ensures { result.now ≡ keep_alive_word self }
    {
        match self {
            KeepAlive::Session => "session",
            KeepAlive::Daemon => "daemon",
        }
    }

    /// The mode whose word this is, if there is one.
    pub fn of_word(word: &str) -> Option<KeepAlive>
        ensures { result ≡ keep_alive_mode_of word.now }
    {
        for mode in &KeepAlive::ALL {
            if mode.word() == word {
                return Some(*mode);
            }
        }
        None
    }
}
