//! The kinds of outcomes.
ghost use Rattle.std.specs.Prelude.{◌≡◌};
ghost use Rattle.item_actions.specs.Words.{kind_of_outcome, outcome_word, outcome_phrase, outcome_kind_of};

use crate::outcomes::Outcome;

/// Which outcome it is, without the value that it may have.
#[derive(Clone, Copy)]
pub enum OutcomeKind {
    Number,
    Digest,
    NotThere,
    TooLong,
    Fault,
    NoMemory,
    Skipped,
}

impl OutcomeKind {
    /// Every kind of outcome, once.
    pub const ALL: [OutcomeKind; 7] = [
        OutcomeKind::Number,
        OutcomeKind::Digest,
        OutcomeKind::NotThere,
        OutcomeKind::TooLong,
        OutcomeKind::Fault,
        OutcomeKind::NoMemory,
        OutcomeKind::Skipped,
    ];

    /// The one word by which a history names it. Behind those of Number and Digest stands the value.
    pub fn word(self) -> &'static str
        ensures { result.now ≡ outcome_word self }
    {
        match self {
            OutcomeKind::Number => "number",
            OutcomeKind::Digest => "digest",
            OutcomeKind::NotThere => "missing",
            OutcomeKind::TooLong => "too-long",
            OutcomeKind::Fault => "fault",
            OutcomeKind::NoMemory => "no-memory",
            OutcomeKind::Skipped => "skipped",
        }
    }

    /// What results say of it to a reader. In place of those of Number and Digest stands the value.
    pub fn phrase(self) -> &'static str
        ensures { result.now ≡ outcome_phrase self }
    {
        match self {
            OutcomeKind::NotThere => "not there",
            OutcomeKind::TooLong => "too long",
            OutcomeKind::NoMemory => "no memory",
            OutcomeKind::Number | OutcomeKind::Digest | OutcomeKind::Fault | OutcomeKind::Skipped =>
                self.word(),
        }
    }

    /// The kind whose word this is, if there is one.
    pub fn of_word(word: &str) -> Option<OutcomeKind>
        ensures { result ≡ outcome_kind_of word.now }
    {
        for kind in &OutcomeKind::ALL {
            if kind.word() == word {
                return Some(*kind);
            }
        }
        None
    }
}

impl Outcome {
    /// Which outcome it is.
    pub fn kind(&self) -> OutcomeKind
        ensures { result ≡ kind_of_outcome self.now }
    {
        match self {
            Outcome::Number(_) => OutcomeKind::Number,
            Outcome::Digest(_) => OutcomeKind::Digest,
            Outcome::NotThere => OutcomeKind::NotThere,
            Outcome::TooLong => OutcomeKind::TooLong,
            Outcome::Fault => OutcomeKind::Fault,
            Outcome::NoMemory => OutcomeKind::NoMemory,
            Outcome::Skipped => OutcomeKind::Skipped,
        }
    }
}
