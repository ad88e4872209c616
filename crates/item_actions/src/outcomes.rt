//! What became of a unit.
ghost use Rattle.std.specs.Prelude.{◌≡◌};
ghost use Rattle.item_actions.specs.Value.{passes};

/// What became of a unit: an item or a fetch.
#[derive(Clone, Copy, PartialEq, Eq)]
pub enum Outcome {
    /// What the action counted.
    Number(u64),
    /// The SHA-256 of the file's bytes.
    Digest([u8; 32]),
    /// There is no file of that name.
    NotThere,
    /// The file has more bytes than a file may have.
    TooLong,
    /// The outside failed while the file was read.
    Fault,
    /// There was no memory for the file's bytes.
    NoMemory,
    /// The unit was never run.
    Skipped,
}

impl Outcome {
    /// Whether it is a value of an action, `Number` or `Digest`.
    pub fn passes(&self) -> bool
        ensures { result ≡ passes self.now }
    {
        matches!(self, Outcome::Number(_) | Outcome::Digest(_))
    }
}
