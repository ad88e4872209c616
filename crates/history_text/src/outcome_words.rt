ghost use Rattle.std.specs.Prelude.{◌≡◌};
ghost use Rattle.std.specs.Option.{option_map};
ghost use Rattle.history_text.specs.Reading.{outcome_at, closed_at};

use crate::digests::read_digest;
use crate::tokens::{by_word, read_long, read_short, text_after};
use item_actions::Outcome;
use lock_transforms::Closed;

// Reads an outcome at the start of the text, and gives what follows.
#[tactic(auto, unfolding(crate::specs::Reading::outcome_at, crate::specs::Reading::branch))]
fn read_outcome(text: &[u8]) -> Option<(Outcome, &[u8])>
    ensures { option_map (λ x. (x.0, x.1.now)) result ≡ outcome_at text.now }
{
    by_word! { text:
        b"number " read_long(number) => Outcome::Number(number),
        b"digest " read_digest(digest) => Outcome::Digest(digest),
        b"missing" => Outcome::NotThere,
        b"too-long" => Outcome::TooLong,
        b"fault" => Outcome::Fault,
        b"no-memory" => Outcome::NoMemory,
    }
    None
}

/// A unit and its outcome.
#[tactic(auto, unfolding(crate::specs::Reading::closed_at))]
pub(crate) fn read_closed(text: &[u8]) -> Option<(Closed, &[u8])>
    ensures { option_map (λ x. (x.0, x.1.now)) result ≡ closed_at text.now }
{
    let (unit, rest) = read_short(text)?;
    let rest = text_after(rest, b" ")?;
    let (outcome, rest) = read_outcome(rest)?;
    Some((Closed { unit, outcome }, rest))
}
