ghost use Rattle.std.specs.Prelude.{◌≡◌, MatchOption};
ghost use Rattle.std.specs.List.{list_any};
ghost use Rattle.std.specs.Str.{bytes_eq};
ghost use Rattle.daemon_requirements.specs.RequirementsView.{HasDistinctNames};
ghost use Rattle.daemon_requirements.specs.Refusals.{IsFirstTwice};

use crate::equality::is_same_text;
use crate::fields::Pair;
use item_actions::Text;

/// The position of the first pair whose name an earlier pair has.
pub(crate) fn first_twice(pairs: &[Pair]) -> Option<usize>
    ensures { MatchOption result (HasDistinctNames pairs.now) (λ place. IsFirstTwice pairs.now place) }
{
    for (place, pair) in pairs.iter().enumerate() {
        if has_name(&pairs[..place], &pair.name) {
            return Some(place);
        }
    }
    None
}

// Whether one of the pairs has this name.
fn has_name(pairs: &[Pair], name: &Text) -> bool
    ensures { result ≡ list_any (λ p. bytes_eq p.name name.now) pairs.now }
{
    pairs.iter().any(|pair| is_same_text(&pair.name, name))
}
