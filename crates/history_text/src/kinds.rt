ghost use Rattle.std.specs.Prelude.{◌≡◌};
ghost use Rattle.std.specs.Option.{option_map};
ghost use Rattle.history_text.specs.Reading.{kind_at, pause_at};

use crate::outcome_words::read_closed;
use crate::tokens::{by_word, read_short};
use lock_transforms::Kind;

// The kinds that close or wait.
#[tactic(auto, unfolding(crate::specs::Reading::pause_at, crate::specs::Reading::branch))]
fn read_pause(text: &[u8]) -> Option<(Kind, &[u8])>
    ensures { option_map (λ x. (x.0, x.1.now)) result ≡ pause_at text.now }
{
    by_word! { text:
        b"close " read_closed(closed) => Kind::Close(closed),
        b"block -" => Kind::Block(None),
        b"block " read_short(unit) => Kind::Block(Some(unit)),
        b"unblock -" => Kind::Unblock(None),
        b"unblock " read_closed(closed) => Kind::Unblock(Some(closed)),
    }
    None
}

/// What an entry is for.
#[tactic(auto, unfolding(crate::specs::Reading::kind_at, crate::specs::Reading::branch))]
pub(crate) fn read_kind(text: &[u8]) -> Option<(Kind, &[u8])>
    ensures { option_map (λ x. (x.0, x.1.now)) result ≡ kind_at text.now }
{
    by_word! { text:
        b"start " read_short(task) => Kind::Start(task),
        b"skip " read_short(task) => Kind::Skip(task),
        b"submit " read_short(action) => Kind::Submit(action),
        b"park " read_short(action) => Kind::Park(action),
        b"resume " read_short(action) => Kind::Resume(action),
        b"claim " read_short(unit) => Kind::Claim(unit),
        b"end " read_short(task) => Kind::End(task),
        b"acquire" => Kind::Acquire,
        b"handback" => Kind::HandBack,
    }
    read_pause(text)
}
