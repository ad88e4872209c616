ghost use Rattle.std.specs.Prelude.{◌≡◌, ◌<◌, ◌≤◌, ◌^◌, IfSome, IfNone};
ghost use Rattle.std.specs.Option.{option_map};
ghost use Rattle.history_text.specs.Reading.{count_at, locks_at, parallel_at, settings_at};
ghost use Rattle.history_text.specs.Lines.{first_line, IsNoFirst, OpensNone, IsSaidBy};

use crate::tokens::{by_word, read_number, read_short, text_after};
use plan_reader::{MAX_LEASES, MAX_WORKERS};

/// Which version of the text it is.
#[derive(Clone, Copy)]
pub enum Version {
    /// The text doesn't say how many locks there are.
    One,
    /// It says how many.
    Two,
}

/// What the second line of a history says.
#[derive(Clone, Copy)]
pub(crate) struct Settings {
    pub(crate) workers: u32,
    pub(crate) max: u32,
    pub(crate) parallel: bool,
    pub(crate) locks: Option<u32>,
}

/// Which version a first line, with its line end, begins. None comes exactly where the line isn't the first of a
/// history.
pub fn read_version(line: &[u8]) -> Option<Version>
    ensures some { IfSome result (λ v. line.now ≡ first_line v) }
    ensures none { IfNone result (IsNoFirst line.now) }
{
    if line == b"history 1\n".as_slice() {
        Some(Version::One)
    } else if line == b"history 2\n".as_slice() {
        Some(Version::Two)
    } else {
        None
    }
}

// Reads how many there are, from 1 to the most, and gives what follows.
#[tactic(auto, unfolding(crate::specs::Reading::count_at))]
fn read_count(text: &[u8], most: u64) -> Option<(u32, &[u8])>
    requires least { 9 ≤ most }
    requires few { most < 2 ^ 32 }
    ensures { option_map (λ x. (x.0, x.1.now)) result ≡ count_at most text.now }
{
    let (count, rest) = read_number(text, most)?;
    if count == 0 {
        return None;
    }
    Some((count as u32, rest))
}

// Reads `yes` or `no` at the start of the text, and gives what follows.
#[tactic(auto, unfolding(crate::specs::Reading::parallel_at, crate::specs::Reading::branch))]
fn read_parallel(text: &[u8]) -> Option<(bool, &[u8])>
    ensures { option_map (λ x. (x.0, x.1.now)) result ≡ parallel_at text.now }
{
    by_word! { text:
        b"yes" => true,
        b"no" => false,
    }
    None
}

// Reads how many locks there are, which a text of version 2 says, and gives what follows.
#[tactic(auto, unfolding(crate::specs::Reading::locks_at))]
fn read_locks(version: Version, text: &[u8]) -> Option<(Option<u32>, &[u8])>
    ensures { option_map (λ x. (x.0, x.1.now)) result ≡ locks_at version text.now }
{
    match version {
        Version::One => Some((None, text)),
        Version::Two => {
            let rest = text_after(text, b" locks ")?;
            let (locks, rest) = read_short(rest)?;
            Some((Some(locks), rest))
        }
    }
}

// What the second line of a history at the front of a text says, and the text after that line.
#[tactic(auto, unfolding(crate::specs::Reading::settings_at))]
fn read_settings(version: Version, text: &[u8]) -> Option<(Settings, &[u8])>
    ensures { option_map (λ x. (x.0, x.1.now)) result ≡ settings_at version text.now }
{
    let rest = text_after(text, b"workers ")?;
    let (workers, rest) = read_count(rest, u64::from(MAX_WORKERS))?;
    let rest = text_after(rest, b" max ")?;
    let (max, rest) = read_count(rest, u64::from(MAX_LEASES))?;
    let rest = text_after(rest, b" parallel ")?;
    let (parallel, rest) = read_parallel(rest)?;
    let (locks, rest) = read_locks(version, rest)?;
    let rest = text_after(rest, b"\n")?;
    let settings = Settings {
        workers,
        max,
        parallel,
        locks,
    };
    Some((settings, rest))
}

/// What the whole second line of a history says.
pub(crate) fn read_settings_line(version: Version, line: &[u8]) -> Option<Settings>
    ensures some { IfSome result (IsSaidBy version line.now) }
    ensures none { IfNone result (OpensNone version line.now) }
{
    let Some((settings, rest)) = read_settings(version, line) else {
        return None;
    };
    if rest.is_empty() {
        Some(settings)
    } else {
        None
    }
}
