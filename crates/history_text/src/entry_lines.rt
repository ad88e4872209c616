ghost use Rattle.std.specs.Prelude.{◌≡◌, ◌↔◌, [], length, IsTrue};
ghost use Rattle.std.specs.Option.{option_map};
ghost use Rattle.history_text.specs.Text.{entry_text, end_text};
ghost use Rattle.history_text.specs.Fitting.{EntryFits};
ghost use Rattle.history_text.specs.HistoryView.{changes_of, entry_with};
ghost use Rattle.history_text.specs.Lines.{IsReadAs};
ghost use Rattle.history_text.specs.Reading.{Gives, with_front, further_at, changes_at, effect_at, body_at, entry_at, end_at};

use crate::change_words::read_change;
use crate::fails::ReadFail;
use crate::kinds::read_kind;
use crate::read_histories::EntryHead;
use crate::tokens::{read_short, text_after, text_after_number};
use resource_lock::{Change, WorkerId};

// The changes behind the first, which come behind those before them.
fn read_further<'a>(
    changes: &mut Vec<Change>,
    text: &'a [u8],
    worker: WorkerId,
) -> Result<&'a [u8], ReadFail>
    ensures { Gives (λ x. (changes.new.items, x.now)) result (with_front changes.old.items (further_at (length text.now) worker text.now)) }
{
    let mut rest = text;
    for _ in 0..text.len() {
        match text_after(rest, b", ") {
            None => return Ok(rest),
            Some(next) => {
                let Some((change, more)) = read_change(next, worker) else {
                    return Err(ReadFail::Wrong);
                };
                changes.push(change)?;
                rest = more;
            }
        }
    }
    Err(ReadFail::Wrong)
}

// Reads changes with commas between them at the start of the text, and gives what follows.
#[tactic(auto, unfolding(crate::specs::Reading::changes_at))]
fn read_changes<'a>(
    changes: &mut Vec<Change>,
    text: &'a [u8],
    worker: WorkerId,
) -> Result<&'a [u8], ReadFail>
    requires { changes.old.items ≡ [] }
    ensures { Gives (λ x. (changes.new.items, x.now)) result (changes_at worker text.now) }
{
    let (change, rest) = read_change(text, worker).ok_or(ReadFail::Wrong)?;
    changes.push(change)?;
    read_further(changes, rest, worker)
}

// What an entry did: its changes, and whether it has any or failed.
#[tactic(auto, unfolding(crate::specs::Reading::effect_at, crate::specs::Reading::branch))]
fn read_effect<'a>(
    changes: &mut Vec<Change>,
    text: &'a [u8],
    worker: WorkerId,
) -> Result<(bool, &'a [u8]), ReadFail>
    ensures { Gives (λ x. (changes_of x.0 changes.new.items, x.1.now)) result (effect_at worker text.now) }
{
    changes.clear();
    if let Some(rest) = text_after(text, b"failed") {
        return Ok((false, rest));
    }
    if let Some(rest) = text_after(text, b"nothing") {
        return Ok((true, rest));
    }
    let rest = read_changes(changes, text, worker)?;
    Ok((true, rest))
}

// An entry behind its number.
#[tactic(auto, unfolding(crate::specs::Reading::body_at))]
fn read_body<'a>(
    changes: &mut Vec<Change>,
    text: &'a [u8],
) -> Result<(EntryHead, &'a [u8]), ReadFail>
    ensures { Gives (λ x. (entry_with x.0 changes.new.items, x.1.now)) result (body_at text.now) }
{
    let rest = text_after(text, b" w").ok_or(ReadFail::Wrong)?;
    let (worker, rest) = read_short(rest).ok_or(ReadFail::Wrong)?;
    let worker = WorkerId(worker);
    let rest = text_after(rest, b" ").ok_or(ReadFail::Wrong)?;
    let (kind, rest) = read_kind(rest).ok_or(ReadFail::Wrong)?;
    let rest = text_after(rest, b" | ").ok_or(ReadFail::Wrong)?;
    let (is_finished, rest) = read_effect(changes, rest, worker)?;
    let rest = text_after(rest, b"\n").ok_or(ReadFail::Wrong)?;
    let head = EntryHead {
        worker,
        kind,
        is_finished,
    };
    Ok((head, rest))
}

// The entry of this number at the front of a text, and the text after its line.
#[tactic(auto, unfolding(crate::specs::Reading::entry_at))]
fn read_entry<'a>(
    changes: &mut Vec<Change>,
    number: u64,
    text: &'a [u8],
) -> Result<(EntryHead, &'a [u8]), ReadFail>
    ensures { Gives (λ x. (entry_with x.0 changes.new.items, x.1.now)) result (entry_at number text.now) }
{
    let rest = text_after_number(text, number).ok_or(ReadFail::Wrong)?;
    read_body(changes, rest)
}

/// The entry of this number, by its whole line, with its changes in place of those given.
pub(crate) fn read_entry_line(
    changes: &mut Vec<Change>,
    number: u64,
    line: &[u8],
) -> Result<EntryHead, ReadFail>
    ensures { IsReadAs (entry_text number) EntryFits line.now (λ h. entry_with h changes.new.items) result }
{
    match read_entry(changes, number, line) {
        Ok((head, rest)) if rest.is_empty() => Ok(head),
        Ok(_) => Err(ReadFail::Wrong),
        Err(fail) => Err(fail),
    }
}

// Reads the `end` line behind so many entries, and gives what follows.
#[tactic(auto, unfolding(crate::specs::Reading::end_at))]
fn read_end(text: &[u8], count: u64) -> Option<&[u8]>
    ensures { option_map (λ r. r.now) result ≡ end_at count text.now }
{
    let rest = text_after(text, b"end ")?;
    let rest = text_after_number(rest, count)?;
    text_after(rest, b"\n")
}

/// Whether a line is the last of a history with so many entries.
pub(crate) fn is_end_line(line: &[u8], count: u64) -> bool
    ensures { IsTrue result ↔ (line.now ≡ end_text count) }
{
    let Some(rest) = read_end(line, count) else {
        return false;
    };
    rest.is_empty()
}
