//! How many leases are out, and how many items are queued, after each entry.
ghost use Rattle.std.specs.Prelude.{◌≡◌, map, IfOk, option_map};
ghost use Rattle.history_text.specs.HistoryView.{entry_read};
ghost use Rattle.run_spans.specs.Levels.{after_change, after_changes, levels_of, nothing_out};

use history_text::HistoryEntry;
use resource_lock::{Change, Mark, MarkId};
use std::alloc::{AllocError, Global};

/// What is out and queued after an entry.
#[derive(Clone, Copy)]
pub struct Level {
    /// How many leases are out.
    pub out: u64,
    /// How many units are queued.
    pub queued: u64,
}

// What is out and queued after one more change. Neither falls below 0, nor rises above 2^64 - 1.
fn after_change(level: Level, change: &Change) -> Level
    ensures { result ≡ after_change level change.now }
{
    let Level { out, queued } = level;
    match *change {
        Change::Take => Level {
            out: out.saturating_add(1),
            queued,
        },
        Change::Give => Level {
            out: out.saturating_sub(1),
            queued,
        },
        Change::Move(MarkId::Unit(_), _, Mark::Queued) => Level {
            out,
            queued: queued.saturating_add(1),
        },
        Change::Move(MarkId::Unit(_), Mark::Queued, _) => Level {
            out,
            queued: queued.saturating_sub(1),
        },
        _ => level,
    }
}

// The level after these changes.
fn after_changes(level: Level, changes: &[Change]) -> Level
    ensures { result ≡ after_changes level changes.now }
{
    let mut level = level;
    for change in changes {
        level = after_change(level, change);
    }
    level
}

/// How many leases are out and how many units queued after each entry, in order.
pub fn levels_of(alloc: Global, entries: &[HistoryEntry]) -> Result<Vec<Level>, AllocError>
    ensures { IfOk result (λ levels. levels.items ≡ levels_of nothing_out (map entry_read entries.now)) }
{
    let mut levels = Vec::with_capacity(alloc, entries.len())?;
    let mut level = Level { out: 0, queued: 0 };
    for entry in entries {
        if let Some(changes) = entry.changes.as_deref() {
            level = after_changes(level, changes);
        }
        levels.push(level)?;
    }
    Ok(levels)
}
