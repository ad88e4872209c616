//! Histories that were read.
ghost use Rattle.std.specs.Prelude.{◌≡◌, IfSome, IfNone};
ghost use Rattle.history_text.specs.HistoryView.{history_view};
ghost use Rattle.history_text.specs.Lines.{next_number, Opens, OpensNone, TakesLine};

use crate::fails::TextFail;
use crate::heads::{Version, read_settings_line};
use crate::lines::{LineValue, read_line};
use lock_transforms::Kind;
use resource_lock::{Change, WorkerId};
use std::alloc::Global;

/// A history that was read from its text.
pub struct History {
    /// How many workers there are: 1 to 32 in what was read.
    pub workers: u32,
    /// How many leases may be out at once: 1 to 32 in what was read.
    pub max: u32,
    /// Whether each project has a lock of its own.
    pub parallel: bool,
    /// How many locks there are, where the text is of version 2 and so says it.
    pub locks: Option<u32>,
    /// The entries, in order.
    pub entries: Vec<HistoryEntry>,
}

// By hand, so that crates that let one go call this, in place of proving what it does anew.
impl Drop for History {
    fn drop(self) {
        let History {
            workers: _,
            max: _,
            parallel: _,
            locks: _,
            entries: _,
        } = self;
    }
}

/// An entry of a history.
pub struct HistoryEntry {
    /// The worker that ran the transform.
    pub worker: WorkerId,
    /// What the entry is for.
    pub kind: Kind,
    /// The changes that were made, in order, or none where the transform failed.
    pub changes: Option<Vec<Change>>,
}

// By hand, so that crates that let one go call this, in place of proving what it does anew.
impl Drop for HistoryEntry {
    fn drop(self) {
        let HistoryEntry {
            worker: _,
            kind: _,
            changes: _,
        } = self;
    }
}

/// An entry of a history but for its changes, which stand elsewhere.
#[derive(Clone, Copy)]
pub struct EntryHead {
    /// The worker that ran the transform.
    pub worker: WorkerId,
    /// What the entry is for.
    pub kind: Kind,
    /// Whether the transform finished, and so has changes.
    pub is_finished: bool,
}

/// What a line of a history is.
#[derive(Clone, Copy, PartialEq, Eq)]
pub enum HistoryLine {
    /// The line of one more entry.
    Entry,
    /// The last line.
    End,
}

impl History {
    /// A history without entries, by its second line, which comes with its line end. None comes exactly
    /// where the line isn't one of this version. It takes no memory.
    pub fn opening(alloc: Global, version: Version, line: &[u8]) -> Option<History>
        ensures some { IfSome result (λ h. Opens version line.now (history_view h)) }
        ensures none { IfNone result (OpensNone version line.now) }
    {
        let settings = read_settings_line(version, line)?;
        Some(History {
            workers: settings.workers,
            max: settings.max,
            parallel: settings.parallel,
            locks: settings.locks,
            entries: Vec::new(alloc),
        })
    }

    /// The number of the entry that would follow.
    pub fn next_number(&self) -> u64
        ensures { result ≡ next_number (history_view self.now) }
    {
        self.entries.len() as u64 + 1
    }

    /// Takes one more line with its line end. An entry's line is added; the end line says that the
    /// history ends here. Stops comes where the line is neither, with the number of the entry that
    /// would follow. At the end line, at Stops and at NoMemory the history is as before.
    pub fn take_line(&mut self, alloc: Global, line: &[u8]) -> Result<HistoryLine, TextFail>
        ensures { TakesLine (history_view self.old) line.now (history_view self.new) result }
    {
        match read_line(alloc, self.entries.len() as u64, line)? {
            LineValue::Entry(entry) => {
                self.entries.push(entry)?;
                Ok(HistoryLine::Entry)
            }
            LineValue::End => Ok(HistoryLine::End),
        }
    }
}
