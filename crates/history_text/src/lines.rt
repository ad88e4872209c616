//! What the lines of a history say.
ghost use Rattle.std.specs.Prelude.{◌<◌, ◌-◌, ◌^◌};
ghost use Rattle.history_text.specs.LineValues.{IsLineOf, IsLineInto};

use crate::entry_lines::{is_end_line, read_entry_line};
use crate::fails::{ReadFail, TextFail};
use crate::read_histories::{EntryHead, HistoryEntry};
use resource_lock::Change;
use std::alloc::Global;

/// What a line of a history says.
#[derive(Drop)]
pub enum LineValue {
    /// The entry that follows.
    Entry(HistoryEntry),
    /// There are no more entries.
    End,
}

/// What a line of a history says but for the changes.
#[derive(Clone, Copy)]
pub enum LineHead {
    /// The entry that follows.
    Entry(EntryHead),
    /// There are no more entries.
    End,
}

/// Reads one line, with its line end, behind so many entries. Stops comes where it is neither the line of
/// the entry that follows nor the end, with the number of that entry. NoMemory comes only where there was
/// no memory for the changes.
pub fn read_line(alloc: Global, count: u64, line: &[u8]) -> Result<LineValue, TextFail>
    requires { count < 2 ^ 64 - 1 }
    ensures { IsLineOf count line.now result }
{
    let mut changes = Vec::new(alloc);
    match read_line_into(&mut changes, count, line)? {
        LineHead::Entry(head) => Ok(LineValue::Entry(HistoryEntry {
            worker: head.worker,
            kind: head.kind,
            changes: if head.is_finished {
                Some(changes)
            } else {
                None
            },
        })),
        LineHead::End => Ok(LineValue::End),
    }
}

/// Reads a line as `read_line` does, and puts the changes of an entry in place of those given, whose memory is used again.
/// Where the line is no entry's that finished, what they are then isn't told.
pub fn read_line_into(
    changes: &mut Vec<Change>,
    count: u64,
    line: &[u8],
) -> Result<LineHead, TextFail>
    requires { count < 2 ^ 64 - 1 }
    ensures { IsLineInto count line.now changes.new.items result }
{
    let number = count + 1;
    match read_entry_line(changes, number, line) {
        Ok(head) => Ok(LineHead::Entry(head)),
        Err(ReadFail::Memory) => Err(TextFail::NoMemory),
        Err(ReadFail::Wrong) if is_end_line(line, count) => Ok(LineHead::End),
        Err(ReadFail::Wrong) => Err(TextFail::Stops(number)),
    }
}
