ghost use Rattle.std.specs.Prelude.{◌++◌};
ghost use Rattle.history_text.specs.HistoryView.{history_view};
ghost use Rattle.history_text.specs.Grammar.{HistoryFits, IsReadFrom, lines_of};

use crate::lines::next_line;
use history_text::{History, HistoryLine, TextFail, read_version};
use std::alloc::Global;

// The lines behind the head.
fn read_lines(alloc: Global, opened: History, text: &[u8]) -> Result<History, TextFail>
    requires { HistoryFits (history_view opened) }
    ensures { IsReadFrom (lines_of (history_view opened) ++ text.now) result }
{
    let mut history = opened;
    let mut rest = text;
    loop {
        let (line, more) = next_line(rest);
        match history.take_line(alloc, line)? {
            HistoryLine::Entry => rest = more,
            HistoryLine::End if more.is_empty() => return Ok(history),
            HistoryLine::End => return Err(TextFail::Stops(history.next_number())),
        }
    }
}

/// Reads a whole history text. Stops comes exactly where the text is none: at 0 where its head is wrong or
/// lacks, and else at the number that the first wrong or lacking line would have had as an entry. NoMemory
/// comes only where there was no memory for the entries.
pub fn read_history(alloc: Global, text: &[u8]) -> Result<History, TextFail>
    ensures { IsReadFrom text.now result }
{
    let (first, rest) = next_line(text);
    let Some(version) = read_version(first) else {
        return Err(TextFail::Stops(0));
    };
    let (second, lines) = next_line(rest);
    match History::opening(alloc, version, second) {
        None => Err(TextFail::Stops(0)),
        Some(opened) => read_lines(alloc, opened, lines),
    }
}
