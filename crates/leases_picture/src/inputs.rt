//! The history that stands in a text.
ghost use Rattle.std.specs.Prelude.{◌++◌, IfSome, IfNone};
ghost use Rattle.history_check.specs.Naming.{Breaks};
ghost use Rattle.history_text.specs.HistoryView.{history_view};
ghost use Rattle.history_text.specs.Grammar.{HistoryFits, lines_of};
ghost use Rattle.leases_picture.specs.Found.{IsBehindHead, EndsIn, IsFoundIn};

use history_text::{History, HistoryLine, TextFail, Version, read_version};
use std::alloc::Global;
use whole_histories::next_line;

// Which version the first line that is the first of a history begins, and the text behind it.
fn behind_head(text: &[u8]) -> Option<(Version, &[u8])>
    ensures some { IfSome result (λ found. IsBehindHead found.0 text.now found.1.now) }
    ensures none { IfNone result (Breaks text.now 0) }
{
    let mut rest = text;
    loop {
        let (line, more) = next_line(rest);
        if let Some(version) = read_version(line) {
            return Some((version, more));
        }
        if more.is_empty() {
            return None;
        }
        rest = more;
    }
}

// Takes the lines of a history up to its end. What stands behind it is left alone.
fn take_lines(alloc: Global, history: &mut History, lines: &[u8]) -> Result<(), TextFail>
    requires { HistoryFits (history_view history.old) }
    ensures { EndsIn (lines_of (history_view history.old) ++ lines.now) (history_view history.new) result }
{
    let mut rest = lines;
    loop {
        let (line, more) = next_line(rest);
        match history.take_line(alloc, line)? {
            HistoryLine::Entry => rest = more,
            HistoryLine::End => return Ok(()),
        }
    }
}

/// The first history of a text. Lines before the first that is `history 1` or `history 2` are passed over, and what
/// stands behind its `end` line is left alone. Stops comes where the text stops being a history, with the number at which it does,
/// and NoMemory where there was no memory for the entries.
pub(crate) fn find_history(alloc: Global, text: &[u8]) -> Result<History, TextFail>
    ensures { IsFoundIn text.now result }
{
    let Some((version, rest)) = behind_head(text) else {
        return Err(TextFail::Stops(0));
    };
    let (second, lines) = next_line(rest);
    let Some(mut history) = History::opening(alloc, version, second) else {
        return Err(TextFail::Stops(0));
    };
    match take_lines(alloc, &mut history, lines) {
        Ok(()) => Ok(history),
        Err(fail) => Err(fail),
    }
}
