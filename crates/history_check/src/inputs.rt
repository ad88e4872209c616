ghost use Rattle.std.specs.Prelude.{◌≡◌, [], length};
ghost use Rattle.history_text.specs.Text.{end_text};
ghost use Rattle.plan_reader.specs.PlanView.{PlanView};
ghost use Rattle.file_access.specs.SourceView.{SourceView};
ghost use Rattle.history_check.specs.Checking.{HasChecked, HasEnded, HasBytesLeft, GoesOn, FindsHead, FindsRoom, IsUnderway, Shortens, TakesHead, HasTaken};
ghost use Rattle.history_check.specs.Checking.{OpensWithin};
ghost use Rattle.history_check.specs.Admitting.{HasAdmitted};
ghost use Rattle.history_text.specs.Lines.{first_line};

use crate::admitted::Admitted;
use crate::admitters::Admitter;
use crate::checks::{Checked, HistoryCheck};
use crate::fails::CheckFail;
use crate::lines::{Expected, Lines};
use crate::reached::Reached;
use crate::whole_books::WholeBook;
use file_access::Source;
use history_text::{HistoryLine, TextFail, Version, read_version};
use plan_reader::Plan;
use std::alloc::Global;

/// The most bytes that are taken of an input.
pub const MAX_INPUT_BYTES: u64 = 67_108_864;

// A history has at least its first line, of 10 bytes, and its end line, of 6 where there are no entries.
const LEAST_HISTORY: usize = 16;

/// Checks the history that stands in an input against a plan.
///
/// Lines before the first that is `history 1` or `history 2` are passed over. The text is taken up to its `end` line, and what
/// follows is left in the source. A text that isn't at its end after `MAX_INPUT_BYTES`, of which the lines that
/// are passed over are a part, stops being a history there. NotLawful comes where the text stops being a history,
/// with the number at which it does, with 0 where it names another number of locks than the plan's graph has, and else
/// where an entry isn't allowed. Whatever is answered, nothing was
/// decided before the last bytes that were taken, at most `MAX_PIECE`.
pub fn check_input<I: Source>(
    alloc: Global,
    plan: &Plan,
    input: &mut I,
) -> Result<Checked, CheckFail>
    ensures { HasChecked plan.now (I.seen input.old) (I.seen input.new) result }
{
    let mut lines = Lines::new(alloc, MAX_INPUT_BYTES);
    let found = find_head(input, &mut lines)?;
    match found {
        Some(version) => check_behind(alloc, plan, version, input, &mut lines),
        None => Ok(Checked::NotLawful(0)),
    }
}

/// Checks as `check_input` does, and answers the book of the history where all its entries are lawful. So it keeps the entries.
pub fn admit_input<I: Source>(
    alloc: Global,
    plan: &Plan,
    input: &mut I,
) -> Result<Admitted, CheckFail>
    ensures { HasAdmitted plan.now (I.seen input.old) (I.seen input.new) result }
{
    let mut lines = Lines::new(alloc, MAX_INPUT_BYTES);
    let found = find_head(input, &mut lines)?;
    match found {
        Some(version) => admit_behind(alloc, plan, version, input, &mut lines),
        None => Ok(Admitted::NotLawful(0)),
    }
}

// Checks the entries of the history whose first line was taken.
fn check_behind<I: Source>(
    alloc: Global,
    plan: &Plan,
    version: Version,
    input: &mut I,
    lines: &mut Lines,
) -> Result<Checked, CheckFail>
    requires { HasBytesLeft 0 lines.old }
    ensures { (start : SourceView) → HasTaken start (I.seen input.old) lines.old (first_line version) → HasChecked plan.now start (I.seen input.new) result }
{
    let opened = open_check::<Reached, I>(alloc, plan, version, input, lines)?;
    match opened {
        None => Ok(Checked::NotLawful(0)),
        Some(mut check) => {
            let answer = check_lines(alloc, &mut check, input, lines);
            drop(check);
            answer
        }
    }
}

// Admits the entries of the history whose first line was taken.
fn admit_behind<I: Source>(
    alloc: Global,
    plan: &Plan,
    version: Version,
    input: &mut I,
    lines: &mut Lines,
) -> Result<Admitted, CheckFail>
    requires { HasBytesLeft 0 lines.old }
    ensures { (start : SourceView) → HasTaken start (I.seen input.old) lines.old (first_line version) → HasAdmitted plan.now start (I.seen input.new) result }
{
    let opened = open_check::<WholeBook, I>(alloc, plan, version, input, lines)?;
    match opened {
        None => Ok(Admitted::NotLawful(0)),
        Some(mut check) => match check_lines(alloc, &mut check, input, lines) {
            Ok(answer) => Ok(check.finish(answer)),
            Err(fail) => {
                // Let go of as a whole: to prove that it ends field by field takes a minute.
                drop(check);
                Err(fail)
            }
        },
    }
}

// Takes the lines up to the first that is the first of a history, and answers which version it begins, or that there is none.
fn find_head<I: Source>(input: &mut I, lines: &mut Lines) -> Result<Option<Version>, CheckFail>
    requires none { lines.old.ahead ≡ [] }
    requires room { lines.old.room ≡ MAX_INPUT_BYTES }
    ensures room { FindsRoom lines.new result }
    ensures head { FindsHead (I.seen input.old) (I.seen input.new) lines.new result }
{
    loop {
        let is_whole = lines.take_line(input, Expected::Any, LEAST_HISTORY)?;
        if let Some(version) = read_version(lines.line()) {
            return Ok(Some(version));
        }
        if !is_whole {
            return Ok(None);
        }
    }
}

// Takes the second line, and opens the check by it. None comes where it is no second line of a history.
fn open_check<A: Admitter, I: Source>(
    alloc: Global,
    plan: &Plan,
    version: Version,
    input: &mut I,
    lines: &mut Lines,
) -> Result<Option<HistoryCheck<A>>, CheckFail>
    requires { HasBytesLeft 0 lines.old }
    ensures count { OpensWithin lines.new result }
    ensures head { (start : SourceView) → HasTaken start (I.seen input.old) lines.old (first_line version)
        → TakesHead plan.now start (I.seen input.new) lines.new result }
{
    lines.take_line(input, Expected::Any, end_length(0))?;
    match HistoryCheck::opening(alloc, plan, version, lines.line()) {
        Ok(check) => Ok(Some(check)),
        Err(TextFail::Stops(_)) => Ok(None),
        Err(TextFail::NoMemory) => Err(CheckFail::NoMemory),
    }
}

// Takes the lines behind the head.
fn check_lines<A: Admitter, I: Source>(
    alloc: Global,
    check: &mut HistoryCheck<A>,
    input: &mut I,
    lines: &mut Lines,
) -> Result<Checked, CheckFail>
    requires { HasBytesLeft check.old.count lines.old }
    ensures { (p : PlanView) (start : SourceView) → IsUnderway p start (I.seen input.old) lines.old check.old
        → HasEnded p start (I.seen input.new) check.new result }
{
    loop {
        let next = check_next(alloc, check, input, lines)?;
        if let Some(answer) = next {
            return Ok(answer);
        }
    }
}

// Takes the next line. An answer comes where the history ends with it, or the text stops being one.
fn check_next<A: Admitter, I: Source>(
    alloc: Global,
    check: &mut HistoryCheck<A>,
    input: &mut I,
    lines: &mut Lines,
) -> Result<Option<Checked>, CheckFail>
    requires { HasBytesLeft check.old.count lines.old }
    ensures shortens { Shortens lines.old lines.new check.new result }
    ensures goes_on { (p : PlanView) (start : SourceView) → IsUnderway p start (I.seen input.old) lines.old check.old
        → GoesOn p start (I.seen input.new) lines.new check.new result }
{
    lines.take_line(input, Expected::EntryOrEnd, end_length(check.count()))?;
    match check.take_line(lines.line()) {
        Ok(HistoryLine::Entry) => Ok(None),
        Ok(HistoryLine::End) => Ok(Some(check.answer())),
        Err(TextFail::Stops(number)) => Ok(Some(Checked::NotLawful(number))),
        Err(TextFail::NoMemory) => Err(CheckFail::NoMemory),
    }
}

// How many bytes the end line behind so many entries has. It never falls from entry to entry, so from a line's beginning at least as
// many bytes of a history are still to come, and behind a line that isn't the last as many again: no piece reaches further.
fn end_length(count: u64) -> usize
    ensures { result ≡ length (end_text count) }
{
    let tens = count.checked_ilog10().unwrap_or(0);
    b"end \n".len() + tens as usize + 1
}
