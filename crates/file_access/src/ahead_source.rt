//! A source over a reader that may read ahead.
ghost use Rattle.std.specs.Prelude.{◌≡◌, ◌≤◌, ◌-◌, length, take};
ghost use Rattle.std.specs.Io.KnownBytes.{Keeps};
ghost use Rattle.memchr.specs.Find.{Nowhere, Passes, is_byte};
ghost use Rattle.file_access.specs.Ahead.{GivesAhead};

use crate::sinks::Failed;
use crate::sources::Source;
use crate::std_source::take_from;
use memchr::memchr;
use std::alloc::AllocError;
use std::cmp::min;
use std::io::BufRead;
use std::marker::Model;

/// Whether a reader reads ahead.
#[derive(Clone, Copy)]
enum Habit {
    /// It wasn't asked yet.
    Unknown,
    /// It showed more than one byte.
    Ahead,
    /// It showed one byte or none: it is read by plain calls from then on.
    Plain,
}

/// A source over a reader of std that may read ahead, as the locked standard input does where it can seek. That sets its
/// place back when it is dropped, so that the next reader finds what was not taken. From a pipe it would read a byte at a
/// time, and is read by plain calls in its place.
#[derive(Drop)]
pub struct AheadSource<R: BufRead> {
    reader: R,
    faults: u64,
    habit: Habit,
}

impl<R: BufRead> Model for AheadSource<R> {
    ghost use Rattle.file_access.specs.SourceView.{SourceView};

    ghost Value = { SourceView };

    ghost view = { λ s. record { left = R.remaining s.reader; faults = s.faults } };
}

impl<R: BufRead> AheadSource<R> {
    /// A source that reads from `reader`. What is left is known where the contents of the reader are.
    pub fn new(reader: R) -> AheadSource<R>
        ensures { result ≡ record { left = R.remaining reader; faults = 0 } }
    {
        AheadSource {
            reader,
            faults: 0,
            habit: Habit::Unknown,
        }
    }
}

impl<R: BufRead> Source for AheadSource<R> {
    ghost seen = { λ s. s };

    fn take(&mut self, buffer: &mut [u8]) -> Result<usize, Failed> {
        self.habit = look_ahead(&mut self.reader, self.habit);
        let taken = take_from(&mut self.reader, buffer);
        if taken.is_err() {
            self.faults = self.faults.saturating_add(1);
        }
        taken
    }

    // Bytes are put behind the line in place of a buffer of the caller's, which would be copied once more. The lock sets the place back at
    // the program's end.
    fn take_ahead(&mut self, line: &mut Vec<u8>, most: usize) -> Result<usize, AllocError> {
        if most == 0 {
            return Ok(0);
        }
        let least = match self.habit {
            Habit::Unknown => 2,
            Habit::Ahead => 1,
            Habit::Plain => return Ok(0),
        };
        let count = pass_on(&mut self.reader, line, least, most)?;
        self.habit = habit_by(count, 1);
        Ok(count)
    }
}

// Has a reader read ahead, unless it is known not to, and answers what is known of it then.
fn look_ahead<R: BufRead>(reader: &mut R, habit: Habit) -> Habit
    ensures { Keeps (R.remaining reader.old) (R.remaining reader.new) }
{
    match habit {
        Habit::Unknown => habit_by(shown_by(reader), 2),
        Habit::Ahead => habit_by(shown_by(reader), 1),
        Habit::Plain => Habit::Plain,
    }
}

// What is known of a reader that shows so many bytes, where one that reads ahead shows at least so many.
fn habit_by(shown: usize, least: usize) -> Habit {
    if shown < least {
        Habit::Plain
    } else {
        Habit::Ahead
    }
}

// How many bytes a reader shows. A reader that fails shows none, and is asked again by the next read.
fn shown_by<R: BufRead>(reader: &mut R) -> usize
    ensures { Keeps (R.remaining reader.old) (R.remaining reader.new) }
{
    match reader.fill_buf() {
        Ok(shown) => shown.len(),
        Err(_) => 0,
    }
}

// Takes what a reader shows where it shows at least so many bytes, and none behind a line end.
fn pass_on<R: BufRead>(
    reader: &mut R,
    line: &mut Vec<u8>,
    least: usize,
    most: usize,
) -> Result<usize, AllocError>
    ensures { GivesAhead (R.remaining reader.old) (R.remaining reader.new) line.old.items line.new.items most result }
{
    let shown = match reader.fill_buf() {
        Ok(shown) => shown,
        Err(_) => return Ok(0),
    };
    if shown.len() < least {
        return Ok(0);
    }
    let count = through_line_end(shown, most);
    line.extend_from_slice(&shown[..count])?;
    reader.consume(count);
    Ok(count)
}

// How many bytes stand up to the first line end, and with it, of at most so many.
fn through_line_end(bytes: &[u8], most: usize) -> usize
    ensures within { result ≤ length bytes.now }
    ensures few { result ≤ most }
    ensures one_line { Nowhere (Passes (is_byte 10) (take result bytes.now)) 0 (result - 1) }
{
    let few = min(bytes.len(), most);
    match memchr(b'\n', &bytes[..few]) {
        Some(place) => place + 1,
        None => few,
    }
}
