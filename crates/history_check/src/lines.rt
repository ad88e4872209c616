//! Lines of a source, taken whole where it has them read ahead, and else in pieces that never reach behind the text.
ghost use Rattle.std.specs.Prelude.{◌≡◌, ◌≤◌, ◌<◌, ◌-◌, [], length, true, take, get_or, nat_eq, IsFalse};
ghost use Rattle.history_text.specs.Lines.{is_unbroken};
ghost use Rattle.history_check.specs.Taking.{Splits, TakesPiece, TakesRest, TakesLine, MayTake, MayEnd};
ghost use Rattle.history_check.specs.declared.lines.TheConstants.{MAX_PIECE};

use crate::fails::CheckFail;
use file_access::Source;
use memchr::memchr;
use std::alloc::Global;
use std::cmp::min;
use std::marker::Model;
use std::mem::swap;

/// The most bytes that are taken by one call, but for those of a line that the source has read ahead.
pub const MAX_PIECE: usize = 32;

// By so many bytes an entry's line is longer than the end line in its place would be, at the least: `1 w0 end 0 | take` than `end 0`.
const ENTRY_OVER_END: usize = 12;

/// Which lines a text may have where one is taken.
#[derive(Clone, Copy)]
pub(crate) enum Expected {
    /// Any.
    Any,
    /// That of an entry, or the end line, whose bytes are the least.
    EntryOrEnd,
}

/// The line that was taken last, the bytes behind it that were taken too, and how many more may be taken.
#[derive(Drop)]
pub(crate) struct Lines {
    line: Vec<u8>,
    ahead: Vec<u8>,
    room: u64,
}

impl Model for Lines {
    ghost use Rattle.history_check.specs.LinesView.{LinesView};

    ghost Value = { LinesView };

    ghost view = { λ l. record { line = l.line.items; ahead = l.ahead.items; room = l.room } };
}

impl Lines {
    /// No line yet of a source of which `room` bytes may be taken.
    pub(crate) fn new(alloc: Global, room: u64) -> Lines
        ensures { result ≡ record { line = []; ahead = []; room = room } }
    {
        Lines {
            line: Vec::new(alloc),
            ahead: Vec::new(alloc),
            room,
        }
    }

    /// The line that was taken last.
    pub(crate) fn line(&self) -> &[u8]
        ensures { result.now ≡ self.now.line }
    {
        &self.line
    }

    /// Takes the next line with its line end, and answers whether it has its end. A line without its end is
    /// what there was room for, or the last of the source.
    ///
    /// The caller says of a text that goes on how many bytes stand at the least from the beginning of a line
    /// on. So many are taken at once. Where they have no line end, they aren't the end of the text, and that
    /// line end and as many bytes behind it are still to come. Where an entry is expected, so is the rest of its
    /// shortest line.
    ///
    /// At an error the bytes that were taken are lost.
    pub(crate) fn take_line<I: Source>(
        &mut self,
        input: &mut I,
        expected: Expected,
        least: usize,
    ) -> Result<bool, CheckFail>
        requires few { least < MAX_PIECE }
        requires ahead { length self.old.ahead ≤ least }
        ensures { TakesLine expected least (I.seen input.old) (I.seen input.new) self.old self.new result }
    {
        swap(&mut self.line, &mut self.ahead);
        self.ahead.clear();
        let mut looked = 0;
        loop {
            if self.split(looked)? {
                return Ok(true);
            }
            if self.take_ahead(input)? {
                return Ok(true);
            }
            looked = self.line.len();
            let most = wanted(&self.line, expected, least);
            if !self.take_piece(input, most)? {
                return Ok(false);
            }
        }
    }

    // Parts the bytes of the line at its line end, and answers whether there is one. In the bytes looked at
    // there is none.
    fn split(&mut self, looked: usize) -> Result<bool, CheckFail>
        requires looked { looked ≤ length self.old.line }
        requires unbroken { is_unbroken (take looked self.old.line) ≡ true }
        requires ahead { self.old.ahead ≡ [] }
        ensures { Splits looked self.old self.new result }
    {
        let Some(place) = memchr(b'\n', &self.line[looked..]) else {
            return Ok(false);
        };
        let end = looked + place + 1;
        self.ahead.extend_from_slice(&self.line[end..])?;
        self.line.truncate(end);
        Ok(true)
    }

    // Takes what the source has read ahead of the line, which has no line end yet, and answers whether it has one then.
    fn take_ahead<I: Source>(&mut self, input: &mut I) -> Result<bool, CheckFail>
        requires { is_unbroken self.old.line ≡ true }
        ensures { TakesRest (I.seen input.old) (I.seen input.new) self.old self.new result }
    {
        let count = input.take_ahead(&mut self.line, self.room as usize)?;
        if count == 0 {
            return Ok(false);
        }
        self.room -= count as u64;
        Ok(ends_line(&self.line))
    }

    // Takes some bytes more of the line, and answers whether any came.
    fn take_piece<I: Source>(&mut self, input: &mut I, most: usize) -> Result<bool, CheckFail>
        requires some { 0 < most }
        requires few { most ≤ MAX_PIECE }
        ensures { TakesPiece most (I.seen input.old) (I.seen input.new) self.old self.new result }
    {
        let most = min(most as u64, self.room) as usize;
        if most == 0 {
            return Ok(false);
        }
        let mut buffer = [0u8; MAX_PIECE];
        let count = input.take(&mut buffer[..most])?;
        self.line.extend_from_slice(&buffer[..count])?;
        self.room -= count as u64;
        Ok(count > 0)
    }
}

// How many bytes more may be taken of a line that begins so and has no line end yet.
fn wanted(line: &[u8], expected: Expected, least: usize) -> usize
    requires { least < MAX_PIECE }
    ensures some { 0 < result }
    ensures few { result ≤ MAX_PIECE }
    ensures within { MayTake expected least line.now result }
{
    let held = line.len();
    let shortest = match expected {
        Expected::Any => least,
        Expected::EntryOrEnd => least + ENTRY_OVER_END,
    };
    if held < least && may_end(expected, line) {
        least - held
    } else if held < shortest {
        min(shortest - held + least, MAX_PIECE)
    } else {
        1 + least
    }
}

// Whether the last line of a text may begin so.
fn may_end(expected: Expected, line: &[u8]) -> bool
    ensures { IsFalse result → ¬ MayEnd expected line.now }
{
    match (expected, line) {
        (Expected::EntryOrEnd, [first, ..]) => *first == b'e',
        (Expected::EntryOrEnd | Expected::Any, _) => true,
    }
}

// Whether the last byte ends a line.
fn ends_line(bytes: &[u8]) -> bool
    requires { 0 < length bytes.now }
    ensures { result ≡ nat_eq (get_or bytes.now (length bytes.now - 1) 0) 10 }
{
    bytes[bytes.len() - 1] == b'\n'
}
