//! Sinks, sources and files in memory, and pages.
use file_access::{
    AheadSource, DeskFail, Files, Page, Read, Source, StdSink, StdSource, put_all, work_out,
};
use item_actions::{ItemAction, Outcome, Text};
use memory_files::{FileEntry, FileMap, MemoryFiles, MemorySink, MemorySource};
use std::alloc::{AllocError, Global};
use std::io;
use std::io::{ErrorKind, Write};

/// A sink of so much room, whose calls of these numbers fail.
pub fn sink(alloc: Global, room: u64, failing: &[u64]) -> Result<Box<MemorySink>, AllocError> {
    let failing = failing.to_vec(alloc)?;
    Ok(Box::new(alloc, MemorySink::new(alloc, room, failing)?)?)
}

/// The room of a sink and its calls that fail, pieces and whether it takes each, and what it took with how many faults.
type SinkRow = (
    u64,
    &'static [u64],
    &'static [(&'static [u8], bool)],
    &'static [u8],
    u64,
);

/// A sink of ten bytes takes the first ten of an alphabet; the second call alone fails.
static SINKS: [SinkRow; 2] = [
    (
        10,
        &[],
        &[(b"abcd", true), (b"efghijklmnopqrstuvwxyz", false)],
        b"abcdefghij",
        1,
    ),
    (
        100,
        &[1],
        &[(b"abc", true), (b"def", false), (b"ghi", true)],
        b"abcghi",
        1,
    ),
];

// Whether the sink took these bytes with so many faults.
fn took(sink: &MemorySink, bytes: &[u8], faults: u64) -> bool {
    sink.taken() == bytes && sink.count() == faults
}

// Whether a sink takes each of the pieces or doesn't.
fn takes_pieces(sink: &mut MemorySink, pieces: &[(&[u8], bool)]) -> bool {
    for (piece, is_taken) in pieces {
        if put_all(sink, piece).is_ok() != *is_taken {
            return false;
        }
    }
    true
}

#[test]
fn sinks_take_what_there_is_room_for_and_no_failing_call(
    rt: HostRuntime,
) -> Result<(), AllocError> {
    for (room, failing, pieces, bytes, faults) in &SINKS {
        let mut sink = sink(rt.alloc(), *room, failing)?;
        assert!(rt; takes_pieces(&mut *sink, pieces) && took(&sink, bytes, *faults));
    }
    Ok(())
}

// Whether a page ends in a failure that tells more than a sink of 5,000 bytes takes.
fn tells_too_much(sink: &mut MemorySink) -> bool {
    let mut page = Page::new();
    for number in 0..2000u64 {
        page.number(sink, number % 10);
        page.text(sink, b"..");
    }
    page.end(sink).is_err() && sink.taken().len() == 5000 && sink.taken().ends_with(b"5..6.")
}

// Whether a number of more than 64 bits is told.
fn tells_a_wide_number(sink: &mut MemorySink) -> bool {
    let mut page = Page::new();
    page.number128(sink, 18446744073709551616);
    page.end(sink).is_ok() && took(sink, b"18446744073709551616", 0)
}

#[test]
fn pages_tell_more_than_a_sink_takes_and_wide_numbers(rt: HostRuntime) -> Result<(), AllocError> {
    let mut short = sink(rt.alloc(), 5000, &[])?;
    assert!(rt; tells_too_much(&mut short));
    let mut long = sink(rt.alloc(), 100, &[])?;
    assert!(rt; tells_a_wide_number(&mut long));
    Ok(())
}

/// Takes of a source of seven bytes, of which the second fails alone: how many bytes each gives to a buffer of four, what stands
/// there afterwards, and how many calls have failed.
static TAKES: [(Option<usize>, &[u8], u64); 4] = [
    (Some(4), b"abcd", 0),
    (None, b"abcd", 1),
    (Some(3), b"efgd", 1),
    (Some(0), b"efgd", 1),
];

fn gives_seven(source: &mut MemorySource) -> bool {
    let mut buffer = [0u8; 4];
    for (count, left, faults) in &TAKES {
        let taken = source.take(&mut buffer).ok();
        if taken != *count || buffer.as_slice() != *left || source.count() != *faults {
            return false;
        }
    }
    true
}

#[test]
fn second_call_of_a_source_fails(rt: HostRuntime) -> Result<(), AllocError> {
    let bytes = b"abcdefg".to_vec(rt.alloc())?;
    let failing = [1].to_vec(rt.alloc())?;
    assert!(rt; gives_seven(&mut MemorySource::new(bytes, failing)));
    Ok(())
}

/// A call of a source whose lines are read ahead.
#[derive(Clone, Copy)]
enum Call {
    /// It may give so many bytes ahead, and gives these.
    Ahead(usize, &'static [u8]),
    /// A plain call with a buffer of two bytes gives these.
    Plain(&'static [u8]),
}

/// Texts, and the calls of a source over each: lines of several lengths, a line that is begun by a plain call, and a reader that
/// shows one byte, which is read plainly.
static AHEAD: [(&[u8], &[Call]); 3] = [
    (
        b"ab\ncd\n\nefgh",
        &[
            Call::Ahead(100, b"ab\n"),
            Call::Ahead(1, b"c"),
            Call::Ahead(0, b""),
            Call::Ahead(2, b"d\n"),
            Call::Ahead(100, b"\n"),
            Call::Ahead(3, b"efg"),
            Call::Ahead(100, b"h"),
        ],
    ),
    (
        b"abc\n",
        &[
            Call::Plain(b"ab"),
            Call::Ahead(10, b"c\n"),
            Call::Ahead(10, b""),
        ],
    ),
    (b"a", &[Call::Ahead(10, b""), Call::Plain(b"a")]),
];

// Whether a source puts these bytes behind a line where it may put so many.
fn gives_ahead<S: Source>(alloc: Global, source: &mut S, most: usize, bytes: &[u8]) -> bool {
    let Ok(mut line) = b"> ".to_vec(alloc) else {
        return false;
    };
    match source.take_ahead(&mut line, most) {
        Ok(count) => {
            count == bytes.len()
                && line.len() == 2 + count
                && line.starts_with(b"> ")
                && line.ends_with(bytes)
        }
        Err(_) => false,
    }
}

// Whether a plain call gives these bytes.
fn gives_plainly<S: Source>(source: &mut S, bytes: &[u8]) -> bool {
    let mut buffer = [0u8; 2];
    match source.take(&mut buffer) {
        Ok(count) => count == bytes.len() && buffer.starts_with(bytes),
        Err(_) => false,
    }
}

// Whether a source answers the calls as it has to.
fn answers<S: Source>(alloc: Global, source: &mut S, calls: &[Call]) -> bool {
    for call in calls {
        let is_right = match call {
            Call::Ahead(most, bytes) => gives_ahead(alloc, source, *most, bytes),
            Call::Plain(bytes) => gives_plainly(source, bytes),
        };
        if !is_right {
            return false;
        }
    }
    true
}

#[test]
fn lines_are_read_ahead(rt: HostRuntime) {
    for (text, calls) in &AHEAD {
        assert!(rt; answers(rt.alloc(), &mut AheadSource::new(*text), calls));
    }
}

// A file of the name a, whose reads of these numbers fail.
fn files(alloc: Global, bytes: &[u8], failing: &[u64]) -> Result<Box<MemoryFiles>, AllocError> {
    let failing = failing.to_vec(alloc)?;
    let files = one_file(alloc, bytes)?;
    Ok(Box::new(alloc, MemoryFiles::new(alloc, files, failing)?)?)
}

fn one_file(alloc: Global, bytes: &[u8]) -> Result<FileMap, AllocError> {
    let name = Text::from_str(alloc, "a")?;
    let bytes = bytes.to_vec(alloc)?;
    let entries = vec![in alloc; FileEntry { name, bytes }]?;
    Ok(FileMap::new(entries))
}

/// What a read answers.
#[derive(Clone, Copy)]
pub enum Answer<'a> {
    Bytes(&'a [u8]),
    NotThere,
    TooLong,
    Failed,
}

// Whether a read answers this.
fn is_answer(read: &Result<Read, DeskFail>, answer: Answer<'_>) -> bool {
    match (read, answer) {
        (Ok(Read::Bytes(bytes)), Answer::Bytes(expected)) => bytes.as_bytes() == expected,
        (Ok(Read::NotThere), Answer::NotThere)
        | (Ok(Read::TooLong), Answer::TooLong)
        | (Err(DeskFail::Failed), Answer::Failed) => true,
        _ => false,
    }
}

/// A name, the limit of a read of it, and what the read answers.
pub type ReadRow<'a> = (&'a str, u64, Answer<'a>);

/// Whether a read of the name answers this. Want of memory fails a test.
pub fn reads<F: Files>(alloc: Global, desk: &mut F, row: &ReadRow<'_>) -> bool {
    let (name, limit, answer) = *row;
    match Text::from_str(alloc, name) {
        Ok(name) => is_answer(&desk.read(alloc, &name, limit), answer),
        Err(_) => false,
    }
}

/// Reads of a file of three bytes.
static READS: [ReadRow<'static>; 3] = [
    ("a", 3, Answer::Bytes(b"\x01\x02\x03")),
    ("a", 2, Answer::TooLong),
    ("b", 3, Answer::NotThere),
];

/// Whether all these reads answer as they have to.
pub fn all_read<F: Files>(alloc: Global, desk: &mut F, rows: &[ReadRow<'_>]) -> bool {
    for row in rows {
        if !reads(alloc, desk, row) {
            return false;
        }
    }
    true
}

// Whether the first three reads answer, and the fourth fails and is counted.
fn fails_fourth(alloc: Global, desk: &mut MemoryFiles) -> bool {
    all_read(alloc, desk, &READS)
        && desk.count() == 0
        && reads(alloc, desk, &("a", 3, Answer::Failed))
        && desk.count() == 1
}

/// What the lines of a file give by its name, where the third read fails.
static LINES: [(&str, Outcome); 4] = [
    ("a", Outcome::Number(2)),
    ("b", Outcome::NotThere),
    ("a", Outcome::Fault),
    ("a", Outcome::Number(2)),
];

// Whether the lines of the files give these.
fn gives_all(alloc: Global, desk: &mut MemoryFiles) -> Result<bool, AllocError> {
    for (name, expected) in &LINES {
        let name = Text::from_str(alloc, name)?;
        if work_out(alloc, &ItemAction::Lines, &name, desk) != *expected {
            return Ok(false);
        }
    }
    Ok(desk.count() == 1)
}

#[test]
fn files_in_memory_are_read_and_items_worked_out_on_them(
    rt: HostRuntime,
) -> Result<(), AllocError> {
    let mut read = files(rt.alloc(), &[1, 2, 3], &[3])?;
    assert!(rt; fails_fourth(rt.alloc(), &mut read));
    let mut worked = files(rt.alloc(), b"one\ntwo\n", &[2])?;
    assert!(rt; gives_all(rt.alloc(), &mut worked)?);
    Ok(())
}

/// A reader and writer whose first calls are interrupted.
#[derive(Drop)]
struct Interrupted {
    left: u32,
}

impl Interrupted {
    fn interrupt(&mut self) -> io::Result<()> {
        if self.left > 0 {
            self.left -= 1;
            return Err(io::Error::from(ErrorKind::Interrupted));
        }
        Ok(())
    }
}

impl Write for Interrupted {
    fn write(&mut self, piece: &[u8]) -> io::Result<usize> {
        self.interrupt()?;
        Ok(piece.len())
    }

    fn flush(&mut self) -> io::Result<()> {
        Ok(())
    }
}

impl io::Read for Interrupted {
    fn read(&mut self, buffer: &mut [u8]) -> io::Result<usize> {
        self.interrupt()?;
        buffer.fill(b'x');
        Ok(buffer.len())
    }
}

// Whether a source gives two bytes after so many interruptions, and how many of its calls failed.
fn takes_after(left: u32) -> (bool, u64) {
    let mut buffer = [0u8; 2];
    let mut source = StdSource::new(Interrupted { left });
    let taken = matches!(source.take(&mut buffer), Ok(2)) && buffer == *b"xx";
    (taken, source.count())
}

// Whether a sink takes a piece after so many interruptions, and how many of its calls failed.
fn puts_after(left: u32) -> (bool, u64) {
    let mut sink = StdSink::new(Interrupted { left });
    (put_all(&mut sink, b"abc").is_ok(), sink.count())
}

#[test]
fn interrupted_reads_and_writes_are_made_again_a_thousand_times(rt: HostRuntime) {
    assert!(rt; takes_after(1000) == (true, 0) && takes_after(1001) == (false, 1));
    assert!(rt; puts_after(1000) == (true, 0) && puts_after(1001) == (false, 1));
}
