//! The text of a history, a line at a time.
ghost use Rattle.std.specs.Prelude.{◌≡◌, ◌≢◌, ◌≤◌, ◌<◌, ◌+◌, IfErr, IfOk, List, false, length, slice_get, true, ℕ};
ghost use Rattle.file_access.specs.PageView.{Adds};
ghost use Rattle.file_access.specs.SinkView.{Prints};
ghost use Rattle.wakhurmi_c.specs.Numbers.{answer_of};
ghost use Rattle.wakhurmi_c.specs.Taken.{taken_text};
ghost use Rattle.wakhurmi_c.specs.Texts.{IsWritten, WhyUnwritten, kept_text, line_behind, line_of};
ghost use Rattle.wakhurmi_c.specs.declared.answers.Answer.TheVariants as answers;

use crate::answers::Answer;
use crate::book_handles::BookHandle;
use crate::part_handles::PartHandle;
use crate::taken_parts::TakenPart;
use file_access::{Failed, Page, Sink};
use history_text::{write_end, write_entry, write_head, write_head_lines};
use lock_journal::{Book, Segment};
use memory_files::MemorySink;
use std::alloc::Global;

/// What has lines of a history's text.
trait Lines {
    /// The lines from 0 on. Behind the last there is nothing.
    ghost lines_of: { Self → ℕ → List ℕ };

    /// Writes a line.
    fn write_line<K: Sink>(&self, place: u64, page: &mut Page, sink: &mut K)
        ensures { Adds (K.seen sink.old) page.old (K.seen sink.new) page.new (lines_of self.now place) };
}

impl Lines for Book {
    ghost lines_of = { kept_text };

    fn write_line<K: Sink>(&self, place: u64, page: &mut Page, sink: &mut K) {
        if self.given() > 0 {
            write_behind(self, place, page, sink);
        } else if place == 0 {
            write_head(self, true, page, sink);
        } else {
            write_behind(self, place - 1, page, sink);
        }
    }
}

impl Lines for TakenPart {
    ghost lines_of = { taken_text };

    fn write_line<K: Sink>(&self, place: u64, page: &mut Page, sink: &mut K) {
        let segment = &self.segment;
        if segment.len() == 0 {
            page.text(sink, b"");
        } else if segment.before() > 0 {
            write_taken(segment, place, page, sink);
        } else if place == 0 {
            write_head_lines(self.workers, self.max_leases, true, self.locks, page, sink);
        } else {
            write_taken(segment, place - 1, page, sink);
        }
    }
}

/// Writes what stands behind the head and the entries that a book gave away: a line for each other entry, then the end. Behind the end nothing
/// comes.
fn write_behind<K: Sink>(book: &Book, place: u64, page: &mut Page, sink: &mut K)
    ensures { Adds (K.seen sink.old) page.old (K.seen sink.new) page.new (line_behind book.now (book.now.given + place)) }
{
    let given = book.given();
    let kept = book.len() - given;
    if place < kept {
        let place = given + place;
        write_entry(place + 1, &book.entry(place), page, sink);
    } else if place == kept {
        write_end(book, page, sink);
    } else {
        page.text(sink, b"");
    }
}

/// Writes the line of an entry of a part. Behind the last nothing comes.
fn write_taken<K: Sink>(segment: &Segment, place: u64, page: &mut Page, sink: &mut K)
    ensures { Adds (K.seen sink.old) page.old (K.seen sink.new) page.new
        (line_of (segment.now.before + place + 1) (slice_get segment.now.entries place)) }
{
    let before = segment.before();
    if place < segment.end() - before {
        write_entry(before + place + 1, &segment.entry(place), page, sink);
    } else {
        page.text(sink, b"");
    }
}

/// Prints a line.
fn print_line<T: Lines, K: Sink>(text: &T, place: u64, sink: &mut K) -> Result<(), Failed>
    ensures { Prints (K.seen sink.old) (K.seen sink.new) (T.lines_of text.now place) result }
{
    let mut page = Page::new();
    text.write_line(place, &mut page, sink);
    page.end(sink)
}

/// The bytes of a line, where they are at most so many.
fn bytes_of<T: Lines>(
    alloc: Global,
    text: &T,
    place: u64,
    most: usize,
) -> Result<MemorySink, Answer>
    ensures bytes { IfOk result (λ sink. sink.bytes ≡ T.lines_of text.now place) }
    ensures fits { IfOk result (λ sink. length sink.bytes ≤ most) }
    ensures why { IfErr result (WhyUnwritten most (T.lines_of text.now place)) }
{
    // With one byte more than the buffer has, a line that doesn't fit is known by its length.
    let Ok(mut sink) = MemorySink::limited(alloc, (most as u64).saturating_add(1)) else {
        return Err(Answer::NoMemory);
    };
    let printed = print_line(text, place, &mut sink);
    if sink.taken().len() > most {
        return Err(Answer::BadNumber);
    }
    match printed {
        Ok(()) => Ok(sink),
        Err(Failed) => Err(Answer::NoMemory),
    }
}

/// Copies a text to the front of a buffer.
fn copy_to(buffer: &mut [u8], text: &[u8]) -> usize
    requires { length text.now ≤ length buffer.old }
    ensures { IsWritten text.now buffer.old buffer.new result }
{
    let count = text.len();
    buffer[..count].copy_from_slice(text);
    count
}

/// Writes a line to the front of a buffer, and says how many bytes it has.
fn write_to<T: Lines>(
    alloc: Global,
    text: &T,
    place: u64,
    buffer: &mut [u8],
) -> Result<usize, Answer>
    ensures written { IfOk result (IsWritten (T.lines_of text.now place) buffer.old buffer.new) }
    ensures why { IfErr result (WhyUnwritten (length buffer.old) (T.lines_of text.now place)) }
    ensures kept { IfErr result (λ _. buffer.new ≡ buffer.old) }
{
    let line = bytes_of(alloc, text, place, buffer.len())?;
    Ok(copy_to(buffer, line.taken()))
}

/// Writes a line of the text of a finished service's history to the front of a buffer, and how many bytes it has: line 0 is the head,
/// then comes a line for each entry, then the end. Where entries were taken while the service ran, its lines begin behind theirs. Behind the
/// end a line has no bytes. A line that doesn't fit answers `BadNumber`.
#[unsafe(no_mangle)]
pub extern "C" fn wakhurmi_c_history(
    alloc: Global,
    book: &mut BookHandle,
    place: u64,
    buffer: &mut [u8],
    written: &mut usize,
) -> u32
    ensures full { book.new.full ≡ book.old.full }
    ensures book { book.old.full ≡ true → book.new.held.book ≡ book.old.held.book }
    ensures empty { book.old.full ≡ false → answer_of result ≡ answers.Empty }
    ensures done { answer_of result ≡ answers.Done → IsWritten (kept_text book.old.held.book place) buffer.old buffer.new written.new }
    ensures why { book.old.full ≡ true → answer_of result ≢ answers.Done
        → WhyUnwritten (length buffer.old) (kept_text book.old.held.book place) (answer_of result) }
    ensures kept { answer_of result ≢ answers.Done → buffer.new ≡ buffer.old }
    ensures count_kept { answer_of result ≢ answers.Done → written.new ≡ written.old }
{
    if !book.full {
        return Answer::Empty.number();
    }
    let boxed = book.take(alloc);
    let text: &Book = &boxed;
    let result = write_to(alloc, text, place, buffer);
    *book = BookHandle::of(boxed);
    match result {
        Ok(count) => {
            *written = count;
            Answer::Done.number()
        }
        Err(answer) => answer.number(),
    }
}

/// The same of a part of a history: its entries' lines, numbered on from those before, and before the first entry of all the head. A part
/// without entries has no lines.
#[unsafe(no_mangle)]
pub extern "C" fn wakhurmi_c_part(
    alloc: Global,
    part: &mut PartHandle,
    place: u64,
    buffer: &mut [u8],
    written: &mut usize,
) -> u32
    ensures full { part.new.full ≡ part.old.full }
    ensures part { part.old.full ≡ true → part.new.held.taken ≡ part.old.held.taken }
    ensures empty { part.old.full ≡ false → answer_of result ≡ answers.Empty }
    ensures done { answer_of result ≡ answers.Done → IsWritten (taken_text part.old.held.taken place) buffer.old buffer.new written.new }
    ensures why { part.old.full ≡ true → answer_of result ≢ answers.Done
        → WhyUnwritten (length buffer.old) (taken_text part.old.held.taken place) (answer_of result) }
    ensures kept { answer_of result ≢ answers.Done → buffer.new ≡ buffer.old }
    ensures count_kept { answer_of result ≢ answers.Done → written.new ≡ written.old }
{
    if !part.full {
        return Answer::Empty.number();
    }
    let boxed = part.take(alloc);
    let text: &TakenPart = &boxed;
    let result = write_to(alloc, text, place, buffer);
    *part = PartHandle::of(boxed);
    match result {
        Ok(count) => {
            *written = count;
            Answer::Done.number()
        }
        Err(answer) => answer.number(),
    }
}
