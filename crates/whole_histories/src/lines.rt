//! The lines of a text.
ghost use Rattle.history_text.specs.Lines.{BeginsWithLine};

use memchr::memchr;

/// The first line of a text with its line end, and the text behind it. Where no line ends, it is the
/// whole text.
pub fn next_line(text: &[u8]) -> (&[u8], &[u8])
    ensures { BeginsWithLine text.now result.0.now result.1.now }
{
    match memchr(b'\n', text) {
        Some(end) => text.split_at(end + 1),
        None => (text, &[]),
    }
}
