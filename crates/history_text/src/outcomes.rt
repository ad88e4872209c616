ghost use Rattle.std.specs.Prelude.{◌≡◌, ◌<◌, ◌++◌, decimal, false};
ghost use Rattle.std.specs.List.{flat_map};
ghost use Rattle.std.specs.Fmt.{digit_glyph};
ghost use Rattle.file_access.specs.PageView.{Adds};
ghost use Rattle.history_text.specs.Text.{hex_text, outcome_text};
ghost use Rattle.history_text.specs.Results.{value_text};

use file_access::{Page, Sink};
use item_actions::Outcome;

/// Writes an outcome as the history text spells it: its word, and a value where it has one.
pub fn write_outcome<K: Sink>(outcome: &Outcome, page: &mut Page, sink: &mut K)
    ensures { Adds (K.seen sink.old) page.old (K.seen sink.new) page.new (outcome_text outcome.now) }
{
    page.text(sink, outcome.kind().word().as_bytes());
    match outcome {
        Outcome::Number(number) => {
            page.text(sink, b" ");
            page.number(sink, *number);
        }
        Outcome::Digest(digest) => {
            page.text(sink, b" ");
            write_digest(digest, page, sink);
        }
        Outcome::NotThere
        | Outcome::TooLong
        | Outcome::Fault
        | Outcome::NoMemory
        | Outcome::Skipped => {}
    }
}

/// Writes an outcome as the results text spells it: its value, or a phrase where it has none.
pub(crate) fn write_value<K: Sink>(outcome: &Outcome, page: &mut Page, sink: &mut K)
    ensures { Adds (K.seen sink.old) page.old (K.seen sink.new) page.new (value_text outcome.now) }
{
    match outcome {
        Outcome::Number(number) => page.number(sink, *number),
        Outcome::Digest(digest) => write_digest(digest, page, sink),
        Outcome::NotThere
        | Outcome::TooLong
        | Outcome::Fault
        | Outcome::NoMemory
        | Outcome::Skipped => page.text(sink, outcome.kind().phrase().as_bytes()),
    }
}

// Writes a digest as hexadecimal digits, byte by byte, each inlined to two bytes: one call for all would need an array of 64 digits,
// filled by a loop with a proof of its own.
fn write_digest<K: Sink>(digest: &[u8; 32], page: &mut Page, sink: &mut K)
    ensures { Adds (K.seen sink.old) page.old (K.seen sink.new) page.new (flat_map hex_text digest.now) }
{
    for byte in digest {
        let digits = [hex_digit(byte / 16), hex_digit(byte % 16)];
        page.text(sink, &digits);
    }
}

// The lower-case hexadecimal digit of a number below 16.
fn hex_digit(digit: u8) -> u8
    requires { digit < 16 }
    ensures { result ≡ digit_glyph false digit }
{
    if digit < 10 {
        b'0' + digit
    } else {
        b'a' + (digit - 10)
    }
}
