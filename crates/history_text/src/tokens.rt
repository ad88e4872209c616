ghost use Rattle.std.specs.Prelude.{◌≡◌, ◌+◌, ◌^◌, ◌≤◌, decimal, IfSome};
ghost use Rattle.std.specs.Option.{option_map};
ghost use Rattle.history_text.specs.Reading.{after, number_after, number_at};

use itoa::Buffer;

/// The text after a word.
pub(crate) fn text_after<'a>(text: &'a [u8], word: &[u8]) -> Option<&'a [u8]>
    ensures { option_map (λ r. r.now) result ≡ after word.now text.now }
{
    let mut rest = text;
    let mut left = word;
    while let [b, more @ ..] = left {
        match rest {
            [c, after @ ..] if b == c => {
                rest = after;
                left = more;
            }
            _ => return None,
        }
    }
    Some(rest)
}

/// The text after the digits of a number.
pub(crate) fn text_after_number(text: &[u8], number: u64) -> Option<&[u8]>
    ensures { option_map (λ r. r.now) result ≡ after (decimal number) text.now }
{
    let mut digits = Buffer::new();
    text_after(text, digits.format(number).as_bytes())
}

/// A table of words: returns the value of the first of them that the text begins with, and the text after it. What
/// is read behind a word may be part of its value. It is a macro, since a static table holds no function, and most values are made of
/// the number behind the word.
macro_rules! by_word {
    ($text:ident: $($word:literal $($read:ident($value:ident))? => $made:expr,)+) => {
        $(
            if let Some(rest) = $crate::tokens::text_after($text, $word) {
                $(let ($value, rest) = $read(rest)?;)?
                return Some(($made, rest));
            }
        )+
    };
}

pub(crate) use by_word;

// Reads the digits behind the first one of a number that is `last` at most, and gives the number and what follows.
fn read_digits(text: &[u8], first: u64, last: u64) -> Option<(u64, &[u8])>
    requires { first ≤ last }
    ensures reads { option_map (λ x. (x.0, x.1.now)) result ≡ number_after (last + 1) first text.now }
    ensures below { IfSome result (λ x. x.0 ≤ last) }
{
    let mut rest = text;
    let mut number = first;
    while let [c @ b'0'..=b'9', more @ ..] = rest {
        let digit = u64::from(*c - b'0');
        if number > (u64::MAX - digit) / 10 || number * 10 + digit > last {
            return None;
        }
        number = number * 10 + digit;
        rest = more;
    }
    Some((number, rest))
}

/// A number up to the last, without leading zeros, and the text after it.
pub(crate) fn read_number(text: &[u8], last: u64) -> Option<(u64, &[u8])>
    requires { 9 ≤ last }
    ensures below { IfSome result (λ x. x.0 ≤ last) }
    ensures reads { option_map (λ x. (x.0, x.1.now)) result ≡ number_at (last + 1) text.now }
{
    match text {
        [b'0', b'0'..=b'9', ..] => None,
        [b'0', rest @ ..] => Some((0, rest)),
        [c @ b'1'..=b'9', rest @ ..] => read_digits(rest, u64::from(*c - b'0'), last),
        _ => None,
    }
}

/// A number of 32 bits.
pub(crate) fn read_short(text: &[u8]) -> Option<(u32, &[u8])>
    ensures { option_map (λ x. (x.0, x.1.now)) result ≡ number_at (2 ^ 32) text.now }
{
    let (number, rest) = read_number(text, u64::from(u32::MAX))?;
    Some((number as u32, rest))
}

/// A number of 64 bits.
pub(crate) fn read_long(text: &[u8]) -> Option<(u64, &[u8])>
    ensures { option_map (λ x. (x.0, x.1.now)) result ≡ number_at (2 ^ 64) text.now }
{
    read_number(text, u64::MAX)
}
