//! Numbers in words.
ghost use Rattle.command_words.specs.Numbers.{parsed_count, in_bounds, is_numeral, seed_of, value_of};
ghost use Rattle.std.specs.Char.{is_ascii_digit};
ghost use Rattle.std.specs.List.{list_all};
ghost use Rattle.std.specs.Prelude.{IfSome, ◌≡◌, ◌≤◌};

/// The most digits of a number of threads or of leases.
const MAX_COUNT_DIGITS: usize = 10;

/// The most digits of the number that a plan is made from.
const MAX_SEED_DIGITS: usize = 20;

/// The greatest number of threads, and of leases.
pub const MAX_COUNT: u32 = 32;

// Whether each byte is a decimal digit.
fn are_digits(bytes: &[u8]) -> bool
    ensures { result ≡ list_all is_ascii_digit bytes.now }
{
    bytes.iter().all(|b| b.is_ascii_digit())
}

// Whether the text is 1 to `max_digits` decimal digits.
fn is_numeral(text: &str, max_digits: usize) -> bool
    ensures { result ≡ is_numeral max_digits text.now }
{
    1 <= text.len() && text.len() <= max_digits && are_digits(text.as_bytes())
}

// The number below 2^64 that a text writes with digits, at least one and not too many.
fn value_of(text: &str, max_digits: usize) -> Option<u64>
    ensures { result ≡ value_of max_digits text.now }
{
    if is_numeral(text, max_digits) {
        text.parse::<u64>().ok()
    } else {
        None
    }
}

// The count, where it is 1 to `MAX_COUNT`.
fn in_bounds(value: u64) -> Option<u32>
    ensures value { result ≡ in_bounds value }
    ensures some { IfSome result (λ n. 1 ≤ n) }
    ensures few { IfSome result (λ n. n ≤ MAX_COUNT) }
{
    if 1 <= value && value <= MAX_COUNT as u64 {
        Some(value as u32)
    } else {
        None
    }
}

/// The number, 1 to `MAX_COUNT`, that a text writes with 1 to `MAX_COUNT_DIGITS` digits.
pub(crate) fn parsed_count(text: &str) -> Option<u32>
    ensures value { result ≡ parsed_count text.now }
    ensures some { IfSome result (λ n. 1 ≤ n) }
    ensures few { IfSome result (λ n. n ≤ MAX_COUNT) }
{
    let value = value_of(text, MAX_COUNT_DIGITS)?;
    in_bounds(value)
}

/// The number below 2^64 that a text writes with 1 to `MAX_SEED_DIGITS` digits.
pub(crate) fn seed_of(text: &str) -> Option<u64>
    ensures { result ≡ seed_of text.now }
{
    value_of(text, MAX_SEED_DIGITS)
}
