//! The forms of the texts of a plan.
ghost use Rattle.std.specs.Prelude.{◌≡◌, not};
ghost use Rattle.std.specs.List.{list_all};
ghost use Rattle.plan_table.specs.Forms.{is_name_byte, has_length, has_byte, is_name, is_needle, is_executable, is_encoding, is_value, is_key};

use item_actions::MAX_NEEDLE_BYTES;

/// The most bytes of a name.
const MAX_NAME_BYTES: usize = 64;

/// The most bytes of an encoding.
const MAX_ENCODING_BYTES: usize = 64;

/// The most bytes of an executable, of an argument, and of a property's or variable's name and value.
const MAX_TEXT_BYTES: usize = 255;

// A byte of a name, and another byte.
const NB: bool = true;

// A byte that can't stand in a name.
const NO: bool = false;

// Whether each byte can stand in a name. Looking that up takes fewer steps than comparing.
static NAME_BYTES: [bool; 256] = [
    NO, NO, NO, NO, NO, NO, NO, NO, NO, NO, NO, NO, NO, NO, NO, NO, NO, NO, NO, NO, NO, NO, NO, NO,
    NO, NO, NO, NO, NO, NO, NO, NO, NO, NO, NO, NO, NO, NO, NO, NO, NO, NO, NO, NO, NO, NB, NB, NO,
    NB, NB, NB, NB, NB, NB, NB, NB, NB, NB, NB, NO, NO, NO, NO, NO, NO, NB, NB, NB, NB, NB, NB, NB,
    NB, NB, NB, NB, NB, NB, NB, NB, NB, NB, NB, NB, NB, NB, NB, NB, NB, NB, NB, NO, NO, NO, NO, NB,
    NO, NB, NB, NB, NB, NB, NB, NB, NB, NB, NB, NB, NB, NB, NB, NB, NB, NB, NB, NB, NB, NB, NB, NB,
    NB, NB, NB, NO, NO, NO, NO, NO, NO, NO, NO, NO, NO, NO, NO, NO, NO, NO, NO, NO, NO, NO, NO, NO,
    NO, NO, NO, NO, NO, NO, NO, NO, NO, NO, NO, NO, NO, NO, NO, NO, NO, NO, NO, NO, NO, NO, NO, NO,
    NO, NO, NO, NO, NO, NO, NO, NO, NO, NO, NO, NO, NO, NO, NO, NO, NO, NO, NO, NO, NO, NO, NO, NO,
    NO, NO, NO, NO, NO, NO, NO, NO, NO, NO, NO, NO, NO, NO, NO, NO, NO, NO, NO, NO, NO, NO, NO, NO,
    NO, NO, NO, NO, NO, NO, NO, NO, NO, NO, NO, NO, NO, NO, NO, NO, NO, NO, NO, NO, NO, NO, NO, NO,
    NO, NO, NO, NO, NO, NO, NO, NO, NO, NO, NO, NO, NO, NO, NO, NO,
];

// Whether the byte can stand in a name.
fn is_name_byte(byte: u8) -> bool
    ensures { result ≡ is_name_byte byte }
{
    NAME_BYTES[byte as usize]
}

// Looks at each byte, since nearly always all of them are of names, and a loop with one way out is faster.
fn are_name_bytes(bytes: &[u8]) -> bool
    ensures { result ≡ list_all is_name_byte bytes.now }
{
    let mut are = true;
    for byte in bytes {
        are &= is_name_byte(*byte);
    }
    are
}

// Whether there are at least and at most so many bytes.
fn has_length(bytes: &[u8], least: usize, most: usize) -> bool
    ensures { result ≡ has_length least most bytes.now }
{
    least <= bytes.len() && bytes.len() <= most
}

// Whether the byte stands among the bytes.
fn has_byte(bytes: &[u8], b: u8) -> bool
    ensures { result ≡ has_byte b bytes.now }
{
    bytes.contains(&b)
}

/// Whether the bytes have the form of a name: 1 to 64 bytes, each an ASCII letter, a digit, `_`, `-`, `.` or `:`.
pub(crate) fn is_name(bytes: &[u8]) -> bool
    ensures { result ≡ is_name bytes.now }
{
    has_length(bytes, 1, MAX_NAME_BYTES) && are_name_bytes(bytes)
}

/// Whether the bytes have the form of a needle: 1 to 64 bytes, a zero byte among them or not.
pub(crate) fn is_needle(bytes: &[u8]) -> bool
    ensures { result ≡ is_needle bytes.now }
{
    has_length(bytes, 1, MAX_NEEDLE_BYTES)
}

/// Whether the bytes have the form of an executable: 1 to 255 bytes, none of them zero.
pub(crate) fn is_executable(bytes: &[u8]) -> bool
    ensures { result ≡ is_executable bytes.now }
{
    has_length(bytes, 1, MAX_TEXT_BYTES) && !has_byte(bytes, 0)
}

/// Whether the bytes have the form of an encoding: 1 to 64 bytes, none of them zero.
pub(crate) fn is_encoding(bytes: &[u8]) -> bool
    ensures { result ≡ is_encoding bytes.now }
{
    has_length(bytes, 1, MAX_ENCODING_BYTES) && !has_byte(bytes, 0)
}

/// Whether the bytes have the form of an argument, or of the value of a property or variable: 0 to 255 bytes,
/// none of them zero.
pub(crate) fn is_value(bytes: &[u8]) -> bool
    ensures { result ≡ is_value bytes.now }
{
    has_length(bytes, 0, MAX_TEXT_BYTES) && !has_byte(bytes, 0)
}

/// Whether the bytes have the form of a property's or variable's name: 1 to 255 bytes, none of them zero or `=`.
pub(crate) fn is_key(bytes: &[u8]) -> bool
    ensures { result ≡ is_key bytes.now }
{
    has_length(bytes, 1, MAX_TEXT_BYTES) && !has_byte(bytes, 0) && !has_byte(bytes, b'=')
}
