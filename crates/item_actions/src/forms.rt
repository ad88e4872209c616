//! The form of a file's name.
ghost use Rattle.std.specs.Prelude.{◌≡◌};
ghost use Rattle.item_actions.specs.Forms.{is_file_byte, is_file_name};

use crate::limits::MAX_FILE_NAME_BYTES;

// What has been seen of a part of a file's name. With `.` or `..` alone it names nothing of its own.
#[derive(Clone, Copy)]
enum NamePart {
    Empty,
    OneDot,
    TwoDots,
    Name,
}

// Whether the byte can stand in a file's name.
fn is_file_byte(b: u8) -> bool
    ensures { result ≡ is_file_byte b }
{
    matches!(b, b'a'..=b'z' | b'A'..=b'Z' | b'0'..=b'9' | b'_' | b'-' | b'.' | b'/')
}

/// Whether the bytes have the form of a file's name: 1 to 255 bytes, each an ASCII letter, a digit, `_`,
/// `-`, `.` or `/`. Split at `/`, no part is empty, `.` or `..`.
pub fn is_file_name(bytes: &[u8]) -> bool
    ensures { result ≡ is_file_name bytes.now }
{
    if MAX_FILE_NAME_BYTES < bytes.len() {
        return false;
    }
    let mut part = NamePart::Empty;
    for byte in bytes {
        // Most bytes of names are small letters, so these are tested first.
        part = match *byte {
            letter if letter.is_ascii_lowercase() => NamePart::Name,
            b'.' => match part {
                NamePart::Empty => NamePart::OneDot,
                NamePart::OneDot => NamePart::TwoDots,
                NamePart::TwoDots | NamePart::Name => NamePart::Name,
            },
            b'/' => match part {
                NamePart::Name => NamePart::Empty,
                _ => return false,
            },
            other if is_file_byte(other) => NamePart::Name,
            _ => return false,
        };
    }
    matches!(part, NamePart::Name)
}
