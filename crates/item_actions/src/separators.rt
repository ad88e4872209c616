//! The bytes that end lines and stand between words.
ghost use Rattle.std.specs.Prelude.{◌≡◌};
ghost use Rattle.item_actions.specs.Bytes.{is_space};

/// The byte that ends a line.
pub const LINE_END: u8 = b'\n';

/// Whether the byte stands between words: 0x09 to 0x0D and 0x20.
pub fn is_space(byte: u8) -> bool
    ensures { result ≡ is_space byte }
{
    matches!(byte, b'\t'..=b'\r' | b' ')
}
