ghost use Rattle.std.specs.Prelude.{◌≡◌, ◌<◌, IfSome};
ghost use Rattle.std.specs.Option.{option_map};
ghost use Rattle.history_text.specs.Reading.{digit_value, byte_at, bytes_at};

// The number that a lower-case hexadecimal digit stands for.
fn digit_value(digit: u8) -> Option<u8>
    ensures value { result ≡ digit_value digit }
    ensures few { IfSome result (λ v. v < 16) }
{
    match digit {
        b'0'..=b'9' => Some(digit - b'0'),
        b'a'..=b'f' => Some(digit - b'a' + 10),
        _ => None,
    }
}

// Reads a byte of two hexadecimal digits at the start of the text, and gives what follows.
fn read_byte(text: &[u8]) -> Option<(u8, &[u8])>
    ensures { option_map (λ x. (x.0, x.1.now)) result ≡ byte_at text.now }
{
    let [high, low, rest @ ..] = text else {
        return None;
    };
    let high = digit_value(*high)?;
    let low = digit_value(*low)?;
    Some((high * 16 + low, rest))
}

/// The 32 bytes of a digest, two digits each, and the text after them.
pub(crate) fn read_digest(text: &[u8]) -> Option<([u8; 32], &[u8])>
    ensures { option_map (λ x. (x.0, x.1.now)) result ≡ bytes_at 32 text.now }
{
    let mut digest = [0; 32];
    let mut rest = text;
    for place in 0..32 {
        let Some((byte, more)) = read_byte(rest) else {
            return None;
        };
        digest[place] = byte;
        rest = more;
    }
    Some((digest, rest))
}
