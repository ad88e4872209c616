//! Actions on bytes that come in pieces.
ghost use Rattle.std.specs.Prelude.{◌≤◌, length};

use item_actions::{ItemAction, Needle, Outcome, PieceState};

// What the action gives on bytes that come in three pieces.
fn in_three(action: &ItemAction, bytes: &[u8], first: usize, second: usize) -> Outcome
    requires first { first ≤ second }
    requires second { second ≤ length bytes.now }
{
    let mut state = PieceState::new(action);
    state.add(&bytes[..first]);
    state.add(&bytes[first..second]);
    state.add(&bytes[second..]);
    state.outcome()
}

// Whether the action gives this on the bytes, wherever these are cut at two places.
fn gives_in_pieces(action: &ItemAction, bytes: &[u8], outcome: Outcome) -> bool {
    for second in 0..bytes.len() + 1 {
        for first in 0..second + 1 {
            if in_three(action, bytes, first, second) != outcome {
                return false;
            }
        }
    }
    true
}

/// Bytes, and how many lines and words they have, and the length of the longest piece.
static NUMBERS: [(&[u8], u64, u64, u64); 8] = [
    (b"", 0, 0, 0),
    (b"one\ntwo\nthree\n", 3, 3, 5),
    (b"  a\tb\n", 1, 2, 5),
    (b"ab\n\nabc", 2, 2, 3),
    (b"\n\n\n", 3, 0, 0),
    (b"no line end", 0, 3, 11),
    (b"\x08\x09\x0a\x0b\x0c\x0d\x0e\x1f \x21", 1, 3, 7),
    (b"a\r\nbc\r\n", 2, 2, 3),
];

fn have_their_numbers() -> bool {
    for (bytes, lines, words, longest) in &NUMBERS {
        let counted = gives_in_pieces(&ItemAction::Lines, bytes, Outcome::Number(*lines))
            && gives_in_pieces(&ItemAction::Words, bytes, Outcome::Number(*words))
            && gives_in_pieces(
                &ItemAction::Bytes,
                bytes,
                Outcome::Number(bytes.len() as u64),
            )
            && gives_in_pieces(&ItemAction::Longest, bytes, Outcome::Number(*longest));
        if !counted {
            return false;
        }
    }
    true
}

/// A needle, bytes, and how often it is found in them.
static COUNTS: [(&[u8], &[u8], u64); 9] = [
    (b"o", b"one\ntwo\nthree\n", 2),
    (b"aa", b"aaaaaaa", 3),
    (b"aba", b"ababababa", 2),
    (b"ab", b"abab", 2),
    (b"\n\n", b"\n\n\n", 1),
    (b"the", b"the other then The", 3),
    (b"aab", b"aaaabaab", 2),
    (b"abcabd", b"abcabcabdabcabd", 2),
    (b"anan", b"banananan", 2),
];

// Whether the needle is found so often, wherever the bytes are cut.
fn is_found(needle: &[u8], bytes: &[u8], count: u64) -> bool {
    match Needle::of(needle) {
        Some(needle) => gives_in_pieces(&ItemAction::Count(needle), bytes, Outcome::Number(count)),
        None => false,
    }
}

fn are_found() -> bool {
    for (needle, bytes, count) in &COUNTS {
        if !is_found(needle, bytes, *count) {
            return false;
        }
    }
    true
}

/// The digest of `abc`, by FIPS 180-4.
static DIGEST: [u8; 32] = [
    0xba, 0x78, 0x16, 0xbf, 0x8f, 0x01, 0xcf, 0xea, 0x41, 0x41, 0x40, 0xde, 0x5d, 0xae, 0x22, 0x23,
    0xb0, 0x03, 0x61, 0xa3, 0x96, 0x17, 0x7a, 0x9c, 0xb4, 0x10, 0xff, 0x61, 0xf2, 0x00, 0x15, 0xad,
];

// Whether the longest needle, whose last byte alone differs, is found behind bytes that are a front of it.
fn is_longest_found() -> bool {
    let mut needle = [b'.'; 64];
    needle[63] = b'!';
    let mut bytes = [b'.'; 150];
    bytes[80] = b'!';
    bytes[144] = b'!';
    is_found(&needle, &bytes, 2)
}

#[test]
fn bytes_in_pieces_give_what_they_give_whole(rt: HostRuntime) {
    assert!(rt; have_their_numbers() && are_found() && is_longest_found());
    assert!(rt; gives_in_pieces(&ItemAction::Sha256, b"abc", Outcome::Digest(DIGEST)));
}
