//! What a file's bytes give, the form of names, and words.
ghost use Rattle.std.specs.Prelude.{◌<◌};

use item_actions::{
    ActionKind, ItemAction, Needle, Outcome, OutcomeKind, Text, TextRefusal, act,
    actions_have_words_of_their_own, counting_goes_on_behind_the_first, is_file_name,
    longest_is_the_greatest_piece, outcomes_have_words_of_their_own,
};
use std::alloc::{AllocError, Global};
use std::test::Fail;

// Whether the action counts so many in the bytes.
fn gives(action: &ItemAction, bytes: &[u8], number: u64) -> bool {
    matches!(act(action, bytes), Outcome::Number(found) if found == number)
}

// Whether the needle is found so often.
fn finds(needle: &[u8], bytes: &[u8], count: u64) -> bool {
    match Needle::of(needle) {
        Some(needle) => gives(&ItemAction::Count(needle), bytes, count),
        None => false,
    }
}

/// Bytes, and how many lines, words and bytes they have, and the length of the longest piece.
static NUMBERS: [(&[u8], u64, u64, u64, u64); 12] = [
    (b"", 0, 0, 0, 0),
    (b"a\nb", 1, 2, 3, 1),
    (b"one\ntwo\nthree\n", 3, 3, 14, 5),
    (b"  a\tb\n", 1, 2, 6, 5),
    (b"ab\n\nabc", 2, 2, 7, 3),
    (b"\n", 1, 0, 1, 0),
    (b"\n\n\n", 3, 0, 3, 0),
    (b"no line end", 0, 3, 11, 11),
    (b"\x08\x09\x0a\x0b\x0c\x0d\x0e\x1f \x21", 1, 3, 10, 7),
    (b"\0\0", 0, 1, 2, 2),
    (b"\xa0 \x85\xff", 0, 2, 4, 4),
    (b"a\r\nbc\r\n", 2, 2, 7, 3),
];

fn have_their_numbers() -> bool {
    for (bytes, lines, words, length, longest) in &NUMBERS {
        let counted = gives(&ItemAction::Lines, bytes, *lines)
            && gives(&ItemAction::Words, bytes, *words)
            && gives(&ItemAction::Bytes, bytes, *length)
            && gives(&ItemAction::Longest, bytes, *longest);
        if !counted {
            return false;
        }
    }
    true
}

/// A needle, bytes, and how often it is found in them.
type CountRow = (&'static [u8], &'static [u8], u64);

static COUNTS: [CountRow; 11] = [
    (b"o", b"one\ntwo\nthree\n", 2),
    (b"aa", b"aaaaa", 2),
    (b"aba", b"ababababa", 2),
    (b"a", b"", 0),
    (b"ab", b"a", 0),
    (b"ab", b"ab", 1),
    (b"\n\n", b"\n\n\n", 1),
    (b"\0", b"\0a\0", 2),
    (b"the", b"the other then The", 3),
    (b"aab", b"aaaabaab", 2),
    (b"\xff\xfe", b"\xff\xff\xfe\xfe", 1),
];

fn are_found(rows: &[CountRow]) -> bool {
    for (needle, bytes, count) in rows {
        if !finds(needle, bytes, *count) {
            return false;
        }
    }
    true
}

/// Bytes, and the length of the longest of their pieces.
static PIECES: [(&[u8], u64); 5] = [
    (b"", 0),
    (b"\n", 0),
    (b"abcd\nab", 4),
    (b"ab\n\nabc\nd", 3),
    (b"\na\n\nbcd", 3),
];

/// A needle, and how often it is found in the bytes, of which the second row has what follows behind
/// the first place of it in those of the first.
static BANANAS: [CountRow; 3] = [
    (b"anan", b"banananan", 2),
    (b"anan", b"anan", 1),
    (b"anab", b"banananan", 0),
];

fn have_longest_pieces() -> bool {
    for (bytes, longest) in &PIECES {
        if !gives(&ItemAction::Longest, bytes, *longest) {
            return false;
        }
    }
    true
}

// The laws say of all bytes what is worked out here of a few.
#[test]
fn numbers_of_small_inputs(rt: HostRuntime) {
    longest_is_the_greatest_piece();
    counting_goes_on_behind_the_first();
    assert!(rt; have_their_numbers() && are_found(&COUNTS));
    assert!(rt; have_longest_pieces() && are_found(&BANANAS));
}

// Whether each action gives what it has to where one byte of a hundred is a line end.
fn agree_at(place: usize) -> bool
    requires { place < 100 }
{
    let mut bytes = [b'.'; 100];
    bytes[place] = b'\n';
    let rest = 99 - place;
    let at_an_end = place == 0 || rest == 0;
    gives(&ItemAction::Lines, &bytes, 1)
        && gives(&ItemAction::Words, &bytes, if at_an_end { 1 } else { 2 })
        && gives(&ItemAction::Longest, &bytes, place.max(rest) as u64)
        && finds(b"\n", &bytes, 1)
        && finds(b"\n.", &bytes, if rest == 0 { 0 } else { 1 })
        && finds(b"..", &bytes, (place / 2 + rest / 2) as u64)
}

#[test]
fn one_place_of_a_hundred(rt: HostRuntime) {
    for place in 0..100 {
        assert!(rt; agree_at(place));
    }
}

/// Bytes, and the words of their digest as FIPS 180-4 prints them.
static DIGESTS: [(&[u8], [u32; 8]); 3] = [
    (
        b"abc",
        [
            0xba7816bf, 0x8f01cfea, 0x414140de, 0x5dae2223, 0xb00361a3, 0x96177a9c, 0xb410ff61,
            0xf20015ad,
        ],
    ),
    (
        b"abcdbcdecdefdefgefghfghighijhijkijkljklmklmnlmnomnopnopq",
        [
            0x248d6a61, 0xd20638b8, 0xe5c02693, 0x0c3e6039, 0xa33ce459, 0x64ff2167, 0xf6ecedd4,
            0x19db06c1,
        ],
    ),
    (
        b"",
        [
            0xe3b0c442, 0x98fc1c14, 0x9afbf4c8, 0x996fb924, 0x27ae41e4, 0x649b934c, 0xa495991b,
            0x7852b855,
        ],
    ),
];

// Whether these are the words of the bytes' digest.
fn has_digest(bytes: &[u8], words: &[u32; 8]) -> bool {
    let mut expected = [0; 32];
    for (place, word) in words.iter().enumerate() {
        expected[4 * place..4 * place + 4].copy_from_slice(&word.to_be_bytes());
    }
    matches!(act(&ItemAction::Sha256, bytes), Outcome::Digest(digest) if digest == expected)
}

// Whether the bytes are kept as a needle.
fn is_kept(bytes: &[u8]) -> bool {
    match Needle::of(bytes) {
        Some(needle) => needle.bytes() == bytes,
        None => false,
    }
}

fn are_kept_by_length() -> bool {
    let bytes = [b'x'; 65];
    for length in 0..66 {
        if is_kept(&bytes[..length]) != (1..=64).contains(&length) {
            return false;
        }
    }
    finds(&bytes[..64], &bytes, 1)
}

#[test]
fn digests_of_the_standard_and_needles_of_1_to_64_bytes(rt: HostRuntime) {
    for (bytes, words) in &DIGESTS {
        assert!(rt; has_digest(bytes, words));
    }
    assert!(rt; are_kept_by_length() && is_kept(b"a") && is_kept(b"a\0"));
}

static NAMES: [&[u8]; 10] = [
    b"a.txt",
    b"_/-/Zz/09",
    b"..a/.../....",
    b".a/a./a..",
    b"-..",
    b"src/a_b-c.txt",
    b"...",
    b"a/b/c",
    b".hidden",
    b"a..b/0",
];

static NO_NAMES: [&[u8]; 22] = [
    b"",
    b"/",
    b"../a",
    b"a/.",
    b"a/..",
    b"./",
    b"...//a",
    b"a/./b",
    b"a@",
    b"a`",
    b"a[b",
    b"/a",
    b"a/",
    b"a//b",
    b".",
    b"..",
    b"a/../b",
    b"./a",
    b"a b",
    b"a:b",
    b"a\0",
    b"\xc3\xa9",
];

// Whether all of these are names of files, or none is.
fn are_names(names: &[&[u8]], expected: bool) -> bool {
    for name in names {
        if is_file_name(name) != expected {
            return false;
        }
    }
    true
}

static ACTION_WORDS: [&str; 6] = ["lines", "words", "bytes", "longest", "count", "sha256"];

static NO_ACTION_WORDS: [&str; 5] = ["", "line", "liness", "Lines", "fetch"];

// Whether the word is that of an action.
fn is_action_word(word: &str) -> bool {
    match ActionKind::of_word(word) {
        Some(kind) => kind.word() == word,
        None => false,
    }
}

fn actions_have_their_words() -> bool {
    for (kind, word) in ActionKind::ALL.iter().zip(ACTION_WORDS.iter()) {
        if kind.word() != *word || !is_action_word(word) {
            return false;
        }
    }
    true
}

fn some_others_are_action_words() -> bool {
    for word in &NO_ACTION_WORDS {
        if is_action_word(word) {
            return true;
        }
    }
    false
}

static OUTCOME_WORDS: [&str; 7] = [
    "number",
    "digest",
    "missing",
    "too-long",
    "fault",
    "no-memory",
    "skipped",
];

// Whether the word is that of an outcome.
fn is_outcome_word(word: &str) -> bool {
    match OutcomeKind::of_word(word) {
        Some(kind) => kind.word() == word,
        None => false,
    }
}

fn outcomes_have_their_words() -> bool {
    for (kind, word) in OutcomeKind::ALL.iter().zip(OUTCOME_WORDS.iter()) {
        if kind.word() != *word || !is_outcome_word(word) {
            return false;
        }
    }
    !is_outcome_word("too long") && OutcomeKind::TooLong.phrase() == "too long"
}

// Whether the kinds of an action and an outcome are theirs, and a number passes and a fault doesn't.
fn are_of_their_kinds() -> bool {
    matches!(ItemAction::Longest.kind(), ActionKind::Longest)
        && matches!(Outcome::Number(3).kind(), OutcomeKind::Number)
        && Outcome::Number(3).passes()
        && !Outcome::Fault.passes()
}

#[test]
fn names_of_files_and_words_of_actions_and_outcomes(rt: HostRuntime) {
    actions_have_words_of_their_own();
    outcomes_have_words_of_their_own();
    assert!(rt; are_names(&NAMES, true) && are_names(&NO_NAMES, false));
    assert!(rt; is_file_name(&[b'a'; 255]) && !is_file_name(&[b'a'; 256]));
    assert!(rt; actions_have_their_words() && !some_others_are_action_words());
    assert!(rt; outcomes_have_their_words() && are_of_their_kinds());
}

// Whether a text is made of the bytes, is told as the bytes and as a `str`, and is copied.
fn is_text(alloc: Global, bytes: &[u8], as_str: &str) -> Result<bool, TextRefusal> {
    let text = Text::of(alloc, bytes)?;
    Ok(text.bytes() == bytes && text.as_str() == as_str && is_copied(alloc, &text)?)
}

fn is_copied(alloc: Global, text: &Text) -> Result<bool, AllocError> {
    let copy = text.copy(alloc)?;
    let same = Text::from_str(alloc, text.as_str())?;
    Ok(copy.bytes() == text.bytes() && same.bytes() == text.bytes())
}

#[test]
fn texts_are_utf8(rt: HostRuntime) -> Result<(), Fail> {
    assert!(rt; is_text(rt.alloc(), b"n\xC3\xA9", "né")?);
    assert!(rt; matches!(is_text(rt.alloc(), b"n\xC3", ""), Err(TextRefusal::NotUtf8)));
    Ok(())
}
