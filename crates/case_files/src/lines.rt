//! Changes of one line.
use std::alloc::{AllocError, Global};

/// What is written in place of a line.
#[derive(Clone, Copy)]
pub enum LineChange {
    /// Nothing.
    LeftOut,
    /// It and the same once more.
    Twice,
    /// The next line and then this one. The last line is left out.
    BehindTheNext,
    /// It with these bytes before it, and these in place of its end.
    Between(&'static [u8], &'static [u8]),
}

// The changes of a line, by their names.
static CHANGES: [(&str, LineChange); 9] = [
    ("left out", LineChange::LeftOut),
    ("twice", LineChange::Twice),
    ("behind the next", LineChange::BehindTheNext),
    ("with a zero before it", LineChange::Between(b"0", b"\n")),
    ("with a space before it", LineChange::Between(b" ", b"\n")),
    ("with a space behind it", LineChange::Between(b"", b" \n")),
    (
        "with a carriage return behind it",
        LineChange::Between(b"", b"\r\n"),
    ),
    ("without its end", LineChange::Between(b"", b"")),
    (
        "with an empty line behind it",
        LineChange::Between(b"", b"\n\n"),
    ),
];

/// The change of this name.
pub(crate) fn line_change(name: &str) -> Option<LineChange> {
    for (known, change) in &CHANGES {
        if *known == name {
            return Some(*change);
        }
    }
    None
}

// Adds a line, between other bytes.
fn add(text: &mut Vec<u8>, before: &[u8], line: &[u8], behind: &[u8]) -> Result<(), AllocError> {
    text.extend_from_slice(before)?;
    text.extend_from_slice(line)?;
    text.extend_from_slice(behind)
}

// Adds two lines.
fn add_two(text: &mut Vec<u8>, first: &[u8], second: &[u8]) -> Result<(), AllocError> {
    add(text, b"", first, b"\n")?;
    add(text, b"", second, b"\n")
}

// Adds what is written in place of the changed line.
fn add_changed(text: &mut Vec<u8>, change: LineChange, line: &[u8]) -> Result<(), AllocError> {
    match change {
        LineChange::LeftOut | LineChange::BehindTheNext => Ok(()),
        LineChange::Twice => add_two(text, line, line),
        LineChange::Between(before, behind) => add(text, before, line, behind),
    }
}

// Adds what is written in place of the line behind the changed one, which is the last one before it.
fn add_next(
    text: &mut Vec<u8>,
    change: LineChange,
    last: &[u8],
    line: &[u8],
) -> Result<(), AllocError> {
    match change {
        LineChange::BehindTheNext => add_two(text, line, last),
        _ => add(text, b"", line, b"\n"),
    }
}

// Adds the line at `at`, of which the changed one is that at `place`. `last` is the line before it.
fn add_line(
    text: &mut Vec<u8>,
    change: LineChange,
    place: usize,
    at: usize,
    last: &[u8],
    line: &[u8],
) -> Result<(), AllocError> {
    if at == place {
        add_changed(text, change, line)
    } else if at > place && at - place == 1 {
        add_next(text, change, last, line)
    } else {
        add(text, b"", line, b"\n")
    }
}

/// A text whose lines all have their ends, with a change of the line at this place.
pub(crate) fn with_changed_line(
    alloc: Global,
    text: &[u8],
    place: usize,
    change: LineChange,
) -> Result<Vec<u8>, AllocError> {
    let mut changed = Vec::new(alloc);
    let lines = text.strip_suffix(b"\n").unwrap_or(text);
    let mut last: &[u8] = b"";
    let mut start = 0usize;
    let mut at = 0usize;
    for end in 0..=lines.len() {
        if matches!(lines.get(end), None | Some(b'\n')) {
            let line = lines.get(start..end).unwrap_or(b"");
            add_line(&mut changed, change, place, at, last, line)?;
            last = line;
            start = end.saturating_add(1);
            at = at.saturating_add(1);
        }
    }
    Ok(changed)
}
