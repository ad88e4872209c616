//! Calls that differ from one another in their input, or in which call fails.
use crate::fails::CaseFail;
use crate::lines::{LineChange, line_change, with_changed_line};
use std::alloc::{AllocError, Global};
use std::cmp::min;

/// What differs from call to call.
#[derive(Clone, Copy)]
pub enum Each {
    /// How many of the first bytes of the input there are.
    Beginning,
    /// Which byte of the input is another: of its bits these are kept, and then these turned over.
    Byte(u8, u8),
    /// Which line of the input is changed.
    Line(LineChange),
    /// Which call of the input fails. In the last call of the program none does.
    Take,
    /// Which call of the output fails. In the last call of the program none does.
    Put,
    /// How many bytes the output takes. In the last call of the program it takes all.
    Room,
}

/// What the rest of the head of a section `each` says:
///
/// - `beginning`: the input's first bytes alone, none of them, one, and so on up to all.
/// - `bits MASK`: the bits of the mask are turned over in each byte of the input in turn. `byte VALUE`: each byte of the
///   input in turn is this one.
/// - `line CHANGE`: each line of the input in turn is changed, as `lines.rt` says.
/// - `take`, `put`: each call of the input or of the output fails in turn, and at last none.
/// - `room`: the output takes no bytes, one, and so on up to all.
pub(crate) fn each_of(rest: Option<&str>) -> Result<Option<Each>, CaseFail> {
    let Some(rest) = rest else {
        return Ok(None);
    };
    let (kind, how) = rest.split_once(' ').unwrap_or((rest, ""));
    match kind {
        "beginning" => Ok(Some(Each::Beginning)),
        "bits" => each_byte(u8::MAX, how),
        "byte" => each_byte(0, how),
        "line" => each_line(how),
        "take" => Ok(Some(Each::Take)),
        "put" => Ok(Some(Each::Put)),
        "room" => Ok(Some(Each::Room)),
        _ => Err(CaseFail::Change),
    }
}

// Each text that differs in one byte, by this pattern of bits.
fn each_byte(kept: u8, turned: &str) -> Result<Option<Each>, CaseFail> {
    match turned.parse::<u8>() {
        Ok(turned) => Ok(Some(Each::Byte(kept, turned))),
        Err(_) => Err(CaseFail::Digits),
    }
}

// Each text that differs in one line, by the change of this name.
fn each_line(change: &str) -> Result<Option<Each>, CaseFail> {
    match line_change(change) {
        Some(change) => Ok(Some(Each::Line(change))),
        None => Err(CaseFail::Change),
    }
}

impl Each {
    /// How many calls there are, at most.
    pub fn calls(&self, input: &[u8]) -> usize {
        match self {
            Each::Beginning => input.len().saturating_add(1),
            Each::Byte(_, _) => input.len(),
            Each::Line(_) => lines_in(input),
            Each::Take | Each::Put | Each::Room => usize::MAX,
        }
    }

    /// Whether a call without a failure is the last.
    pub fn ends_without_failure(&self) -> bool {
        matches!(self, Each::Take | Each::Put | Each::Room)
    }

    /// The input of the call of this number.
    pub(crate) fn input(
        &self,
        alloc: Global,
        input: &[u8],
        number: usize,
    ) -> Result<Vec<u8>, AllocError> {
        match self {
            Each::Beginning => Vec::from_slice(alloc, &input[..min(number, input.len())]),
            Each::Byte(kept, turned) => with_byte(alloc, input, number, *kept, *turned),
            Each::Line(change) => with_changed_line(alloc, input, number, *change),
            Each::Take | Each::Put | Each::Room => Vec::from_slice(alloc, input),
        }
    }
}

// How many lines the bytes have, each with its end.
fn lines_in(bytes: &[u8]) -> usize {
    let mut lines = 0usize;
    for byte in bytes {
        if *byte == b'\n' {
            lines = lines.saturating_add(1);
        }
    }
    lines
}

// The input with another byte at this place: of its bits some are kept, and then some turned over.
fn with_byte(
    alloc: Global,
    input: &[u8],
    place: usize,
    kept: u8,
    turned: u8,
) -> Result<Vec<u8>, AllocError> {
    let mut text = Vec::from_slice(alloc, input)?;
    if let Some(byte) = text.get_mut(place) {
        *byte = (*byte & kept) ^ turned;
    }
    Ok(text)
}
