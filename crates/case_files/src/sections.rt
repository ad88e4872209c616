//! The sections of a case.
use crate::fails::CaseFail;
use std::alloc::Global;

/// The kinds of sections.
static KINDS: [&str; 20] = [
    "words", "word", "file", "bytes", "times", "fill", "input", "empty", "fail", "lie", "room",
    "pieces", "meet", "digest", "left", "sent", "graph", "faults", "watched", "each",
];

/// A section: its kind, which is the first word of its head, the rest of its head, and its other lines.
#[derive(Clone, Copy)]
pub struct Section<'a> {
    pub(crate) kind: &'a str,
    pub(crate) rest: &'a str,
    pub(crate) lines: Option<&'a str>,
}

// The section of these lines. Empty lines at its end don't count.
fn section_of(text: &str) -> Result<Section<'_>, CaseFail> {
    let text = text.trim_end_matches('\n');
    let (head, lines) = match text.split_once('\n') {
        Some((head, lines)) => (head, Some(lines)),
        None => (text, None),
    };
    let (kind, rest) = head.split_once(' ').unwrap_or((head, ""));
    if !KINDS.contains(&kind) {
        return Err(CaseFail::Section);
    }
    Ok(Section { kind, rest, lines })
}

// Adds the sections of a part of a case file. What stands before the first is passed over.
fn add_sections<'a>(sections: &mut Vec<Section<'a>>, part: &'a str) -> Result<(), CaseFail> {
    for section in part.split("\n--- ").skip(1) {
        sections.push(section_of(section)?)?;
    }
    Ok(())
}

/// The sections of a case: those of the part that all cases of its file have, and then its own. An error is a section of no kind, or
/// want of memory.
pub fn sections_of<'a>(
    alloc: Global,
    shared: &'a str,
    own: &'a str,
) -> Result<Vec<Section<'a>>, CaseFail> {
    let mut sections = Vec::new(alloc);
    add_sections(&mut sections, shared)?;
    add_sections(&mut sections, own)?;
    Ok(sections)
}

/// The rest of the head of the last section of this kind.
pub(crate) fn rest_of<'a>(sections: &[Section<'a>], kind: &str) -> Option<&'a str> {
    let mut rest = None;
    for section in sections {
        if section.kind == kind {
            rest = Some(section.rest);
        }
    }
    rest
}

/// The number that these digits write.
pub(crate) fn number_of(digits: &str) -> Result<u64, CaseFail> {
    match digits.parse::<u64>() {
        Ok(number) => Ok(number),
        Err(_) => Err(CaseFail::Digits),
    }
}
