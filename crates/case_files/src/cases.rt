//! What a case file says of the calls of a case.
use crate::desks::copies_of;
use crate::each::{Each, each_of};
use crate::fails::CaseFail;
use crate::sections::{Section, number_of, rest_of};
use item_actions::Text;
use memory_files::FileEntry;
use std::alloc::{AllocError, Global};

/// More bytes than a call writes.
const AMPLE: u64 = 2_000_000;

/// How much a call's input and output move, how long items wait, and how many calls of the desks have to fail.
#[derive(Clone, Copy)]
pub struct Limits {
    /// How many bytes the output takes.
    pub room: u64,
    /// How many bytes the input gives and the output takes in a call, at most.
    pub piece: u64,
    /// For how many turns units 0 and 1 wait for each other.
    pub turns: u64,
    /// How many calls of the desks have to fail at least, where the failed ones are counted.
    pub least_faults: u64,
}

const AMPLE_LIMITS: Limits = Limits {
    room: AMPLE,
    piece: AMPLE,
    turns: 0,
    least_faults: 0,
};

/// The calls of a case.
#[derive(Drop)]
pub struct Case<'a> {
    sections: &'a [Section<'a>],
    /// How much the calls move, how long items wait, and how many calls of the desks have to fail.
    pub limits: Limits,
    /// How the calls differ from one another, where there are several.
    pub each: Option<Each>,
    /// The words after the program's name.
    pub words: Vec<Text>,
    /// The files, which each desk has.
    pub files: Vec<FileEntry>,
    /// The bytes of the input.
    pub input: Vec<u8>,
}

impl<'a> Case<'a> {
    // A call without words, files and input, with these sections and ample limits.
    fn new(alloc: Global, sections: &'a [Section<'a>], each: Option<Each>) -> Case<'a> {
        Case {
            sections,
            limits: AMPLE_LIMITS,
            each,
            words: Vec::new(alloc),
            files: Vec::new(alloc),
            input: Vec::new(alloc),
        }
    }

    /// The bytes of the input of the call of this number.
    pub(crate) fn input_of(&self, alloc: Global, number: usize) -> Result<Vec<u8>, AllocError> {
        match self.each {
            Some(each) => each.input(alloc, &self.input, number),
            None => Vec::from_slice(alloc, &self.input),
        }
    }

    /// Whether there is a section of this kind.
    pub fn has(&self, kind: &str) -> bool {
        rest_of(self.sections, kind).is_some()
    }

    /// The numbers of the calls that fail, of those that the sections `fail` call so.
    pub(crate) fn failing(&self, alloc: Global, calls: &str) -> Result<Vec<u64>, CaseFail> {
        self.numbers(alloc, "fail", calls)
    }

    /// The numbers of the calls that are answered by a lie, of those that the sections `lie` call so.
    pub(crate) fn lying(&self, alloc: Global, calls: &str) -> Result<Vec<u64>, CaseFail> {
        self.numbers(alloc, "lie", calls)
    }

    // The numbers in the sections of a kind whose heads go on like this.
    fn numbers(&self, alloc: Global, kind: &str, calls: &str) -> Result<Vec<u64>, CaseFail> {
        let mut numbers = Vec::new(alloc);
        for section in self.sections {
            if section.kind == kind
                && let Some(digits) = section.rest.strip_prefix(calls)
            {
                numbers.push(number_of(digits)?)?;
            }
        }
        Ok(numbers)
    }

    /// The check of a history that was printed for the plan of this name, at the same files. An error is want of memory.
    pub fn check_of(
        &self,
        alloc: Global,
        plan: &Text,
        history: &[u8],
    ) -> Result<Case<'a>, AllocError> {
        let words = check_words(alloc, plan)?;
        let files = copies_of(alloc, &self.files)?;
        let input = Vec::from_slice(alloc, history)?;
        Ok(Case {
            sections: &[],
            limits: AMPLE_LIMITS,
            each: None,
            words,
            files,
            input,
        })
    }
}

// The words of a check of a history for the plan of this name.
fn check_words(alloc: Global, plan: &Text) -> Result<Vec<Text>, AllocError> {
    let mut words = Vec::new(alloc);
    words.push(Text::from_str(alloc, "check")?)?;
    words.push(plan.copy(alloc)?)?;
    Ok(words)
}

/// What the sections say of a case's calls. An error is a number, bytes or a change that none are, bytes of no file, or want of memory.
///
/// - `words W W ..`: words, with single spaces between them. `word W`: the rest of the head is one word.
/// - `file NAME`: a file of the section's other lines. `bytes DIGITS`: further bytes of the last file, in hexadecimal
///   digits. `fill N TEXT`: the text stands N times more in it. `times N`: the section's other lines stand N times more
///   in it, with the turn's number for `{n}`.
/// - `input`: the section's other lines are further bytes of the input. `input DIGITS`: bytes in hexadecimal digits.
///   `empty N`: so many empty lines.
/// - `fail desk D N`, `fail take N`, `fail put N`: this call fails of desk D, of the input or of the output.
/// - `lie D N`: where call N of desk D awaits a daemon's answer, the input's bytes are taken for it.
/// - `room N`: the output takes so many bytes. `pieces N`: the input gives and the output takes at most N bytes a call.
/// - `meet N`: units 0 and 1 wait for each other for so many turns.
/// - `digest`: what is written isn't printed, but its SHA-256 digest.
/// - `left`: how many bytes of the input were left is printed, up to 64. `sent`: how many requests the desks sent.
///   `graph`: how many workers, leases and locks the run had.
/// - `faults N`: it is only printed whether calls of the desks failed, N at least, and as many units met a fault.
/// - `watched`: it is only printed whether what the workers of the run saw is as its history says, which is gone through for each of
///   them.
/// - `each ..`: there is a call for each change of the input or each failure, as `each.rt` says. Of calls in a row that
///   wrote the same, what they wrote is printed once.
pub fn case_of<'a>(alloc: Global, sections: &'a [Section<'a>]) -> Result<Case<'a>, CaseFail> {
    let each = each_of(rest_of(sections, "each"))?;
    let mut case = Case::new(alloc, sections, each);
    match add_all(alloc, &mut case, sections) {
        Ok(()) => Ok(case),
        Err(fail) => {
            // Let go of as a whole: to prove that it ends field by field takes long.
            drop(case);
            Err(fail)
        }
    }
}

// Adds what the sections say.
fn add_all(alloc: Global, case: &mut Case, sections: &[Section]) -> Result<(), CaseFail> {
    for section in sections {
        add_section(alloc, case, section)?;
    }
    Ok(())
}

// Sets the limit that a section says.
fn set_limit(limits: &mut Limits, section: &Section) -> Result<(), CaseFail> {
    let number = number_of(section.rest)?;
    match section.kind {
        "room" => limits.room = number,
        "pieces" => limits.piece = number,
        "meet" => limits.turns = number,
        _ => limits.least_faults = number,
    }
    Ok(())
}

// Adds what a section says of words, files, input or limits.
fn add_section(alloc: Global, case: &mut Case, section: &Section) -> Result<(), CaseFail> {
    match section.kind {
        "words" => add_words(alloc, &mut case.words, section.rest, ' '),
        "word" => add_words(alloc, &mut case.words, section.rest, '\n'),
        "file" => add_file(alloc, &mut case.files, section),
        "bytes" | "fill" | "times" => add_to_last(alloc, &mut case.files, section),
        "input" => add_input(alloc, &mut case.input, section),
        "empty" => add_empty_lines(&mut case.input, section.rest),
        "room" | "pieces" | "meet" | "faults" => set_limit(&mut case.limits, section),
        _ => Ok(()),
    }
}

// Adds the words of a text.
fn add_words(
    alloc: Global,
    words: &mut Vec<Text>,
    text: &str,
    between: char,
) -> Result<(), CaseFail> {
    for word in text.split(between) {
        words.push(Text::from_str(alloc, word)?)?;
    }
    Ok(())
}

// Adds lines, the last one with its end.
fn add_lines(bytes: &mut Vec<u8>, lines: &str) -> Result<(), AllocError> {
    bytes.extend_from_slice(lines.as_bytes())?;
    bytes.push(b'\n')?;
    Ok(())
}

// Lines as bytes, the last one with its end.
fn bytes_of(alloc: Global, lines: Option<&str>) -> Result<Vec<u8>, AllocError> {
    let mut bytes = Vec::new(alloc);
    if let Some(lines) = lines {
        add_lines(&mut bytes, lines)?;
    }
    Ok(bytes)
}

// Adds the file that a section says.
fn add_file(alloc: Global, files: &mut Vec<FileEntry>, section: &Section) -> Result<(), CaseFail> {
    let bytes = bytes_of(alloc, section.lines)?;
    let name = Text::from_str(alloc, section.rest)?;
    files.push(FileEntry { name, bytes })?;
    Ok(())
}

// Adds bytes to the last file.
fn add_to_last(
    alloc: Global,
    files: &mut Vec<FileEntry>,
    section: &Section,
) -> Result<(), CaseFail> {
    let Some(file) = files.last_mut() else {
        return Err(CaseFail::NoFile);
    };
    match section.kind {
        "bytes" => add_digits(alloc, &mut file.bytes, section.rest),
        "fill" => fill(&mut file.bytes, section.rest),
        _ => add_times(alloc, &mut file.bytes, section),
    }
}

// Adds the bytes that hexadecimal digits give; spaces between them don't count.
fn add_digits(alloc: Global, bytes: &mut Vec<u8>, digits: &str) -> Result<(), CaseFail> {
    let digits = digits.replace(alloc, ' ', "")?;
    let digits = hex::decode(alloc, digits)?;
    bytes.extend_from_slice(digits.as_slice())?;
    Ok(())
}

// Adds a text so many times.
fn fill(bytes: &mut Vec<u8>, rest: &str) -> Result<(), CaseFail> {
    let (times, text) = rest.split_once(' ').unwrap_or((rest, ""));
    for _ in 0..number_of(times)? {
        bytes.extend_from_slice(text.as_bytes())?;
    }
    Ok(())
}

// Adds the lines of a section with a number for `{n}`.
fn add_numbered(
    alloc: Global,
    bytes: &mut Vec<u8>,
    lines: &str,
    number: u64,
) -> Result<(), CaseFail> {
    let number = format!(in alloc; "{number}")?;
    let lines = lines.replace(alloc, "{n}", number.as_str())?;
    add_lines(bytes, lines.as_str())?;
    Ok(())
}

// Adds the lines of a section so many times.
fn add_times(alloc: Global, bytes: &mut Vec<u8>, section: &Section) -> Result<(), CaseFail> {
    let lines = section.lines.unwrap_or("");
    for turn in 0..number_of(section.rest)? {
        add_numbered(alloc, bytes, lines, turn)?;
    }
    Ok(())
}

// Adds what a section says to the input.
fn add_input(alloc: Global, input: &mut Vec<u8>, section: &Section) -> Result<(), CaseFail> {
    if let Some(lines) = section.lines {
        add_lines(input, lines)?;
    }
    add_digits(alloc, input, section.rest)
}

// Adds so many empty lines to the input.
fn add_empty_lines(input: &mut Vec<u8>, digits: &str) -> Result<(), CaseFail> {
    let len = input.len().saturating_add(number_of(digits)? as usize);
    input.resize(len, b'\n')?;
    Ok(())
}
