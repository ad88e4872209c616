//! Files of the current folder.
use crate::file_access_tests::{Answer, ReadRow, all_read, reads};
use file_access::{Files, FolderFiles, Read, StdSink, put_all};
use item_actions::{ItemAction, Needle, Outcome, Text, act};
use std::alloc::{AllocError, Global};
use std::fs::File;
use std::test::Fail;
use std::{fs, rt};

// Whether a sink over a new file takes the bytes.
fn writes<R: rt::Files>(rt: &R, name: &str, bytes: &[u8]) -> bool {
    match File::create(rt, name) {
        Ok(file) => {
            let mut sink = StdSink::new(file);
            put_all(&mut sink, bytes).is_ok() && sink.count() == 0
        }
        Err(_) => false,
    }
}

// So many bytes, of which the first several pieces aren't all the same.
fn varied(alloc: Global, len: u64) -> Result<Vec<u8>, AllocError> {
    let mut bytes = Vec::new(alloc);
    for place in 0..len.min(300_000) {
        bytes.push((place % 251) as u8)?;
    }
    bytes.resize(len as usize, b'.')?;
    Ok(bytes)
}

/// Reads that answer beside a file of 10,000 bytes.
static ANSWERED: [ReadRow<'static>; 2] = [
    ("file_access_written.txt", 9999, Answer::TooLong),
    ("file_access_missing.txt", 10000, Answer::NotThere),
];

/// Reads that fail, of a folder and of a name under a file.
static FAILED: [ReadRow<'static>; 2] = [
    (".", 10000, Answer::Failed),
    ("file_access_written.txt/a", 10000, Answer::Failed),
];

const WRITTEN_FILE: &str = "file_access_written.txt";

// Whether a file of 10,000 bytes that a sink wrote is read whole.
fn is_written<R: rt::Files, F: Files>(rt: &R, alloc: Global, desk: &mut F) -> bool {
    let content = [b'x'; 10000];
    let whole = (WRITTEN_FILE, 10000, Answer::Bytes(&content));
    writes(rt, WRITTEN_FILE, &content) && reads(alloc, desk, &whole)
}

// Whether reads of what isn't a file of so few bytes are told, of which two are faults.
fn tells_faults<R: rt::Files + Drop>(alloc: Global, desk: &mut FolderFiles<R>) -> bool {
    all_read(alloc, desk, &ANSWERED)
        && desk.count() == 0
        && all_read(alloc, desk, &FAILED)
        && desk.count() == 2
}

#[test]
fn what_a_sink_wrote_is_read_from_the_folder(rt: HostRuntime) -> Result<(), Fail> {
    let mut desk = FolderFiles::new(&rt, rt.alloc());
    assert!(rt; is_written(&rt, rt.alloc(), &mut desk) && tells_faults(rt.alloc(), &mut desk));
    fs::remove_file(&rt, WRITTEN_FILE)?;
    Ok(())
}

/// What is tried with a file of the folder.
#[derive(Clone, Copy)]
enum Trial {
    /// It is read whole, and is too long for one byte less, where it has any.
    Read,
    /// It is read whole into memory that the desk gets back, and is too long for half of its bytes, where it has any.
    GiveBack,
    /// Each action gives on it what it gives on its bytes.
    Work,
    /// The action `bytes` gives this on it.
    Count(Outcome),
}

/// How many bytes a file has, and what is tried with it.
static TRIALS: [(u64, Trial); 22] = [
    // About the room of the first read.
    (1, Trial::Read),
    (1023, Trial::Read),
    (1024, Trial::Read),
    (1025, Trial::Read),
    (2049, Trial::Read),
    (5000, Trial::Read),
    (0, Trial::Read),
    // Longer and shorter ones by turns.
    (5000, Trial::GiveBack),
    (3, Trial::GiveBack),
    (1024, Trial::GiveBack),
    (0, Trial::GiveBack),
    (6000, Trial::GiveBack),
    (4999, Trial::GiveBack),
    // About the first room, a piece and several pieces.
    (0, Trial::Work),
    (1, Trial::Work),
    (1024, Trial::Work),
    (131_071, Trial::Work),
    (131_072, Trial::Work),
    (132_097, Trial::Work),
    (300_000, Trial::Work),
    // About the most bytes that a file may have.
    (4_194_304, Trial::Count(Outcome::Number(4_194_304))),
    (4_194_305, Trial::Count(Outcome::TooLong)),
];

const TRIED_FILE: &str = "file_access_tried.txt";

// Whether the file is read whole, and is too long for so many bytes, where it has any.
fn is_read<F: Files>(alloc: Global, desk: &mut F, bytes: &[u8], less: u64) -> bool {
    let whole = (TRIED_FILE, bytes.len() as u64, Answer::Bytes(bytes));
    let too_long = (TRIED_FILE, less, Answer::TooLong);
    reads(alloc, desk, &whole) && (bytes.is_empty() || reads(alloc, desk, &too_long))
}

// Whether the file is read whole. The desk gets its memory back.
fn is_given_back<F: Files>(alloc: Global, desk: &mut F, bytes: &[u8]) -> bool {
    let Ok(name) = Text::from_str(alloc, TRIED_FILE) else {
        return false;
    };
    let Ok(Read::Bytes(read)) = desk.read(alloc, &name, bytes.len() as u64) else {
        return false;
    };
    let is_whole = read.as_bytes() == bytes;
    desk.give_back(read);
    is_whole
}

// Whether an action gives this on the file.
fn gives<F: Files>(alloc: Global, desk: &mut F, action: &ItemAction, outcome: Outcome) -> bool {
    let Ok(name) = Text::from_str(alloc, TRIED_FILE) else {
        return false;
    };
    matches!(desk.act_on(alloc, action, &name), Ok(found) if found == outcome)
}

// Whether each action gives on the file what it gives on its bytes.
fn are_given<F: Files>(alloc: Global, desk: &mut F, bytes: &[u8]) -> bool {
    let Some(needle) = Needle::of(b"\x09\x0a\x0b") else {
        return false;
    };
    let actions = [
        ItemAction::Lines,
        ItemAction::Words,
        ItemAction::Bytes,
        ItemAction::Longest,
        ItemAction::Count(needle),
        ItemAction::Sha256,
    ];
    for action in &actions {
        if !gives(alloc, desk, action, act(action, bytes)) {
            return false;
        }
    }
    true
}

// Whether a trial of a file of these bytes goes as it has to.
fn goes<F: Files>(alloc: Global, desk: &mut F, bytes: &[u8], trial: Trial) -> bool {
    let len = bytes.len() as u64;
    match trial {
        Trial::Read => is_read(alloc, desk, bytes, len.saturating_sub(1)),
        Trial::GiveBack => {
            is_read(alloc, desk, bytes, len / 2) && is_given_back(alloc, desk, bytes)
        }
        Trial::Work => are_given(alloc, desk, bytes),
        Trial::Count(outcome) => gives(alloc, desk, &ItemAction::Bytes, outcome),
    }
}

// Whether a trial of a file of so many bytes goes as it has to, and no read fails.
fn goes_at<R: rt::Files>(
    rt: &R,
    alloc: Global,
    desk: &mut FolderFiles<&R>,
    len: u64,
    trial: Trial,
) -> Result<bool, AllocError> {
    let bytes = varied(alloc, len)?;
    let goes = writes(rt, TRIED_FILE, &bytes) && goes(alloc, desk, &bytes, trial);
    drop(bytes);
    Ok(goes && desk.count() == 0)
}

#[test]
fn files_of_each_length_are_read_given_back_and_worked_on(rt: HostRuntime) -> Result<(), Fail> {
    let mut desk = FolderFiles::new(&rt, rt.alloc());
    for (len, trial) in &TRIALS {
        assert!(rt;
            goes_at(&rt, rt.alloc(), &mut desk, *len, *trial)?,
            "{len} bytes"
        );
    }
    fs::remove_file(&rt, TRIED_FILE)?;
    Ok(())
}
