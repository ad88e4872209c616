//! The desks of a call.
ghost use Rattle.std.specs.Prelude.{◌≡◌, All, IfOk, IfSome, length};
ghost use Rattle.memory_files.specs.Folders.{folder_of};
ghost use Rattle.memory_desk.specs.MemoryDeskView.{known_files};

use crate::cases::Case;
use crate::fails::CaseFail;
use memory_desk::{Lie, MemoryDesk};
use memory_files::{FileEntry, FileMap};
use std::alloc::{AllocError, Global};

// An equal file.
fn copy_of(alloc: Global, file: &FileEntry) -> Result<FileEntry, AllocError>
    ensures name { IfOk result (λ copy. copy.name ≡ file.now.name) }
    ensures bytes { IfOk result (λ copy. copy.bytes.items ≡ file.now.bytes.items) }
{
    let name = file.name.copy(alloc)?;
    let bytes = Vec::from_slice(alloc, file.bytes.as_slice())?;
    Ok(FileEntry { name, bytes })
}

/// Equal files.
pub(crate) fn copies_of(alloc: Global, files: &[FileEntry]) -> Result<Vec<FileEntry>, AllocError>
    ensures { IfOk result (λ copies. folder_of copies.items ≡ folder_of files.now) }
{
    let mut copies = Vec::with_capacity(alloc, files.len())?;
    for file in files {
        copies.push(copy_of(alloc, file)?)?;
    }
    Ok(copies)
}

// The numbers of the calls of a desk that fail.
fn failing_calls(alloc: Global, case: &Case, desk: usize) -> Result<Vec<u64>, CaseFail> {
    let calls = format!(in alloc; "desk {desk} ")?;
    case.failing(alloc, calls.as_str())
}

// The lies of a desk, in the call of this number. The bytes of each are the input's.
fn lies_of(alloc: Global, case: &Case, desk: usize, number: usize) -> Result<Vec<Lie>, CaseFail> {
    let head = format!(in alloc; "{desk} ")?;
    let calls = case.lying(alloc, head.as_str())?;
    let mut lies = Vec::new(alloc);
    for call in &calls {
        let bytes = case.input_of(alloc, number)?;
        lies.push(Lie { call: *call, bytes })?;
    }
    Ok(lies)
}

// A desk, for the call of this number. It knows the case's files, unless it has a lie.
fn desk_of(alloc: Global, case: &Case, desk: usize, number: usize) -> Result<MemoryDesk, CaseFail>
    ensures { IfOk result (λ desk. IfSome (known_files desk) (λ known. known ≡ folder_of case.now.files.items)) }
{
    let failing = failing_calls(alloc, case, desk)?;
    let lies = lies_of(alloc, case, desk, number)?;
    let files = copies_of(alloc, &case.files)?;
    Ok(MemoryDesk::new(alloc, FileMap::new(files), failing, lies))
}

/// So many desks for the call of this number. Each knows the case's files, unless it has a lie. An error is a number that none is, or
/// want of memory.
pub fn desks_of(
    alloc: Global,
    case: &Case,
    count: usize,
    number: usize,
) -> Result<Vec<MemoryDesk>, CaseFail>
    ensures count { IfOk result (λ desks. length desks.items ≡ count) }
    ensures files { IfOk result (λ desks. All
        (λ desk. IfSome (known_files desk) (λ known. known ≡ folder_of case.now.files.items)) desks.items) }
{
    let mut desks = Vec::with_capacity(alloc, count)?;
    for desk in 0..count {
        desks.push(desk_of(alloc, case, desk, number)?)?;
    }
    Ok(desks)
}
