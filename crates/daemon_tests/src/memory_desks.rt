//! Desks in memory with one file.
use item_actions::Text;
use memory_desk::{Lie, MemoryDesk};
use memory_files::{FileEntry, FileMap};
use std::alloc::{AllocError, Global};

// The call that receives the first reply, where one daemon is started.
const FIRST_REPLY: u64 = 2;

/// A desk with a.txt, which has 14 bytes in 3 lines. These calls fail, and these bytes come in place of the first reply.
pub(crate) fn desk(
    alloc: Global,
    failing: &[u64],
    lie: Option<&[u8]>,
) -> Result<Box<MemoryDesk>, AllocError> {
    let failing = Vec::from_slice(alloc, failing)?;
    let lies = lies(alloc, lie)?;
    let files = files(alloc)?;
    Ok(Box::new(alloc, MemoryDesk::new(alloc, files, failing, lies))?)
}

fn files(alloc: Global) -> Result<FileMap, AllocError> {
    let name = Text::from_str(alloc, "a.txt")?;
    let bytes = Vec::from_slice(alloc, b"one\ntwo\nthree\n")?;
    let mut entries = Vec::new(alloc);
    entries.push(FileEntry { name, bytes })?;
    Ok(FileMap::new(entries))
}

fn lies(alloc: Global, lie: Option<&[u8]>) -> Result<Vec<Lie>, AllocError> {
    let mut lies = Vec::new(alloc);
    if let Some(bytes) = lie {
        let bytes = Vec::from_slice(alloc, bytes)?;
        let call = FIRST_REPLY;
        lies.push(Lie { call, bytes })?;
    }
    Ok(lies)
}
