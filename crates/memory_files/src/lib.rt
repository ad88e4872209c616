//! Files, sources and sinks in memory, whose calls can be made to fail, and a gate that two units meet in.
#![tactic(auto)]

mod calls;
mod file_map;
mod meeting_gate;
mod memory_files;
mod memory_sink;
mod memory_source;

pub use calls::Calls;
pub use file_map::{FileEntry, FileMap};
pub use meeting_gate::MeetingGate;
pub use memory_files::MemoryFiles;
pub use memory_sink::MemorySink;
pub use memory_source::MemorySource;
