//! The outside as the build sees it: files that are read, sources that give bytes, and sinks that take them.
#![tactic(auto)]

mod ahead_source;
mod file_actions;
mod file_bytes;
mod files;
mod folder_files;
mod gates;
mod openers;
mod pages;
mod retries;
mod sinks;
mod sources;
mod std_sink;
mod std_source;
mod work;

pub use ahead_source::AheadSource;
pub use file_actions::act_on_file;
pub use file_bytes::FileBytes;
pub use files::{DeskFail, Files, Read};
pub use folder_files::{FolderFiles, read_file};
pub use gates::{Gate, OpenGate};
pub use openers::FileOpener;
pub use pages::Page;
pub use sinks::{Failed, Sink, put_all};
pub use sources::Source;
pub use std_sink::StdSink;
pub use std_source::StdSource;
pub use work::work_out;
