//! Daemons as the build sees them: started, asked and stopped, as child processes.
#![tactic(auto)]

mod answering;
mod commands;
mod desks;
mod folder_desk;
mod folder_link;
mod pipe_link;
mod replies;
mod sent;
mod served_stream;
mod taking;

pub use desks::Desk;
pub use folder_desk::FolderDesk;
pub use folder_link::FolderLink;
pub use pipe_link::PipeLink;
pub use replies::reply_to;
pub use sent::SentRequest;
pub use served_stream::{MAX_STREAM_BYTES, Served, serve};
pub use taking::take_frame;
