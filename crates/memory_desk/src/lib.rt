//! A desk in memory: its files, and daemons that serve over memory on them.
#![tactic(auto)]

mod lies;
mod memory_desk;
mod memory_link;
mod replies;
mod sent;
mod serving;

pub use lies::Lie;
pub use memory_desk::MemoryDesk;
pub use memory_link::MemoryLink;
