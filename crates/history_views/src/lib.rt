//! What can be seen of a history without its lock: how many entries it has, and how many leases are out after them.
#![tactic(auto)]

mod boards;
mod ledgers;
mod reaches;
mod shown_books;
mod stages;
mod views;

pub use reaches::Reach;
pub use shown_books::ShownBook;
pub use stages::Stage;
pub use views::{Extent, View};
