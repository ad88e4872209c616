//! Transforms: changes of one worker that are made together or not at all, and those of each kind
//! of entry.
#![tactic(auto)]

mod entries;
pub mod kinds;
mod tentatives;
mod transforms;

pub use entries::{Closed, Kind};
pub use tentatives::Tentative;
pub use transforms::{Disposition, Transform};
