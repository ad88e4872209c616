//! Case files: the calls of the program that they list, and what each call is given.
#![tactic(auto)]

mod cases;
mod desks;
mod each;
mod fails;
mod lines;
mod pieces;
mod sections;

pub use cases::{Case, Limits, case_of};
pub use desks::desks_of;
pub use each::Each;
pub use fails::CaseFail;
pub use lines::LineChange;
pub use pieces::{InPieces, sink_of, source_of};
pub use sections::{Section, sections_of};
