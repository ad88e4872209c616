//! A history's text in parts: the lines of its segments, and of the entries that its book keeps. Printing takes no memory.
#![tactic(auto)]

mod books;
mod laws;
mod parts;

pub use books::every_book_has_a_text;
pub use laws::segments_are_one_text;
pub use parts::{write_kept, write_segment};
