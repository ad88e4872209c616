//! What each worker, lock, task and unit of a history did over which entries, from the history's changes alone.
#![tactic(auto)]

mod laws;
mod levels;
mod spans;
mod subjects;

pub use laws::{
    levels_count_the_leases, levels_count_the_queued_units, spans_are_those_of_the_states,
    spans_cover_what_holds,
};
pub use levels::{Level, levels_of};
pub use spans::{Span, spans_of};
pub use subjects::Subject;
