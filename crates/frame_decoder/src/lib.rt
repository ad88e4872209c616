//! The frames of `daemon_protocol` read from a stream that comes in any pieces.
#![tactic(auto)]

mod decoders;
mod laws;

pub use decoders::{Decoder, Fed};
pub use laws::streams_have_one_reading;
