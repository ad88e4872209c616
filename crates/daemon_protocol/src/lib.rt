//! The frames between a build and its daemons: their bytes, and what stands at the start of bytes.
#![tactic(auto)]

mod bodies;
mod encoding;
mod frames;
mod laws;
mod limits;
mod starts;

pub use bodies::{reply_in_mode_of, reply_of, request_in_mode_of, request_of, stop_of};
pub use encoding::encode;
pub use frames::{Frame, FrameRefusal, Reply, Request};
pub use laws::{read_frames_are_spelled, spelled_frames_are_read};
pub use limits::{
    DIGEST_BYTES, HEAD_BYTES, MAX_BODY_BYTES, MAX_FRAME_BYTES, REPLY_IN_MODE_TAG, REPLY_TAG,
    REQUEST_IN_MODE_TAG, REQUEST_TAG, STOP_TAG,
};
pub use starts::{Flaw, Head, StreamStart, head_of, lacking, look};
