//! Answers that are put in the place of a daemon's.
/// Bytes that a desk in memory takes for the answer of a daemon, in place of the daemon's own.
#[derive(Drop)]
pub struct Lie {
    /// The number of the call that is answered so, counted from 0 over all calls of the desk.
    pub call: u64,
    /// The bytes.
    pub bytes: Vec<u8>,
}
