use item_actions::{MAX_FILE_NAME_BYTES, MAX_NEEDLE_BYTES};

/// The first byte of a request's frame without a keep-alive mode, which is version 1 of the frames.
pub const REQUEST_TAG: u8 = 1;

/// The first byte of a reply's frame without a keep-alive mode.
pub const REPLY_TAG: u8 = 2;

/// The first byte of the frame that says that no more work comes.
pub const STOP_TAG: u8 = 3;

/// The first byte of a request's frame with a keep-alive mode, which is version 2 of the frames.
pub const REQUEST_IN_MODE_TAG: u8 = 0x11;

/// The first byte of a reply's frame with a keep-alive mode.
pub const REPLY_IN_MODE_TAG: u8 = 0x12;

/// How many bytes a digest has.
pub const DIGEST_BYTES: usize = 32;

/// The most bytes of an action: its number, and a needle's length and bytes.
pub(crate) const MAX_ACTION_BYTES: usize = 2 + MAX_NEEDLE_BYTES;

/// The most bytes of an outcome: its number and a digest.
pub(crate) const MAX_OUTCOME_BYTES: usize = 1 + DIGEST_BYTES;

/// The most bytes of a body that is sent: a request's unit, its mode, its action, and its file's length and name.
pub(crate) const MAX_SENT_BODY_BYTES: usize = 5 + MAX_ACTION_BYTES + 2 + MAX_FILE_NAME_BYTES;

/// How many bytes come before a frame's body: its tag, and the body's length.
pub const HEAD_BYTES: usize = 5;

/// The most bytes of a body.
pub const MAX_BODY_BYTES: usize = 65_536;

/// The most bytes of a frame.
pub const MAX_FRAME_BYTES: usize = HEAD_BYTES + MAX_BODY_BYTES;
