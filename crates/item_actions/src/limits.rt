/// The most bytes of a plan, and of a file that an action is worked out on.
pub const MAX_FILE_BYTES: u64 = 4_194_304;

/// The most bytes of a file's name.
pub const MAX_FILE_NAME_BYTES: usize = 255;

/// The most bytes of a needle.
pub const MAX_NEEDLE_BYTES: usize = 64;
