//! The limits of a graph. They are those of the machine that a build runs on: a reader of plans or histories may have narrower ones.

/// At most how many workers a graph has.
pub const MAX_WORKERS: u32 = 256;

/// At most how many leases may be out at once.
pub const MAX_LEASES: u32 = 256;

/// At most how many project locks a graph has, the all-projects lock included.
pub const MAX_LOCKS: u32 = 65_536;

/// At most how many tasks a graph has.
pub const MAX_TASKS: usize = 1_048_576;

/// At most how many actions a task has: as many as a graph has tasks.
pub const MAX_ACTIONS_PER_TASK: u32 = 1_048_576;

/// At most how many tasks a task names that it comes after: as many as a graph has. One that is named twice counts twice.
pub const MAX_AFTER: usize = 1_048_576;

/// At most how many units a graph has, fetches and items together.
pub const MAX_UNITS: u64 = 4_194_304;
