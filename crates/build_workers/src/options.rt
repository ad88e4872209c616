//! The options of a run.
/// How a plan is run.
#[derive(Clone, Copy)]
pub struct RunOptions {
    /// How many workers the run has, 1 to `plan_reader::MAX_WORKERS`.
    pub workers: u32,
    /// At most how many leases are out at once, 1 to `plan_reader::MAX_LEASES`.
    pub max_leases: u32,
    /// Whether each project has a lock of its own. Without it all share one.
    pub parallel: bool,
    /// Whether the workers look at the history while they run.
    pub watch: bool,
}
