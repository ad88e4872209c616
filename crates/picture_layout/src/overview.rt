//! What the whole run above the panels shows.
ghost use Rattle.std.specs.Prelude.{◌≤◌, ◌<◌, ◌^◌, length};

use crate::columns::{Columns, RunRow};

/// What the overview shows: how high the leases out and the queued items stand in each column, and the rows of the workers.
#[derive(Drop)]
pub struct Overview {
    pub columns: Columns,
    pub out: Vec<u64>,
    pub queued: Vec<u64>,
    pub rows: Vec<RunRow>,
    pub ghost some: { 1 ≤ columns.size },
    pub ghost few: { columns.number < 2 ^ 30 },
    pub ghost rows_few: { length rows.items < 2 ^ 32 },
}
