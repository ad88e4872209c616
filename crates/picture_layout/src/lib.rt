//! What the picture of a run shows, and where: its format, its panels with the rows of their locks, what the whole run above them
//! shows, and what is counted. Nothing is written here.
#![tactic(auto)]

mod columns;
mod layout;
mod occupancy;
mod overview;
mod overviews;
mod panel;
mod panels;
mod totals;

pub use columns::{Columns, Fill, RunRow};
pub use layout::{CURVE, Folding, Format, LANE, LEFT, Layout, Rows, curve_height, run_row_height};
pub use overview::Overview;
pub use overviews::overview_of;
pub use panel::Panel;
pub use panels::{LayoutFail, MOST_ENTRIES, format_of, height_of, lane_of, panels_in_format};
pub use totals::{
    Peaks, count_failed_units, count_skips, count_tasks, count_units, peaks_of, total_out,
};
