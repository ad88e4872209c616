//! The picture of a run: one SVG, which is a function of the run's history.
#![tactic(auto)]

mod axis;
mod curve;
mod header;
mod item_bars;
mod laws;
mod lock_rows;
mod overview_axis;
mod overview_chart;
mod overview_rows;
mod picture;
mod shapes;
mod style;
mod ticks;
mod titles;
mod worker_bars;
mod worker_marks;

pub use laws::{
    a_picture_has_one_history, bars_show_the_states, curves_show_the_states,
    each_entry_has_one_tick, lines_stand_for_themselves,
};
pub use picture::{DrawFail, draw};
