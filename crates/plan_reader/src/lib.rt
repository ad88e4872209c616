//! Plans: what a build is to do, read from TOML.
#![tactic(auto)]

mod graphs;
mod hashed_places;
mod known;
mod laws;
mod limits;
mod name_table;
mod names;
mod parts;
mod plans;
mod profiles;
mod read;
mod rows;
mod search;
mod units;

pub use laws::{
    a_row_that_refuses_nothing_holds_nowhere, a_text_has_one_answer,
    the_answer_is_the_first_refusal,
};
pub use limits::{MAX_LEASES, MAX_WORKERS};
pub use plan_table::{Part, Place, PlanFail, PlanRefusal, Which};
pub use plans::{Plan, PlanAction, PlanTask};
pub use read::read_plan;
pub use units::{UnitWork, units_of};
