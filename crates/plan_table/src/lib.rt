//! The table of a plan: its TOML document, what stands under each key, and the refusals that each table gives by
//! itself.
#![tactic(auto)]

mod document;
mod forms;
mod keys;
mod laws;
mod look;
mod refusal_places;
mod refusals;
mod rules;
mod search;
mod table_refusals;
mod tables;
mod taking;
mod values;

pub use document::{MAX_PARTS, read_document};
pub use keys::{
    actions_of, after_of, all_projects_of, args_of, assertions_of, debug_of, do_of, fetch_of,
    heap_of, isolation_of, items_of, keep_alive_of, name_of, needle_of, project_of, projects_of,
    properties_of, requirements_name_of, requirements_of, tasks_of, variables_of, wait_of,
};
pub use laws::{the_first_place_is_told, the_first_refusal_is_told, what_is_not_refused_is_formed};
pub use refusals::{Part, Place, PlanFail, PlanRefusal, Which};
pub use search::{PlaceTest, first_place, places};
pub use table_refusals::table_refusal;
pub use taking::{
    into_text, take_actions, take_args, take_encoding, take_executable, take_fetch, take_file,
    take_items, take_name, take_projects, take_properties, take_requirements, take_tasks,
    take_variables,
};
pub use values::text_of;
