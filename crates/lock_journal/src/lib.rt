//! The history of a state, and the book that keeps the entries of its transforms.
#![tactic(auto)]

mod books;
mod histories;
mod history_laws;
mod pasts;
mod segments;
mod shown_changes;
mod shown_entries;
mod stored_changes;
mod stored_closings;
mod stored_entries;

pub use books::Book;
pub use history_laws::{
    closing_entries_give_the_marks, early_start_is_unlawful, every_run_comes_to_its_plan,
    histories_go_on, honest_workers_give_the_answers, lawful_histories_lead_to_good_states,
    one_entry_more, only_items_are_queued, outcomes_follow_their_rule, outcomes_go_by_number,
    own_changes_say_all, own_entries_say_all, owners_of_all_projects_own_alone,
    plain_histories_are_lawful_as_without_all_projects, running_tasks_are_left_alone,
    segments_are_one_history, skipping_leaves_later_actions, tasks_without_after_have_rank_zero,
    worked_histories_are_lawful,
};
pub use segments::Segment;
pub use shown_changes::Changes;
pub use shown_entries::Shown;
