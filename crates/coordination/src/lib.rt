//! The state lock: one book for several workers, each with a pass that agrees with it.
#![tactic(auto)]

mod attempts;
mod boxed_books;
mod decisions;
mod giving;
mod guarded;
mod halts;
mod holds;
mod keepers;
mod laws;
mod leases;
mod openings;
mod passes;
mod planned;
mod questions;
mod rule;
mod seats;
mod services;
mod shown_services;
mod sleep_and_wake;
mod slots;
mod turns;

pub use boxed_books::BoxedBook;
pub use decisions::{Decided, Decision, Followed};
pub use halts::Halt;
pub use keepers::{Giver, Keeper, Runner};
pub use laws::{
    openings_are_at_rest, sound_books_have_good_states, used_passes_have_their_numbers,
    workers_run_few_marks,
};
pub use leases::{Lease, current_lease};
pub use passes::Pass;
pub use planned::Planned;
pub use questions::Question;
pub use rule::Sight;
pub use services::{Coordination, Opened};
pub use shown_services::{OpenedWithViews, ShownService};
pub use slots::Slot;
pub use turns::{Ask, Awaits, Came, Decide, Run, RunThenDecide, Turn};
pub use worker_notes::{Offers, Queued, QueuedUnits, Sleepers, Then, Wakes};
