//! Blocking sections: a worker gives everything back round something that waits, and takes it again.
#![tactic(auto)]

mod blocked;
mod entering;
mod laws;
mod leaving;
mod taking_up;

pub use blocked::Blocked;
pub use entering::enter;
pub use laws::sections_outlast_others;
pub use leaving::{StillBlocked, leave};
pub use taking_up::TakeUp;
