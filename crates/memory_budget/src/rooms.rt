//! What comes of asking for room in a budget, and of taking a daemon in.
use crate::permits::Permit;
use daemon_manager::Reserved;

/// What a pool answers to who asks for room for a daemon. It can't be dropped, as what stands in it can't. `P` is the permit.
pub enum Room<L, P = Permit> {
    /// This idle daemon serves, and was reserved.
    Idle(Reserved<L>),
    /// A daemon may be started. Idle ones were stopped for it: the caller stops these links, in this order.
    Start(P, Vec<L>),
    /// There is no room, not even without all idle daemons: so many MB are held by busy daemons, or permitted.
    Over(u64),
}

/// Why a daemon that was started wasn't taken in; its permit and its link come back.
pub enum Unadopted<L> {
    /// The permit isn't out in this pool.
    NotOut(Permit, L),
    /// There was no memory to note the daemon. The permit is still out.
    NoMemory(Permit, L),
}
