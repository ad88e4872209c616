//! The fields of requirements, before they are tested.
use item_actions::{KeepAlive, Text};

/// A system property or an environment variable.
pub struct Pair {
    pub name: Text,
    pub value: Text,
}

// By hand, so that crates that let one go call this, in place of proving what it does anew.
impl Drop for Pair {
    fn drop(self) {
        let Pair { name: _, value: _ } = self;
    }
}

/// What a daemon is started with, not yet tested.
pub struct RequirementFields {
    /// The program that is started.
    pub executable: Text,
    /// The greatest size of the heap, in MB; `Requirements::of` wants 1 to `MAX_HEAP_MB`.
    pub heap_mb: u32,
    /// The arguments of the program, in order.
    pub args: Vec<Text>,
    /// The system properties; `Requirements::of` wants distinct names.
    pub properties: Vec<Pair>,
    /// The environment variables; `Requirements::of` wants distinct names.
    pub variables: Vec<Pair>,
    /// Whether a debugger may attach.
    pub debug: bool,
    /// Whether assertions are tested.
    pub assertions: bool,
    /// The name of the default encoding of characters.
    pub encoding: Text,
    /// How long the daemon is kept. It is told in each request.
    pub keep: KeepAlive,
}

// By hand, so that crates that let one go call this, in place of proving what it does anew.
impl Drop for RequirementFields {
    fn drop(self) {
        let RequirementFields {
            executable: _,
            heap_mb: _,
            args: _,
            properties: _,
            variables: _,
            debug: _,
            assertions: _,
            encoding: _,
            keep: _,
        } = self;
    }
}
