//! Daemons that are nothing but what they were started with.
ghost use Rattle.std.specs.Prelude.{◌≡◌, IfOk};

use daemon_requirements::{Linked, RequirementFields, RequirementRefusal, Requirements};
use item_actions::{KeepAlive, Text};
use std::alloc::{AllocError, Global};

/// The program `self` with this heap.
pub(crate) fn requirements_of(alloc: Global, heap_mb: u32) -> Result<Requirements, AllocError> {
    let fields = RequirementFields {
        executable: Text::from_str(alloc, "self")?,
        heap_mb,
        args: Vec::new(alloc),
        properties: Vec::new(alloc),
        variables: Vec::new(alloc),
        debug: false,
        assertions: true,
        encoding: Text::from_str(alloc, "UTF-8")?,
        keep: KeepAlive::Session,
    };
    // Fields that are refused end a test as want of memory does.
    Requirements::of(fields).map_err(out_of_range)
}

fn out_of_range(_refusal: RequirementRefusal) -> AllocError {
    AllocError
}

/// A link that is nothing but what its daemon was started with.
#[derive(Drop)]
pub(crate) struct Link {
    pub(crate) made_for: Requirements,
    pub(crate) settled: bool,
}

impl Linked for Link {
    ghost requirements = { λ link. link.made_for };

    ghost settled = { λ link. link.settled };

    fn made_for(&self) -> &Requirements {
        &self.made_for
    }
}
