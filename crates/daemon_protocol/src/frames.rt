//! Frames, and why bytes are none.
ghost use Rattle.std.specs.Prelude.{◌≡◌, IfOk};

use item_actions::{ItemAction, KeepAlive, Outcome, Text};
use std::alloc::{AllocError, Global};
use thiserror::Error;

/// A unit of work that a daemon is asked to do.
pub struct Request {
    pub unit: u32,
    pub action: ItemAction,
    /// The name of a file, of the form that `item_actions::is_file_name` tests.
    pub file: Text,
    /// The keep-alive mode that is asked for. Without one the frame is of version 1, and with one of version 2.
    pub keep: Option<KeepAlive>,
}

// By hand, so that crates that let one go call this, in place of proving what it does anew.
impl Drop for Request {
    fn drop(self) {
        let Request {
            unit: _,
            action: _,
            file: _,
            keep: _,
        } = self;
    }
}

impl Request {
    /// An equal request. The error is want of memory alone.
    pub fn copy(&self, alloc: Global) -> Result<Request, AllocError>
        ensures { IfOk result (λ copy. copy ≡ self.now) }
    {
        Ok(Request {
            unit: self.unit,
            action: self.action,
            file: self.file.copy(alloc)?,
            keep: self.keep,
        })
    }
}

/// What became of a unit of work.
#[derive(Clone, Copy)]
pub struct Reply {
    pub unit: u32,
    /// It isn't `Skipped`, which has no bytes.
    pub outcome: Outcome,
    /// That of its request.
    pub keep: Option<KeepAlive>,
}

/// What is sent over a link.
#[derive(Drop)]
pub enum Frame {
    /// From the build to a daemon.
    Request(Request),
    /// From a daemon to the build.
    Reply(Reply),
    /// From the build: no more work comes.
    Stop,
}

/// Why the bytes of a stream go on with no frame, each with the place of the first byte that is in no frame.
#[derive(Clone, Copy, Debug, PartialEq, Eq, Error)]
pub enum FrameRefusal {
    /// That byte is no frame's tag.
    #[error("the byte at place {0} is no frame's tag")]
    BadTag(u64),
    /// The length of the body is over `MAX_BODY_BYTES`.
    #[error("the frame at place {0} is longer than any frame")]
    BadLength(u64),
    /// The body isn't one of its tag's bodies.
    #[error("the frame at place {0} has none of its tag's bodies")]
    BadField(u64),
}
