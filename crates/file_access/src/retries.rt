ghost use Rattle.std.specs.Prelude.{◌≡◌, ◌↔◌, ◌-◌, ◌<◌, IsTrue, if◌then◌else◌};
ghost use Rattle.std.specs.IoError.{error_kind};
ghost use Rattle.file_access.specs.declared.retries.TheConstants.{MAX_RETRIES};

use std::io::{Error, ErrorKind};

// How often an interrupted call is made again, within one call of a sink or a desk.
const MAX_RETRIES: u32 = 1_000;

/// The retries that are left.
#[derive(Clone, Copy)]
pub(crate) struct Retries {
    left: u32,
}

impl Retries {
    /// As many as there may be, `MAX_RETRIES`.
    pub fn new() -> Retries
        ensures { result.left ≡ MAX_RETRIES }
    {
        Retries { left: MAX_RETRIES }
    }

    /// Uses up one retry where the error is an interrupted call and a retry is left.
    pub fn allow(&mut self, error: &Error) -> bool
        ensures allowed { IsTrue result ↔ ((error_kind error.now ≡ ErrorKind.Interrupted) × (0 < self.old.left)) }
        ensures left { self.new.left ≡ (if result then self.old.left - 1 else self.old.left) }
    {
        let allowed = error.kind() == ErrorKind::Interrupted && self.left > 0;
        if allowed {
            self.left -= 1;
        }
        allowed
    }
}
