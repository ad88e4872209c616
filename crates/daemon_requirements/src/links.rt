//! What a link to a daemon tells.
ghost use Rattle.std.specs.Prelude.{◌≡◌, Bool};
ghost use Rattle.daemon_requirements.specs.RequirementsView.{RequirementsView};

use crate::requirement::Requirements;

/// A link to a daemon. Its meaning is the requirements that the daemon was started with, and whether the link is settled:
/// nothing failed on it, and no reply is due. Only a settled link may serve for another request.
pub trait Linked {
    ghost requirements: { Self → RequirementsView };

    ghost settled: { Self → Bool };

    /// The requirements that the link is made for.
    fn made_for(&self) -> &Requirements
        ensures { result.now ≡ requirements self.now };
}
