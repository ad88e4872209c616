ghost use Rattle.std.specs.Prelude.{◌≡◌, IfOk};
ghost use Rattle.daemon_desk.specs.Sent.{sent_over};

use daemon_desk::SentRequest;
use daemon_protocol::Request;
use daemon_requirements::Requirements;
use std::alloc::{AllocError, Global};

/// A copy of a request that is sent over a link made for these requirements.
pub(crate) fn sent_request(
    alloc: Global,
    made_for: &Requirements,
    request: &Request,
) -> Result<SentRequest, AllocError>
    ensures { IfOk result (λ sent. sent ≡ sent_over made_for.now request.now) }
{
    Ok(SentRequest {
        made_for: made_for.copy(alloc)?,
        request: request.copy(alloc)?,
    })
}
