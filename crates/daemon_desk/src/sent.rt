//! The requests that a desk sent.
use daemon_protocol::Request;
use daemon_requirements::Requirements;

/// A request that was sent, and the requirements that its link is made for.
#[derive(Drop)]
pub struct SentRequest {
    pub made_for: Requirements,
    pub request: Request,
}
