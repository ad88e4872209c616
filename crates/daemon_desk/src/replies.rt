ghost use Rattle.std.specs.Prelude.{◌≡◌, ◌≢◌, ℕ, IfOk, IsTrue};
ghost use Rattle.item_actions.specs.declared.outcomes.Outcome.TheVariants as outcomes;
ghost use Rattle.daemon_protocol.specs.declared.frames.Frame.TheVariants as frames;
ghost use Rattle.daemon_protocol.specs.declared.starts.StreamStart.TheVariants.{Whole};
ghost use Rattle.daemon_desk.specs.Replies.{is_same_mode, reply_to};

use daemon_protocol::{Frame, Reply, StreamStart};
use file_access::DeskFail;
use item_actions::{KeepAlive, Outcome};

/// The reply that stands at the start of an answer. Failed comes where none does, where it is for another unit, of another
/// version or in another mode, and where it tells a fault. Nothing is counted here.
pub fn reply_to(unit: u32, keep: Option<KeepAlive>, start: &StreamStart) -> Result<Reply, DeskFail>
    ensures exact { result ≡ reply_to unit keep start.now }
    ensures stands { IfOk result (λ r. (n : ℕ) × (start.now ≡ Whole (frames.Reply r) n)) }
    ensures unit { IfOk result (λ r. r.unit ≡ unit) }
    ensures keep { IfOk result (λ r. r.keep ≡ keep) }
    ensures ran { IfOk result (λ r. r.outcome ≢ outcomes.Skipped) }
    ensures worked { IfOk result (λ r. r.outcome ≢ outcomes.Fault) }
{
    match start {
        StreamStart::Whole(Frame::Reply(reply), _)
            if reply.unit == unit
                && is_same_mode(reply.keep, keep)
                && !matches!(reply.outcome, Outcome::Fault | Outcome::Skipped) => { Ok(*reply) }
        _ => Err(DeskFail::Failed),
    }
}

// Whether two frames are of one version and in one mode.
fn is_same_mode(a: Option<KeepAlive>, b: Option<KeepAlive>) -> bool
    ensures value { result ≡ is_same_mode a b }
    ensures same { IsTrue result → a ≡ b }
{
    match (a, b) {
        (None, None) => true,
        (Some(KeepAlive::Session), Some(KeepAlive::Session)) => true,
        (Some(KeepAlive::Daemon), Some(KeepAlive::Daemon)) => true,
        _ => false,
    }
}
