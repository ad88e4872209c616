ghost use Rattle.std.specs.Prelude.{◌≡◌, ◌≢◌, ℕ, IfOk};
ghost use Rattle.item_actions.specs.declared.outcomes.Outcome.TheVariants as outcomes;
ghost use Rattle.daemon_protocol.specs.declared.frames.Frame.TheVariants as frames;
ghost use Rattle.daemon_protocol.specs.declared.starts.StreamStart.TheVariants.{Whole};
ghost use Rattle.daemon_protocol.specs.StreamStart.{look};
ghost use Rattle.memory_desk.specs.Replies.{IsReplyIn};

use daemon_desk::reply_to;
use daemon_protocol::{Reply, look};
use file_access::DeskFail;
use item_actions::KeepAlive;
use std::alloc::Global;

/// The reply for this unit, in this mode, that stands at the start of the bytes.
pub(crate) fn reply_in(
    alloc: Global,
    unit: u32,
    keep: Option<KeepAlive>,
    bytes: &[u8],
) -> Result<Reply, DeskFail>
    ensures exact { IsReplyIn unit keep bytes.now result }
    ensures stands { IfOk result (λ r. (n : ℕ) × (look bytes.now ≡ Whole (frames.Reply r) n)) }
    ensures unit { IfOk result (λ r. r.unit ≡ unit) }
    ensures keep { IfOk result (λ r. r.keep ≡ keep) }
    ensures ran { IfOk result (λ r. r.outcome ≢ outcomes.Skipped) }
    ensures worked { IfOk result (λ r. r.outcome ≢ outcomes.Fault) }
{
    let start = look(alloc, bytes)?;
    reply_to(unit, keep, &start)
}
