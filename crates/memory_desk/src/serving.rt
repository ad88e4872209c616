ghost use Rattle.std.specs.Prelude.{◌≡◌, Some, IfOk, true};
ghost use Rattle.item_actions.specs.Forms.{is_file_name};
ghost use Rattle.daemon_protocol.specs.Spelling.{spelling, FrameFits};
ghost use Rattle.daemon_protocol.specs.declared.frames.Frame.TheVariants as frames;
ghost use Rattle.daemon_protocol.specs.declared.frames.Request.{Request as Asked};
ghost use Rattle.daemon_desk.specs.Replies.{IsReplyTo};

use crate::replies::reply_in;
use daemon_desk::{Served, serve};
use daemon_protocol::{Frame, HEAD_BYTES, Reply, Request, encode, spelled_frames_are_read};
use file_access::DeskFail;
use item_actions::KeepAlive;
use memory_files::{FileMap, MemorySink, MemorySource};
use std::alloc::Global;

/// The most bytes of a reply: its head, the unit, the mode, and a digest behind the byte that says so.
const MAX_REPLY_BYTES: u64 = HEAD_BYTES as u64 + 38;

/// The reply of a daemon that serves over memory.
pub(crate) fn served_reply(
    alloc: Global,
    request: Request,
    files: &mut FileMap,
) -> Result<Reply, DeskFail>
    requires { is_file_name request.file ≡ true }
    ensures files { files.new ≡ files.old }
    ensures reply { IfOk result (λ reply. IsReplyTo (Some files.old) request reply) }
{
    let (unit, keep) = (request.unit, request.keep);
    let bytes = encode(alloc, &Frame::Request(request))?;
    reply_to_bytes(alloc, unit, keep, bytes, files)
}

// The reply of a daemon to the bytes of a request of this unit and mode.
fn reply_to_bytes(
    alloc: Global,
    unit: u32,
    keep: Option<KeepAlive>,
    bytes: Vec<u8>,
    files: &mut FileMap,
) -> Result<Reply, DeskFail>
    ensures files { files.new ≡ files.old }
    ensures reply { (request : Asked) → bytes.items ≡ spelling (frames.Request request) → is_file_name request.file ≡ true → FrameFits (frames.Request request)
        → unit ≡ request.unit → keep ≡ request.keep → IfOk result (λ reply. IsReplyTo (Some files.old) request reply) }
{
    spelled_frames_are_read();
    let mut sink = MemorySink::limited(alloc, MAX_REPLY_BYTES)?;
    let mut source = MemorySource::new(bytes, Vec::new(alloc));
    match serve(alloc, &mut source, &mut sink, files) {
        Served::Done => reply_in(alloc, unit, keep, sink.taken()),
        Served::NoMemory => Err(DeskFail::NoMemory),
        _ => Err(DeskFail::Failed),
    }
}
