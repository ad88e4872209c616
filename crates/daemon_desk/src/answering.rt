ghost use Rattle.std.specs.Prelude.{◌≡◌, ◌≤◌};
ghost use Rattle.daemon_protocol.specs.Spelling.{IsValid};
ghost use Rattle.daemon_desk.specs.Answering.{AnswersAs, Writes};

use crate::served_stream::Served;
use daemon_protocol::{Frame, Reply, Request, encode};
use file_access::{Files, Sink, put_all, work_out};
use std::alloc::Global;

/// Answers a request with a reply on the sink, of the request's unit and keep-alive mode.
#[tactic(auto, using(file_access::proofs::lemmas::Counting::outcome_kept))]
pub(crate) fn answer<K: Sink, F: Files>(
    alloc: Global,
    request: &Request,
    files: &mut F,
    sink: &mut K,
) -> Result<(), Served>
    ensures files { F.files files.new ≡ F.files files.old }
    ensures count { F.faults files.old ≤ F.faults files.new }
    ensures answers { AnswersAs (F.files files.old) (F.faults files.old) (F.faults files.new) (K.seen sink.old) (K.seen sink.new) request.now result }
{
    let outcome = work_out(alloc, &request.action, &request.file, files);
    let unit = request.unit;
    let keep = request.keep;
    put_frame(
        alloc,
        &Frame::Reply(Reply {
            unit,
            outcome,
            keep,
        }),
        sink,
    )
}

// Writes a frame on the sink.
fn put_frame<K: Sink>(alloc: Global, frame: &Frame, sink: &mut K) -> Result<(), Served>
    requires { IsValid frame.now }
    ensures { Writes frame.now (K.seen sink.old) (K.seen sink.new) result }
{
    let bytes = encode(alloc, frame)?;
    match put_all(sink, &bytes) {
        Ok(()) => Ok(()),
        Err(_) => Err(Served::SinkFault),
    }
}
