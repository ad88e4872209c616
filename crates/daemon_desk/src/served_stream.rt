//! Serving requests, from a source on a sink.
ghost use Rattle.std.specs.Prelude.{◌≡◌, ◌<◌, ◌≤◌, ◌+◌, ◌-◌, IfOk};
ghost use Rattle.daemon_desk.specs.Serving.{Outside, IsRequestOf, IsServing, ServesOn, HasServed};

use crate::answering::answer;
use crate::taking::take_frame;
use daemon_protocol::{Frame, Request, StreamStart};
use file_access::{DeskFail, Files, Sink, Source};
use std::alloc::{AllocError, Global};

/// The most bytes that are taken of a stream, 2^40.
pub const MAX_STREAM_BYTES: u64 = 1_099_511_627_776;

/// How serving ended.
#[derive(Clone, Copy)]
pub enum Served {
    /// A Stop came, or the stream ended between two frames.
    Done,
    /// At this place of the stream stands no request and no Stop, or the stream gave `MAX_STREAM_BYTES`.
    BadFrame(u64),
    /// The source failed.
    SourceFault,
    /// The sink failed. What it has taken is the beginning of the replies.
    SinkFault,
    /// There was no memory for a frame.
    NoMemory,
}

impl From<AllocError> for Served {
    ghost use Rattle.std.specs.Prelude.{◌≡◌};
    ghost use Rattle.daemon_desk.specs.declared.served_stream.Served.TheVariants.{NoMemory};

    ghost from_gives = { λ _ served. served ≡ NoMemory };

    fn from(_error: AllocError) -> Served {
        Served::NoMemory
    }
}

impl From<DeskFail> for Served {
    ghost use Rattle.std.specs.Prelude.{◌≡◌};
    ghost use Rattle.daemon_desk.specs.Ends.{served_of};

    ghost from_gives = { λ fail served. served ≡ served_of fail };

    fn from(fail: DeskFail) -> Served {
        match fail {
            DeskFail::Failed => Served::SourceFault,
            DeskFail::NoMemory => Served::NoMemory,
        }
    }
}

/// Answers each request of the source with a reply on the sink. Of each frame exactly its bytes are taken, the head and then the body:
/// so what follows a Stop stays in the source.
pub fn serve<S: Source, K: Sink, F: Files>(
    alloc: Global,
    source: &mut S,
    sink: &mut K,
    files: &mut F,
) -> Served
    ensures files { F.files files.new ≡ F.files files.old }
    ensures file_faults { F.faults files.old ≤ F.faults files.new }
    ensures source_faults { (S.seen source.old).faults ≤ (S.seen source.new).faults }
    ensures served { HasServed
        record { source = S.seen source.old; sink = K.seen sink.old; files = F.files files.old; faults = F.faults files.old }
        record { source = S.seen source.new; sink = K.seen sink.new; files = F.files files.new; faults = F.faults files.new }
        result }
{
    let mut held = Vec::new(alloc);
    let mut room = MAX_STREAM_BYTES;
    loop {
        match serve_next(alloc, source, sink, files, &mut held, room) {
            Ok(len) => room -= len,
            Err(served) => return served,
        }
    }
}

// Answers the next request, and tells how many bytes it took up; or tells how serving ended.
fn serve_next<S: Source, K: Sink, F: Files>(
    alloc: Global,
    source: &mut S,
    sink: &mut K,
    files: &mut F,
    held: &mut Vec<u8>,
    room: u64,
) -> Result<u64, Served>
    requires { room ≤ MAX_STREAM_BYTES }
    ensures files { F.files files.new ≡ F.files files.old }
    ensures file_faults { F.faults files.old ≤ F.faults files.new }
    ensures source_faults { (S.seen source.old).faults ≤ (S.seen source.new).faults }
    ensures len { IfOk result (λ len. (0 < len) × (len ≤ room)) }
    ensures serves { (start : Outside) → IsServing start
        record { source = S.seen source.old; sink = K.seen sink.old; files = F.files files.old; faults = F.faults files.old } room
        → ServesOn start
        record { source = S.seen source.new; sink = K.seen sink.new; files = F.files files.new; faults = F.faults files.new } room result }
{
    let start = take_frame(alloc, source, held, room)?;
    let len = held.len() as u64;
    let request = request_of(start, len, room)?;
    answer(alloc, &request, files, sink)?;
    Ok(len)
}

// The request that stands at the start of the bytes held, or how serving ends where there is none.
fn request_of(start: StreamStart, held: u64, room: u64) -> Result<Request, Served>
    requires room { room ≤ MAX_STREAM_BYTES }
    requires held { held ≤ room }
    ensures { IsRequestOf start (MAX_STREAM_BYTES - room + held) held result }
{
    match start {
        StreamStart::Whole(Frame::Request(request), _) => Ok(request),
        StreamStart::Whole(Frame::Stop, _) => Err(Served::Done),
        StreamStart::Unfinished if held == room => Err(Served::BadFrame(MAX_STREAM_BYTES)),
        StreamStart::Unfinished if held == 0 => Err(Served::Done),
        _ => Err(Served::BadFrame(MAX_STREAM_BYTES - room)),
    }
}
