ghost use Rattle.std.specs.Prelude.{◌≡◌, ◌<◌, ◌≤◌, ◌+◌, vec_len, take, drop, IfOk, IfErr, OnErr};
ghost use Rattle.std.specs.Io.KnownBytes.{Consumes, IsAtEnd, Keeps};
ghost use Rattle.daemon_protocol.specs.declared.limits.TheConstants.{MAX_FRAME_BYTES};
ghost use Rattle.file_access.specs.SinkView.{Rises};
ghost use Rattle.daemon_desk.specs.Taking.{TakesFrame, TakesMore};
ghost use Rattle.file_access.specs.declared.files.DeskFail.TheVariants.{Failed};

use daemon_protocol::{StreamStart, lacking, look};
use file_access::{DeskFail, Source};
use std::alloc::Global;
use std::cmp::min;

/// Takes the bytes of the next frame and none behind it, and at most `room` bytes.
///
/// It answers what stands at the start of the bytes that it holds then. They are no whole frame yet only
/// where the stream ended, or gave as many bytes as there is room for. What was held before is forgotten. Failed and
/// NoMemory come before the frame is whole, and the bytes taken of it are lost.
pub fn take_frame<S: Source>(
    alloc: Global,
    source: &mut S,
    held: &mut Vec<u8>,
    room: u64,
) -> Result<StreamStart, DeskFail>
    ensures { TakesFrame (S.seen source.old) (S.seen source.new) room held.new.items result }
{
    held.clear();
    loop {
        let start = look(alloc, held)?;
        let StreamStart::Unfinished = start else {
            return Ok(start);
        };
        let most = min(lacking(held) as u64, room - held.len() as u64);
        if most == 0 {
            return Ok(start);
        }
        if take_more(source, held, most as usize)? == 0 {
            return Ok(start);
        }
    }
}

// Takes at most so many bytes more, once, and answers how many.
fn take_more<S: Source>(source: &mut S, held: &mut Vec<u8>, most: usize) -> Result<usize, DeskFail>
    requires some { 0 < most }
    requires few { vec_len held.old + most ≤ MAX_FRAME_BYTES }
    ensures { TakesMore (S.seen source.old) (S.seen source.new) held.old.items held.new.items most result }
{
    let len = held.len();
    held.resize(len + most, 0)?;
    let count = take_at(source, held, len)?;
    held.truncate(len + count);
    Ok(count)
}

// Takes once, into the bytes from this place on.
fn take_at<S: Source>(source: &mut S, held: &mut Vec<u8>, place: usize) -> Result<usize, DeskFail>
    requires { place < vec_len held.old }
    ensures len { vec_len held.new ≡ vec_len held.old }
    ensures front { take place held.new.items ≡ take place held.old.items }
    ensures faults { (S.seen source.old).faults ≤ (S.seen source.new).faults }
    ensures fits { IfOk result (λ n. place + n ≤ vec_len held.new) }
    ensures ok { IfOk result (λ n. Consumes (S.seen source.old).left (S.seen source.new).left (take n (drop place held.new.items))) }
    ensures end { IfOk result (λ n. n ≡ 0 → IsAtEnd (S.seen source.new).left) }
    ensures kept { OnErr result (Keeps (S.seen source.old).left (S.seen source.new).left) }
    ensures failed { IfErr result (λ fail. (fail ≡ Failed) × Rises (S.seen source.old).faults (S.seen source.new).faults) }
{
    match source.take(&mut held[place..]) {
        Ok(count) => Ok(count),
        Err(_) => Err(DeskFail::Failed),
    }
}
