//! What stands at the start of bytes.
ghost use Rattle.std.specs.Prelude.{◌≡◌, ◌<◌, ◌≤◌, ◌+◌, ◌^◌, ◌++◌, ℕ, List, length, IfOk};
ghost use Rattle.daemon_protocol.specs.StreamStart.{look, lacking, look_tag, look_length, look_body, look_field, start_of, FitsBehind};
ghost use Rattle.daemon_protocol.specs.declared.frames.Frame.{Frame};
ghost use Rattle.daemon_protocol.specs.declared.limits.TheConstants.{MAX_FRAME_BYTES, REQUEST_IN_MODE_TAG};
ghost use Rattle.daemon_protocol.specs.declared.starts.StreamStart.TheVariants.{Unfinished, Whole};

use crate::bodies::{frame_of, number_of};
use crate::frames::Frame;
use crate::limits::{
    HEAD_BYTES, MAX_BODY_BYTES, REPLY_IN_MODE_TAG, REPLY_TAG, REQUEST_IN_MODE_TAG, REQUEST_TAG,
    STOP_TAG,
};
use std::alloc::{AllocError, Global};

/// What is wrong with bytes that begin no frame.
#[derive(Clone, Copy)]
pub enum Flaw {
    /// The first byte is no frame's tag.
    Tag,
    /// The length of the body is over `MAX_BODY_BYTES`.
    Length,
    /// The body isn't one of its tag's bodies.
    Field,
}

/// What stands at the start of bytes.
#[derive(Drop)]
pub enum StreamStart {
    /// Too few bytes to tell.
    Unfinished,
    /// A frame, and how many bytes it takes up.
    Whole(Frame, usize),
    /// The start of no frame, whatever follows.
    Refused(Flaw),
}

/// What the head of a frame says, and the body behind it where it is whole.
pub enum Head<'a> {
    /// Too few bytes to tell.
    Unfinished,
    /// The tag, and the body.
    Whole(u8, &'a [u8]),
    /// The start of no frame, whatever follows.
    Refused(Flaw),
}

/// What stands at the start of the bytes.
pub fn look(alloc: Global, bytes: &[u8]) -> Result<StreamStart, AllocError>
    ensures { IfOk result (λ s. s ≡ look bytes.now) }
{
    match head_of(bytes) {
        Head::Unfinished => Ok(StreamStart::Unfinished),
        Head::Whole(tag, body) => {
            let frame = frame_of(alloc, tag, body)?;
            Ok(look_field(body.len(), frame))
        }
        Head::Refused(flaw) => Ok(StreamStart::Refused(flaw)),
    }
}

/// The head at the start of the bytes.
#[inline(always)]
pub fn head_of(bytes: &[u8]) -> Head<'_>
    ensures start { start_of result ≡ look bytes.now }
    ensures fits { FitsBehind HEAD_BYTES result (length bytes.now) }
{
    match bytes {
        [] => Head::Unfinished,
        [tag, bytes @ ..] => head_of_tag(*tag, bytes),
    }
}

// The head of a frame with this tag, by the bytes behind the tag. The tags with a mode are told apart first and by
// themselves: runs send no others, and so each of them is decoded with no look at the tags without a mode.
#[inline(always)]
fn head_of_tag(tag: u8, bytes: &[u8]) -> Head<'_>
    ensures start { start_of result ≡ look_tag tag bytes.now }
    ensures fits { FitsBehind 4 result (length bytes.now) }
{
    if REQUEST_IN_MODE_TAG <= tag {
        return head_in_mode(tag, bytes);
    }
    if tag == REQUEST_TAG || tag == REPLY_TAG || tag == STOP_TAG {
        head_of_length(tag, bytes)
    } else {
        Head::Refused(Flaw::Tag)
    }
}

// The head of a frame with this tag, which is none of those without a mode.
#[inline(always)]
fn head_in_mode(tag: u8, bytes: &[u8]) -> Head<'_>
    requires { REQUEST_IN_MODE_TAG ≤ tag }
    ensures start { start_of result ≡ look_tag tag bytes.now }
    ensures fits { FitsBehind 4 result (length bytes.now) }
{
    if tag == REQUEST_IN_MODE_TAG {
        head_of_length(REQUEST_IN_MODE_TAG, bytes)
    } else if tag == REPLY_IN_MODE_TAG {
        head_of_length(REPLY_IN_MODE_TAG, bytes)
    } else {
        Head::Refused(Flaw::Tag)
    }
}

// The head of a frame with a right tag, by the bytes behind it, which begin with the body's length.
#[inline(always)]
fn head_of_length(tag: u8, bytes: &[u8]) -> Head<'_>
    ensures start { start_of result ≡ look_length tag bytes.now }
    ensures fits { FitsBehind 4 result (length bytes.now) }
{
    if bytes.len() < 4 {
        return Head::Unfinished;
    }
    head_of_body(tag, number_of(&bytes[..4]) as usize, &bytes[4..])
}

// The head of a frame with a right tag and a body of this length, by the bytes behind the length.
#[inline(always)]
fn head_of_body(tag: u8, len: usize, bytes: &[u8]) -> Head<'_>
    ensures start { start_of result ≡ look_body tag len bytes.now }
    ensures fits { FitsBehind 0 result (length bytes.now) }
{
    if MAX_BODY_BYTES < len {
        return Head::Refused(Flaw::Length);
    }
    if bytes.len() < len {
        return Head::Unfinished;
    }
    Head::Whole(tag, &bytes[..len])
}

// What stands at the start of a stream by what a body of this length is: a whole frame, or a flaw where it is none.
fn look_field(len: usize, frame: Option<Frame>) -> StreamStart
    requires { HEAD_BYTES + len < 2 ^ 64 }
    ensures { result ≡ look_field len frame }
{
    match frame {
        Some(frame) => StreamStart::Whole(frame, HEAD_BYTES + len),
        None => StreamStart::Refused(Flaw::Field),
    }
}

/// How many bytes are lacking where bytes begin no whole frame yet: of the head, where it isn't there, or else of the
/// frame, whose length the head says.
pub fn lacking(bytes: &[u8]) -> usize
    requires { look bytes.now ≡ Unfinished }
    ensures exact { result ≡ lacking bytes.now }
    ensures some { 0 < result }
    ensures least { (more : List ℕ) (f : Frame) (n : ℕ) → look (bytes.now ++ more) ≡ Whole f n → length bytes.now + result ≤ n }
    ensures few { length bytes.now + result ≤ MAX_FRAME_BYTES }
{
    if bytes.len() < HEAD_BYTES {
        return HEAD_BYTES - bytes.len();
    }
    HEAD_BYTES + number_of(&bytes[1..HEAD_BYTES]) as usize - bytes.len()
}
