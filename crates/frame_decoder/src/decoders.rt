//! Frames of a stream that comes in pieces.
ghost use Rattle.std.specs.Prelude.{◌≡◌, ◌+◌, ◌<◌, ◌≤◌, ◌^◌, ◌++◌, ℕ, List, [], length, drop, IfOk, OnErr, IsSome};
ghost use Rattle.daemon_protocol.specs.declared.frames.Frame.{Frame};
ghost use Rattle.daemon_protocol.specs.StreamStart.{look, Cuts};
ghost use Rattle.frame_decoder.specs.DecoderView.{Reads, nothing_read, refusal_at, start_with, after_frames, IsPushed, ReadsOn};
ghost use Rattle.daemon_protocol.specs.Bodies.{frame_of};

use daemon_protocol::{
    Flaw, Frame, FrameRefusal, HEAD_BYTES, Head, REPLY_IN_MODE_TAG, REPLY_TAG, REQUEST_IN_MODE_TAG,
    REQUEST_TAG, head_of, reply_in_mode_of, reply_of, request_in_mode_of, request_of, stop_of,
};
use std::alloc::{AllocError, Global};
use std::marker::Model;

/// What a piece of a stream gave.
#[derive(Drop)]
pub struct Fed {
    /// The frames that became whole, in order.
    pub frames: Vec<Frame>,
    /// Why no frame comes any more, if that is so.
    pub refusal: Option<FrameRefusal>,
}

// The frames that bytes begin with, how many bytes they take up, and the flaw of what follows them, if it can
// be no frame.
#[derive(Drop)]
struct Front {
    frames: Vec<Frame>,
    len: usize,
    flaw: Option<Flaw>,
}

/// Reads the frames of a stream that comes in pieces. It holds the bytes that are no whole frame yet, and
/// the place in the stream where they begin. After a refusal it holds nothing, and the place is the refusal's.
#[derive(Drop)]
pub struct Decoder {
    held: Vec<u8>,
    place: u64,
    refusal: Option<FrameRefusal>,
}

impl Model for Decoder {
    ghost use Rattle.frame_decoder.specs.DecoderView.{DecoderView};

    ghost Value = { DecoderView };

    ghost view = { λ d. record { held = d.held.items; place = d.place; refusal = d.refusal } };
}

impl Decoder {
    /// A decoder at the start of a stream. It takes no memory.
    pub fn new(alloc: Global) -> Decoder
        ensures value { result ≡ nothing_read }
        ensures reads { Reads [] [] result }
    {
        Decoder {
            held: Vec::new(alloc),
            place: 0,
            refusal: None,
        }
    }

    /// Reads one piece more: the frames of the stream so far are those given before, and then these. A refusal
    /// comes as soon as the bytes tell it. After it each piece gives no frames and the same refusal. Where
    /// there is no memory the decoder is as before.
    pub fn feed(&mut self, alloc: Global, piece: &[u8]) -> Result<Fed, AllocError>
        requires room { self.old.place + length self.old.held + length piece.now < 2 ^ 64 }
        ensures reads { (stream : List ℕ) (frames : List Frame) → Reads stream frames self.old
            → IfOk result (λ fed. Reads (stream ++ piece.now) (frames ++ fed.frames.items) self.new) }
        ensures refusal { IfOk result (λ fed. fed.refusal ≡ self.new.refusal) }
        ensures refused { IsSome self.old.refusal → IfOk result (λ fed. (fed.frames.items ≡ []) × (self.new ≡ self.old)) }
        ensures err { OnErr result (self.new ≡ self.old) }
    {
        if self.refusal.is_some() {
            return Ok(Fed {
                frames: Vec::new(alloc),
                refusal: self.refusal,
            });
        }
        if self.held.is_empty() {
            self.read(alloc, piece)
        } else {
            self.read_behind(alloc, piece)
        }
    }

    // Reads a piece where nothing is held. Only what is no whole frame yet is copied.
    fn read(&mut self, alloc: Global, piece: &[u8]) -> Result<Fed, AllocError>
        requires none { self.old.held ≡ [] }
        requires room { self.old.place + length piece.now < 2 ^ 64 }
        ensures reads { IfOk result (λ fed. ReadsOn piece.now fed.frames.items self.old self.new) }
        ensures refusal { IfOk result (λ fed. fed.refusal ≡ self.new.refusal) }
        ensures err { OnErr result (self.new ≡ self.old) }
    {
        let front = front_of(alloc, piece)?;
        if front.flaw.is_none() {
            self.held.extend_from_slice(&piece[front.len..])?;
        }
        Ok(self.pass(front))
    }

    // Reads a piece that comes behind what is held.
    fn read_behind(&mut self, alloc: Global, piece: &[u8]) -> Result<Fed, AllocError>
        requires room { self.old.place + length self.old.held + length piece.now < 2 ^ 64 }
        ensures reads { IfOk result (λ fed. ReadsOn (self.old.held ++ piece.now) fed.frames.items self.old self.new) }
        ensures refusal { IfOk result (λ fed. fed.refusal ≡ self.new.refusal) }
        ensures err { OnErr result (self.new ≡ self.old) }
    {
        let before = self.held.len();
        self.held.extend_from_slice(piece)?;
        match front_of(alloc, &self.held) {
            Ok(front) => {
                drop_front(&mut self.held, front.len);
                Ok(self.pass(front))
            }
            Err(error) => {
                self.held.truncate(before);
                Err(error)
            }
        }
    }

    // Goes past a front. What comes after it is held, where it may become a frame.
    fn pass(&mut self, front: Front) -> Fed
        requires { self.old.place + front.len < 2 ^ 64 }
        ensures reading { self.new ≡ after_frames self.old front.len front.flaw }
        ensures frames { result.frames ≡ front.frames }
        ensures refusal { result.refusal ≡ self.new.refusal }
    {
        self.place += front.len as u64;
        if let Some(flaw) = front.flaw {
            self.held.clear();
            self.refusal = Some(refusal_at(flaw, self.place));
        }
        Fed {
            frames: front.frames,
            refusal: self.refusal,
        }
    }

    /// How many bytes are held that are no whole frame yet; 0 after a refusal.
    pub fn rest(&self) -> u64
        ensures { result ≡ length self.now.held }
    {
        self.held.len() as u64
    }

    /// The place in the stream where these bytes begin, or that of the refusal.
    pub fn place(&self) -> u64
        ensures { result ≡ self.now.place }
    {
        self.place
    }
}

// The frames that the bytes begin with, and what follows them.
#[inline(always)]
fn front_of(alloc: Global, bytes: &[u8]) -> Result<Front, AllocError>
    ensures within { IfOk result (λ f. f.len ≤ length bytes.now) }
    ensures cuts { IfOk result (λ f. Cuts bytes.now f.frames.items (drop f.len bytes.now)) }
    ensures end { IfOk result (λ f. look (drop f.len bytes.now) ≡ start_with f.flaw) }
{
    let mut frames = Vec::new(alloc);
    let mut len = 0usize;
    loop {
        let flaw = match head_of(&bytes[len..]) {
            Head::Unfinished => None,
            Head::Whole(tag, body) => {
                if push_frame(alloc, &mut frames, tag, body)? {
                    len += HEAD_BYTES + body.len();
                    continue;
                }
                Some(Flaw::Field)
            }
            Head::Refused(flaw) => Some(flaw),
        };
        return Ok(Front { frames, len, flaw });
    }
}

// Puts the frame of this tag whose body these bytes are behind the others, and answers whether there is one.
// Each kind of frame goes straight to its place: a frame is large to move.
#[inline(always)]
fn push_frame(
    alloc: Global,
    frames: &mut Vec<Frame>,
    tag: u8,
    body: &[u8],
) -> Result<bool, AllocError>
    ensures { IfOk result (λ is. IsPushed (frame_of tag body.now) frames.old.items frames.new.items is) }
{
    match tag {
        REQUEST_TAG => push_some(frames, request_of(alloc, body)?),
        REPLY_TAG => push_some(frames, reply_of(body)),
        REQUEST_IN_MODE_TAG => push_some(frames, request_in_mode_of(alloc, body)?),
        REPLY_IN_MODE_TAG => push_some(frames, reply_in_mode_of(body)),
        _ => push_some(frames, stop_of(body)),
    }
}

// Pushes the frame, and answers whether there was one.
#[inline(always)]
fn push_some(frames: &mut Vec<Frame>, frame: Option<Frame>) -> Result<bool, AllocError>
    ensures { IfOk result (λ is. IsPushed frame frames.old.items frames.new.items is) }
{
    match frame {
        Some(frame) => {
            frames.push(frame)?;
            Ok(true)
        }
        None => Ok(false),
    }
}

// Takes so many bytes off the front.
fn drop_front(bytes: &mut Vec<u8>, count: usize)
    requires { count ≤ length bytes.old.items }
    ensures { bytes.new.items ≡ drop count bytes.old.items }
{
    if count == 0 {
        return;
    }
    let left = bytes.len() - count;
    bytes.copy_within(count.., 0);
    bytes.truncate(left);
}

// The refusal that a flaw is at this place of the stream.
fn refusal_at(flaw: Flaw, place: u64) -> FrameRefusal
    ensures { result ≡ refusal_at flaw place }
{
    match flaw {
        Flaw::Tag => FrameRefusal::BadTag(place),
        Flaw::Length => FrameRefusal::BadLength(place),
        Flaw::Field => FrameRefusal::BadField(place),
    }
}
