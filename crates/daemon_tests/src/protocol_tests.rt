//! Tests of `daemon_protocol` and `frame_decoder`.
ghost use Rattle.std.specs.Prelude.{IsTrue};
ghost use Rattle.daemon_protocol.specs.Spelling.{IsValid};

use daemon_protocol::{
    Frame, FrameRefusal, encode, read_frames_are_spelled, spelled_frames_are_read,
};
use frame_decoder::{Decoder, streams_have_one_reading};
use item_actions::{Outcome, is_file_name};
use std::alloc::{AllocError, Global};

// Far more bytes than any stream here has.
const MANY: u64 = 1 << 40;

// A request and a reply of version 1, and of version 2 in both modes, and a Stop.
const STREAM: &[u8] =
    b"\x01\0\0\0\x0c\0\0\0\x07\x01\0\x05a.txt\x02\0\0\0\x0d\0\0\0\x07\x01\0\0\0\0\0\0\0\x03\
\x11\0\0\0\x0d\0\0\0\x07\x01\x01\0\x05a.txt\x12\0\0\0\x0e\0\0\0\x07\x01\x01\0\0\0\0\0\0\0\x03\
\x11\0\0\0\x0f\0\0\0\x07\x02\x05\x01o\0\x05a.txt\x12\0\0\0\x06\0\0\0\x07\x02\x03\x03\0\0\0\0";

// Where each frame of the stream ends.
static ENDS: [usize; 7] = [17, 35, 53, 72, 92, 103, 108];

const STOP: &[u8] = b"\x03\0\0\0\0";

// Whether a frame can be encoded.
fn is_valid(frame: &Frame) -> bool
    ensures { IsTrue result → IsValid frame.now }
{
    match frame {
        Frame::Request(request) => is_file_name(request.file.bytes()),
        Frame::Reply(reply) => !matches!(reply.outcome, Outcome::Skipped),
        Frame::Stop => true,
    }
}

// Puts the bytes of the frames that can be encoded behind others.
fn spell(alloc: Global, frames: &[Frame], bytes: &mut Vec<u8>) -> Result<(), AllocError> {
    for frame in frames {
        if is_valid(frame) {
            bytes.extend_from_slice(&encode(alloc, frame)?)?;
        }
    }
    Ok(())
}

/// What a decoder told of a stream: how many frames it gave, why no more come, how many bytes it holds, and its place.
type Told = (usize, Option<FrameRefusal>, u64, u64);

// Feeds a decoder, puts the bytes of its frames behind others, and tells how many frames there were and why no more come. A
// decoder with more bytes than any stream here has ends a test as want of memory does.
fn feed(
    alloc: Global,
    decoder: &mut Decoder,
    piece: &[u8],
    spelled: &mut Vec<u8>,
) -> Result<(usize, Option<FrameRefusal>), AllocError> {
    if decoder.place() >= MANY || decoder.rest() >= MANY {
        return Err(AllocError);
    }
    let fed = decoder.feed(alloc, piece)?;
    spell(alloc, &fed.frames, spelled)?;
    Ok((fed.frames.len(), fed.refusal))
}

// Feeds a new decoder with a stream in pieces of `size` bytes.
fn read(
    alloc: Global,
    stream: &[u8],
    size: usize,
    spelled: &mut Vec<u8>,
) -> Result<Told, AllocError> {
    let mut decoder = Decoder::new(alloc);
    let mut told = (0usize, None);
    for piece in stream.chunks(size.max(1)) {
        let (frames, refusal) = feed(alloc, &mut decoder, piece, spelled)?;
        told = (told.0.saturating_add(frames), refusal);
    }
    Ok((told.0, told.1, decoder.rest(), decoder.place()))
}

// Whether a stream in pieces of `size` bytes is read so, and its frames have these bytes. Want of memory fails a test.
fn is_read(alloc: Global, stream: &[u8], size: usize, told: Told, bytes: &[u8]) -> bool {
    let mut spelled = Vec::new(alloc);
    match read(alloc, stream, size, &mut spelled) {
        Ok(came) => came == told && spelled.as_slice() == bytes,
        Err(_) => false,
    }
}

// Whether a stream is read so in pieces of each size up to this one.
fn is_read_in_pieces(alloc: Global, stream: &[u8], most: usize, told: Told, bytes: &[u8]) -> bool {
    for size in 0..most {
        if !is_read(alloc, stream, size.saturating_add(1), told, bytes) {
            return false;
        }
    }
    true
}

#[test]
fn streams_in_pieces_of_each_size(rt: HostRuntime) {
    spelled_frames_are_read();
    read_frames_are_spelled();
    streams_have_one_reading();
    let whole = (7, None, 0, 108);
    assert!(rt; is_read_in_pieces(rt.alloc(), STREAM, 108, whole, STREAM));
    let refused = (1, Some(FrameRefusal::BadField(5)), 0, 5);
    assert!(rt; is_read_in_pieces(rt.alloc(), b"\x03\0\0\0\0\x02\0\0\0\0", 10, refused, STOP));
}

// How many frames end within so many bytes, and where the last of them does.
fn whole(len: usize) -> (usize, usize) {
    let mut last = (0usize, 0);
    for end in &ENDS {
        if *end <= len {
            last = (last.0.saturating_add(1), *end);
        }
    }
    last
}

// Whether the stream's first bytes are read as the frames that end within them.
fn is_read_as_far(alloc: Global, end: usize) -> bool {
    let (frames, place) = whole(end);
    let rest = end.saturating_sub(place);
    let told = (frames, None, rest as u64, place as u64);
    let spelled = STREAM.get(..place).unwrap_or(b"");
    let stream = STREAM.get(..end).unwrap_or(b"");
    is_read(alloc, stream, 108, told, spelled)
}

// Whether a stream that is another one from the byte at this place on is read as frames whose bytes stand at its beginning, as
// far as that byte at least, and what follows them is held or refused.
fn is_as_far(stream: &[u8], spelled: &[u8], told: Told, place: usize) -> bool {
    let (frames, refusal, rest, end) = told;
    let (before, at) = whole(place);
    stream.starts_with(spelled)
        && spelled.len() as u64 == end
        && before <= frames
        && at as u64 <= end
        && (refusal.is_some() || end.saturating_add(rest) == 108)
}

// Whether the stream is read so where its byte at this place is another.
fn is_read_changed(alloc: Global, place: usize, byte: u8) -> Result<bool, AllocError> {
    let mut stream = Vec::from_slice(alloc, STREAM)?;
    if let Some(there) = stream.get_mut(place) {
        *there = byte;
    }
    let mut spelled = Vec::new(alloc);
    let told = read(alloc, &stream, 108, &mut spelled)?;
    Ok(is_as_far(&stream, &spelled, told, place))
}

#[test]
fn a_stream_cut_off_at_every_byte_and_with_each_byte_changed(
    rt: HostRuntime,
) -> Result<(), AllocError> {
    for place in 0..108 {
        assert!(rt; is_read_as_far(rt.alloc(), place), "cut off at {place}");
        for byte in 0..=255u8 {
            assert!(rt;
                is_read_changed(rt.alloc(), place, byte)?,
                "{byte} at {place}"
            );
        }
    }
    Ok(())
}

// Whether a stream which comes byte by byte isn't refused, gives no frames and is held.
fn is_held(alloc: Global, stream: &[u8]) -> bool {
    is_read(alloc, stream, 1, (0, None, stream.len() as u64, 0), b"")
}

// Whether a stream behind which a Stop stands is refused with its last byte and not before, gives no frames, and the Stop is
// refused so too: byte by byte, and with the stream in one piece.
fn is_refused(alloc: Global, stream: &[u8], refusal: FrameRefusal) -> bool {
    let end = stream.len().saturating_sub(STOP.len());
    let told = (0, Some(refusal), 0, 0);
    is_held(alloc, stream.get(..end.saturating_sub(1)).unwrap_or(b""))
        && is_read(alloc, stream.get(..end).unwrap_or(b""), 1, told, b"")
        && is_read(alloc, stream, 1, told, b"")
        && is_read(alloc, stream, end, told, b"")
}

// Whether a stream that begins with this tag is held where a frame has it, and is refused where none has.
fn is_tag_known_or_refused(alloc: Global, tag: u8) -> bool {
    if TAGS.contains(&tag) {
        is_held(alloc, &[tag, 0, 0, 0])
    } else {
        is_refused(alloc, &[tag, 3, 0, 0, 0, 0], FrameRefusal::BadTag(0))
    }
}

static TAGS: [u8; 5] = [1, 2, 3, 0x11, 0x12];

static LENGTHS: [u32; 6] = [65_537, 65_538, 1 << 17, 1 << 24, 1 << 31, u32::MAX];

// Whether frames with this tag are refused where they are too long, and are held up to the greatest length.
fn are_long_ones_refused(alloc: Global, tag: u8) -> bool {
    for length in &LENGTHS {
        let [a, b, c, d] = length.to_be_bytes();
        let stream = [tag, a, b, c, d, 3, 0, 0, 0, 0];
        if !is_refused(alloc, &stream, FrameRefusal::BadLength(0)) {
            return false;
        }
    }
    is_held(alloc, &[tag, 0, 1, 0, 0, 0])
}

// Tags, lengths, and bodies that none of the tag's frames has, each before a Stop.
static BODIES: [&[u8]; 44] = [
    b"\x01\0\0\0\0\x03\0\0\0\0",
    b"\x01\0\0\0\x03\0\0\0\x03\0\0\0\0",
    b"\x01\0\0\0\x04\0\0\0\x07\x03\0\0\0\0",
    b"\x01\0\0\0\x05\0\0\0\x07\x01\x03\0\0\0\0",
    b"\x01\0\0\0\x06\0\0\0\x07\x01\0\x03\0\0\0\0",
    b"\x01\0\0\0\x07\0\0\0\x07\x01\0\0\x03\0\0\0\0",
    b"\x01\0\0\0\x07\0\0\0\x07\x01\0\x01\x03\0\0\0\0",
    b"\x01\0\0\0\x09\0\0\0\x07\x01\0\x01ab\x03\0\0\0\0",
    b"\x01\0\0\0\x08\0\0\0\x07\0\0\x01a\x03\0\0\0\0",
    b"\x01\0\0\0\x08\0\0\0\x07\x07\0\x01a\x03\0\0\0\0",
    b"\x01\0\0\0\x08\0\0\0\x07\xff\0\x01a\x03\0\0\0\0",
    b"\x01\0\0\0\x09\0\0\0\x07\x05\0\0\x01a\x03\0\0\0\0",
    b"\x01\0\0\0\x09\0\0\0\x07\x05\x41\0\x01a\x03\0\0\0\0",
    b"\x01\0\0\0\x06\0\0\0\x07\x05\x01\x03\0\0\0\0",
    b"\x01\0\0\0\x09\0\0\0\x07\x01\0\x02..\x03\0\0\0\0",
    b"\x01\0\0\0\x09\0\0\0\x07\x01\0\x02/a\x03\0\0\0\0",
    b"\x01\0\0\0\x08\0\0\0\x07\x01\0\x01 \x03\0\0\0\0",
    b"\x01\0\0\0\x08\0\0\0\x07\x01\0\x01\xff\x03\0\0\0\0",
    b"\x02\0\0\0\0\x03\0\0\0\0",
    b"\x02\0\0\0\x04\0\0\0\x07\x03\0\0\0\0",
    b"\x02\0\0\0\x05\0\0\0\x07\0\x03\0\0\0\0",
    b"\x02\0\0\0\x05\0\0\0\x07\x07\x03\0\0\0\0",
    b"\x02\0\0\0\x0c\0\0\0\x07\x01\0\0\0\0\0\0\x03\x03\0\0\0\0",
    b"\x02\0\0\0\x0e\0\0\0\x07\x01\0\0\0\0\0\0\0\0\x03\x03\0\0\0\0",
    b"\x02\0\0\0\x06\0\0\0\x07\x02\0\x03\0\0\0\0",
    b"\x02\0\0\0\x06\0\0\0\x07\x03\0\x03\0\0\0\0",
    b"\x11\0\0\0\0\x03\0\0\0\0",
    b"\x11\0\0\0\x04\0\0\0\x07\x03\0\0\0\0",
    b"\x11\0\0\0\x05\0\0\0\x07\x01\x03\0\0\0\0",
    b"\x11\0\0\0\x0c\0\0\0\x07\x01\0\x05a.txt\x03\0\0\0\0",
    b"\x11\0\0\0\x0d\0\0\0\x07\0\x01\0\x05a.txt\x03\0\0\0\0",
    b"\x11\0\0\0\x0d\0\0\0\x07\x03\x01\0\x05a.txt\x03\0\0\0\0",
    b"\x11\0\0\0\x0d\0\0\0\x07\x01\x07\0\x05a.txt\x03\0\0\0\0",
    b"\x11\0\0\0\x0e\0\0\0\x07\x01\x01\x01\0\x05a.txt\x03\0\0\0\0",
    b"\x12\0\0\0\0\x03\0\0\0\0",
    b"\x12\0\0\0\x04\0\0\0\x07\x03\0\0\0\0",
    b"\x12\0\0\0\x05\0\0\0\x07\x01\x03\0\0\0\0",
    b"\x12\0\0\0\x06\0\0\0\x07\x01\x01\x03\0\0\0\0",
    b"\x12\0\0\0\x06\0\0\0\x07\0\x03\x03\0\0\0\0",
    b"\x12\0\0\0\x06\0\0\0\x07\x03\x03\x03\0\0\0\0",
    b"\x12\0\0\0\x0d\0\0\0\x07\x01\0\0\0\0\0\0\0\x03\x03\0\0\0\0",
    b"\x12\0\0\0\x0d\0\0\0\x07\x01\x05a.txt\0\x05\x03\0\0\0\0",
    b"\x03\0\0\0\x01\0\x03\0\0\0\0",
    b"\x03\0\0\0\x04\0\0\0\0\x03\0\0\0\0",
];

#[test]
fn tags_lengths_and_bodies_of_no_frame(rt: HostRuntime) {
    for tag in 0..=255u8 {
        assert!(rt; is_tag_known_or_refused(rt.alloc(), tag), "tag {tag}");
    }
    for tag in &TAGS {
        assert!(rt; are_long_ones_refused(rt.alloc(), *tag), "tag {tag}");
    }
    for body in &BODIES {
        assert!(rt;
            is_refused(rt.alloc(), body, FrameRefusal::BadField(0)),
            "{} bytes",
            body.len()
        );
    }
}
