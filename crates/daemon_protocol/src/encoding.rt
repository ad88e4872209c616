ghost use Rattle.std.specs.Prelude.{◌≡◌, ◌≤◌, ◌++◌, ◌∷◌, [], length, IfOk, OnOk, Some};
ghost use Rattle.daemon_protocol.specs.declared.frames.Frame.TheVariants as frames;
ghost use Rattle.std.specs.Int.{w32, to_be_bytes};
ghost use Rattle.daemon_protocol.specs.Spelling.{mode_bytes, action_bytes, outcome_bytes, body, spelling};
ghost use Rattle.daemon_protocol.specs.Spelling.{IsValid, ActionFits, OutcomeFits, FrameFits};

use crate::frames::{Frame, Reply, Request};
use crate::limits::{
    HEAD_BYTES, MAX_ACTION_BYTES, MAX_OUTCOME_BYTES, MAX_SENT_BODY_BYTES, REPLY_IN_MODE_TAG,
    REPLY_TAG, REQUEST_IN_MODE_TAG, REQUEST_TAG, STOP_TAG,
};
use item_actions::{ItemAction, KeepAlive, MAX_NEEDLE_BYTES, Outcome};
use std::alloc::{AllocError, Global};

/// The bytes of a frame, whose fields then fit them. A request's file has the form of a file's name, and a reply's outcome isn't Skipped.
pub fn encode(alloc: Global, frame: &Frame) -> Result<Vec<u8>, AllocError>
    requires { IsValid frame.now }
    ensures bytes { IfOk result (λ bytes. bytes.items ≡ spelling frame.now) }
    ensures fits { OnOk result (FrameFits frame.now) }
{
    let len = body_len(frame);
    let mut bytes = Vec::with_capacity(alloc, HEAD_BYTES + len)?;
    push_frame(&mut bytes, frame, len)?;
    Ok(bytes)
}

// Puts a frame, whose body has this length, behind the bytes.
fn push_frame(bytes: &mut Vec<u8>, frame: &Frame, len: usize) -> Result<(), AllocError>
    requires valid { IsValid frame.now }
    requires len { len ≡ length (body frame.now) }
    requires few { len ≤ MAX_SENT_BODY_BYTES }
    ensures bytes { OnOk result (bytes.new.items ≡ bytes.old.items ++ spelling frame.now) }
    ensures fits { OnOk result (FrameFits frame.now) }
{
    match frame {
        Frame::Request(request) => push_request(bytes, request, len as u32),
        Frame::Reply(reply) => push_reply(bytes, reply, len as u32),
        Frame::Stop => push_tagged(bytes, STOP_TAG, &(len as u32).to_be_bytes()),
    }
}

// Puts a byte and what follows it behind the bytes.
fn push_tagged(bytes: &mut Vec<u8>, tag: u8, after: &[u8]) -> Result<(), AllocError>
    ensures { OnOk result (bytes.new.items ≡ bytes.old.items ++ tag ∷ after.now) }
{
    bytes.push(tag)?;
    bytes.extend_from_slice(after)
}

// How many bytes a frame's body has.
fn body_len(frame: &Frame) -> usize
    requires { IsValid frame.now }
    ensures len { result ≡ length (body frame.now) }
    ensures few { result ≤ MAX_SENT_BODY_BYTES }
{
    match frame {
        Frame::Request(request) => {
            6 + mode_len(request.keep) + action_len(&request.action) + request.file.bytes().len()
        }
        Frame::Reply(reply) => 4 + mode_len(reply.keep) + outcome_len(reply.outcome),
        Frame::Stop => 0,
    }
}

// How many bytes a mode has.
fn mode_len(keep: Option<KeepAlive>) -> usize
    ensures len { result ≡ length (mode_bytes keep) }
    ensures few { result ≤ 1 }
{
    match keep {
        None => 0,
        Some(_) => 1,
    }
}

// How many bytes an action has.
fn action_len(action: &ItemAction) -> usize
    ensures len { result ≡ length (action_bytes action.now) }
    ensures few { result ≤ MAX_ACTION_BYTES }
{
    match action {
        ItemAction::Count(needle) => 2 + needle.bytes().len(),
        _ => 1,
    }
}

// How many bytes an outcome has. Skipped has none, and is never sent.
fn outcome_len(outcome: Outcome) -> usize
    ensures len { result ≡ length (outcome_bytes outcome) }
    ensures few { result ≤ MAX_OUTCOME_BYTES }
{
    match outcome {
        Outcome::Number(_) => 9,
        Outcome::Digest(_) => MAX_OUTCOME_BYTES,
        Outcome::Skipped => 0,
        _ => 1,
    }
}

// Adds a request's frame, whose body has this length.
fn push_request(bytes: &mut Vec<u8>, request: &Request, len: u32) -> Result<(), AllocError>
    requires valid { IsValid (frames.Request request.now) }
    requires len { len ≡ length (body (frames.Request request.now)) }
    ensures bytes { OnOk result (bytes.new.items ≡ bytes.old.items ++ spelling (frames.Request request.now)) }
    ensures fits { OnOk result (FrameFits (frames.Request request.now)) }
{
    match request.keep {
        Some(mode) => push_start_in_mode(bytes, REQUEST_IN_MODE_TAG, len, request.unit, mode)?,
        None => push_start(bytes, REQUEST_TAG, len, request.unit)?,
    }
    let file = request.file.bytes();
    push_action(bytes, &request.action)?;
    bytes.extend_from_slice(&(file.len() as u16).to_be_bytes())?;
    bytes.extend_from_slice(file)
}

// Adds a reply's frame, whose body has this length.
fn push_reply(bytes: &mut Vec<u8>, reply: &Reply, len: u32) -> Result<(), AllocError>
    requires len { len ≡ length (body (frames.Reply reply.now)) }
    ensures bytes { OnOk result (bytes.new.items ≡ bytes.old.items ++ spelling (frames.Reply reply.now)) }
    ensures fits { OnOk result (FrameFits (frames.Reply reply.now)) }
{
    match reply.keep {
        Some(mode) => push_start_in_mode(bytes, REPLY_IN_MODE_TAG, len, reply.unit, mode)?,
        None => push_start(bytes, REPLY_TAG, len, reply.unit)?,
    }
    push_outcome(bytes, &reply.outcome)
}

// Adds the start of a frame without a mode: its tag, the length of its body, and its unit.
#[inline(always)]
fn push_start(bytes: &mut Vec<u8>, tag: u8, len: u32, unit: u32) -> Result<(), AllocError>
    ensures { OnOk result (bytes.new.items ≡ bytes.old.items ++ tag ∷ (to_be_bytes w32 len ++ to_be_bytes w32 unit)) }
{
    let [a, b, c, d] = len.to_be_bytes();
    let [e, f, g, h] = unit.to_be_bytes();
    bytes.extend_from_slice(&[tag, a, b, c, d, e, f, g, h])
}

// Adds the start of a frame in a mode: its tag, the length of its body, its unit, and its mode, written in one piece. With one way for
// both versions, version 1 would pay for a mode that it doesn't have.
#[inline(always)]
fn push_start_in_mode(
    bytes: &mut Vec<u8>,
    tag: u8,
    len: u32,
    unit: u32,
    mode: KeepAlive,
) -> Result<(), AllocError>
    ensures { OnOk result (bytes.new.items ≡ bytes.old.items ++ tag ∷ (to_be_bytes w32 len ++ (to_be_bytes w32 unit ++ mode_bytes (Some mode)))) }
{
    let [a, b, c, d] = len.to_be_bytes();
    let [e, f, g, h] = unit.to_be_bytes();
    match mode {
        KeepAlive::Session => bytes.extend_from_slice(&[tag, a, b, c, d, e, f, g, h, 1]),
        KeepAlive::Daemon => bytes.extend_from_slice(&[tag, a, b, c, d, e, f, g, h, 2]),
    }
}

// Adds the bytes of an action.
fn push_action(bytes: &mut Vec<u8>, action: &ItemAction) -> Result<(), AllocError>
    ensures bytes { OnOk result (bytes.new.items ≡ bytes.old.items ++ action_bytes action.now) }
    ensures fits { OnOk result (ActionFits action.now) }
{
    match action {
        ItemAction::Lines => push_tagged(bytes, 1, &[]),
        ItemAction::Words => push_tagged(bytes, 2, &[]),
        ItemAction::Bytes => push_tagged(bytes, 3, &[]),
        ItemAction::Longest => push_tagged(bytes, 4, &[]),
        ItemAction::Count(needle) => push_count(bytes, needle.bytes()),
        ItemAction::Sha256 => push_tagged(bytes, 6, &[]),
    }
}

// Adds the bytes of the action Count with this needle.
fn push_count(bytes: &mut Vec<u8>, needle: &[u8]) -> Result<(), AllocError>
    requires { length needle.now ≤ MAX_NEEDLE_BYTES }
    ensures { OnOk result (bytes.new.items ≡ bytes.old.items ++ 5 ∷ length needle.now ∷ needle.now) }
{
    push_tagged(bytes, 5, &[needle.len() as u8])?;
    bytes.extend_from_slice(needle)
}

// Adds the bytes of an outcome.
fn push_outcome(bytes: &mut Vec<u8>, outcome: &Outcome) -> Result<(), AllocError>
    ensures bytes { OnOk result (bytes.new.items ≡ bytes.old.items ++ outcome_bytes outcome.now) }
    ensures fits { OnOk result (OutcomeFits outcome.now) }
{
    match outcome {
        Outcome::Number(number) => push_tagged(bytes, 1, &number.to_be_bytes()),
        Outcome::Digest(digest) => push_tagged(bytes, 2, digest),
        Outcome::NotThere => push_tagged(bytes, 3, &[]),
        Outcome::TooLong => push_tagged(bytes, 4, &[]),
        Outcome::Fault => push_tagged(bytes, 5, &[]),
        Outcome::NoMemory => push_tagged(bytes, 6, &[]),
        Outcome::Skipped => Ok(()),
    }
}
