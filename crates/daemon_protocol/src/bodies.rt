ghost use Rattle.std.specs.Prelude.{◌≡◌, ◌≤◌, ◌+◌, ◌==◌, length, IfOk, IfSome, None, Some, IsSome, if◌then◌else◌};
ghost use Rattle.std.specs.Int.{w32, w64, from_be_bytes};
ghost use Rattle.item_actions.specs.Forms.{is_file_name};
ghost use Rattle.item_actions.specs.declared.outcomes.Outcome.TheVariants.{Number, Digest};
ghost use Rattle.daemon_protocol.specs.Bodies.{frame_of, request_of, request_in_mode_of, request_from, request_with, mode_at, action_at, count_at};
ghost use Rattle.daemon_protocol.specs.Bodies.{reply_of, reply_in_mode_of, reply_from, outcome_of, cause_of, stop_of};

use crate::frames::{Frame, Reply, Request};
use crate::limits::{DIGEST_BYTES, REPLY_IN_MODE_TAG, REPLY_TAG, REQUEST_IN_MODE_TAG, REQUEST_TAG};
use item_actions::{ItemAction, KeepAlive, Needle, Outcome, Text, is_file_name};
use std::alloc::{AllocError, Global};
use std::str;

/// The frame of this tag whose body these bytes are.
pub(crate) fn frame_of(alloc: Global, tag: u8, body: &[u8]) -> Result<Option<Frame>, AllocError>
    ensures { IfOk result (λ f. f ≡ frame_of tag body.now) }
{
    match tag {
        REQUEST_TAG => request_of(alloc, body),
        REPLY_TAG => Ok(reply_of(body)),
        REQUEST_IN_MODE_TAG => request_in_mode_of(alloc, body),
        REPLY_IN_MODE_TAG => Ok(reply_in_mode_of(body)),
        _ => Ok(stop_of(body)),
    }
}

/// The request without a mode whose body these bytes are; None where they are no such body. The error is want of memory alone.
#[inline(always)]
pub fn request_of(alloc: Global, body: &[u8]) -> Result<Option<Frame>, AllocError>
    ensures { IfOk result (λ f. f ≡ request_of body.now) }
{
    if body.len() < 4 {
        return Ok(None);
    }
    request_from(alloc, number_of(&body[..4]), None, &body[4..])
}

/// The request in a mode whose body these bytes are; None where they are no such body. The error is want of memory alone.
#[inline(always)]
pub fn request_in_mode_of(alloc: Global, body: &[u8]) -> Result<Option<Frame>, AllocError>
    ensures { IfOk result (λ f. f ≡ request_in_mode_of body.now) }
{
    if body.len() < 5 {
        return Ok(None);
    }
    let (unit, bytes) = (number_of(&body[..4]), &body[4..]);
    match mode_at(bytes) {
        Some(mode) => request_from(alloc, unit, Some(mode), &bytes[1..]),
        None => Ok(None),
    }
}

// The mode at the start of the bytes, which is one byte.
#[inline(always)]
fn mode_at(bytes: &[u8]) -> Option<KeepAlive>
    ensures mode { result ≡ mode_at bytes.now }
    ensures within { IsSome result → 1 ≤ length bytes.now }
{
    match bytes {
        [1, ..] => Some(KeepAlive::Session),
        [2, ..] => Some(KeepAlive::Daemon),
        _ => None,
    }
}

// The request of a unit in this mode, whose action and file stand in the bytes.
#[inline(always)]
fn request_from(
    alloc: Global,
    unit: u32,
    keep: Option<KeepAlive>,
    bytes: &[u8],
) -> Result<Option<Frame>, AllocError>
    ensures { IfOk result (λ f. f ≡ request_from unit keep bytes.now) }
{
    match action_at(bytes) {
        Some((action, len)) => request_with(alloc, unit, keep, action, &bytes[len..]),
        None => Ok(None),
    }
}

// The request of a unit for an action, whose file's name stands in the bytes behind its length. None where no name does.
#[inline(always)]
fn request_with(
    alloc: Global,
    unit: u32,
    keep: Option<KeepAlive>,
    action: ItemAction,
    bytes: &[u8],
) -> Result<Option<Frame>, AllocError>
    ensures { IfOk result (λ f. f ≡ request_with unit keep action bytes.now) }
{
    if bytes.len() < 2 {
        return Ok(None);
    }
    let name = &bytes[2..];
    if u16::from_be_bytes([bytes[0], bytes[1]]) as usize != name.len() {
        return Ok(None);
    }
    match file_of(alloc, name)? {
        Some(file) => {
            let request = Request {
                unit,
                action,
                file,
                keep,
            };
            Ok(Some(Frame::Request(request)))
        }
        None => Ok(None),
    }
}

// The text of a file's name, where the bytes have the form of one.
fn file_of(alloc: Global, name: &[u8]) -> Result<Option<Text>, AllocError>
    ensures { IfOk result (λ f. f ≡ (if is_file_name name.now then Some name.now else None)) }
{
    if !is_file_name(name) {
        return Ok(None);
    }
    match str::from_utf8(name) {
        Ok(name) => Ok(Some(Text::from_str(alloc, name)?)),
        Err(_) => Ok(None),
    }
}

// The action at the start of the bytes, and how many bytes it takes up.
#[inline(always)]
fn action_at(bytes: &[u8]) -> Option<(ItemAction, usize)>
    ensures action { result ≡ action_at bytes.now }
    ensures within { IfSome result (λ a. a.1 ≤ length bytes.now) }
{
    match bytes {
        [1, ..] => Some((ItemAction::Lines, 1)),
        [2, ..] => Some((ItemAction::Words, 1)),
        [3, ..] => Some((ItemAction::Bytes, 1)),
        [4, ..] => Some((ItemAction::Longest, 1)),
        [5, after @ ..] => count_at(after),
        [6, ..] => Some((ItemAction::Sha256, 1)),
        _ => None,
    }
}

// The action Count at the start of the bytes, and how many bytes it takes up. None where the needle isn't whole or has no
// needle's form.
fn count_at(bytes: &[u8]) -> Option<(ItemAction, usize)>
    ensures action { result ≡ count_at bytes.now }
    ensures within { IfSome result (λ a. a.1 ≤ length bytes.now + 1) }
{
    let [len, after @ ..] = bytes else {
        return None;
    };
    let len = *len as usize;
    if after.len() < len {
        return None;
    }
    match Needle::of(&after[..len]) {
        Some(needle) => Some((ItemAction::Count(needle), len + 2)),
        None => None,
    }
}

/// The reply without a mode whose body these bytes are; None where they are no such body.
#[inline(always)]
pub fn reply_of(body: &[u8]) -> Option<Frame>
    ensures { result ≡ reply_of body.now }
{
    if body.len() < 4 {
        return None;
    }
    reply_from(number_of(&body[..4]), None, &body[4..])
}

/// The reply in a mode whose body these bytes are; None where they are no such body.
#[inline(always)]
pub fn reply_in_mode_of(body: &[u8]) -> Option<Frame>
    ensures { result ≡ reply_in_mode_of body.now }
{
    if body.len() < 5 {
        return None;
    }
    let (unit, bytes) = (number_of(&body[..4]), &body[4..]);
    match mode_at(bytes) {
        Some(mode) => reply_from(unit, Some(mode), &bytes[1..]),
        None => None,
    }
}

// The reply for a unit in this mode, whose outcome stands in the bytes.
#[inline(always)]
fn reply_from(unit: u32, keep: Option<KeepAlive>, bytes: &[u8]) -> Option<Frame>
    ensures { result ≡ reply_from unit keep bytes.now }
{
    match outcome_of(bytes) {
        Some(outcome) => Some(Frame::Reply(Reply {
            unit,
            outcome,
            keep,
        })),
        None => None,
    }
}

// The outcome that the bytes say, if they say one.
fn outcome_of(bytes: &[u8]) -> Option<Outcome>
    ensures { result ≡ outcome_of bytes.now }
{
    match bytes {
        [1, number @ ..] => outcome_of_number(number),
        [2, digest @ ..] => outcome_of_digest(digest),
        [cause] => cause_of(*cause),
        _ => None,
    }
}

// The outcome with a number, which is 8 bytes long.
fn outcome_of_number(bytes: &[u8]) -> Option<Outcome>
    ensures { result ≡ (if length bytes.now == 8 then Some (Number (from_be_bytes w64 bytes.now)) else None) }
{
    if bytes.len() != 8 {
        return None;
    }
    let mut number = [0; 8];
    number.copy_from_slice(bytes);
    Some(Outcome::Number(u64::from_be_bytes(number)))
}

// The outcome with a digest, which is `DIGEST_BYTES` long.
fn outcome_of_digest(bytes: &[u8]) -> Option<Outcome>
    ensures { result ≡ (if length bytes.now == DIGEST_BYTES then Some (Digest bytes.now) else None) }
{
    if bytes.len() != DIGEST_BYTES {
        return None;
    }
    let mut digest = [0; DIGEST_BYTES];
    digest.copy_from_slice(bytes);
    Some(Outcome::Digest(digest))
}

// The outcome without a value that a byte says, if it says one.
fn cause_of(cause: u8) -> Option<Outcome>
    ensures { result ≡ cause_of cause }
{
    match cause {
        3 => Some(Outcome::NotThere),
        4 => Some(Outcome::TooLong),
        5 => Some(Outcome::Fault),
        6 => Some(Outcome::NoMemory),
        _ => None,
    }
}

/// Stop, where these bytes are its body, which is empty; None else.
pub fn stop_of(body: &[u8]) -> Option<Frame>
    ensures { result ≡ stop_of body.now }
{
    if body.is_empty() {
        Some(Frame::Stop)
    } else {
        None
    }
}

/// The number whose four bytes these are.
pub(crate) fn number_of(bytes: &[u8]) -> u32
    requires { length bytes.now ≡ 4 }
    ensures { result ≡ from_be_bytes w32 bytes.now }
{
    u32::from_be_bytes([bytes[0], bytes[1], bytes[2], bytes[3]])
}
