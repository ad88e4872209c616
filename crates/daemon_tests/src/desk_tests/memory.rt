//! A desk in memory, of whose calls one fails, or whose daemon's first reply is a lie.
use super::ask_twice;
use crate::asked::{Asked, PLAIN};
use crate::lines::check;
use crate::memory_desks::desk;
use item_actions::KeepAlive;
use memory_desk::MemoryDesk;
use std::alloc::{AllocError, Global};

const SESSION: Option<KeepAlive> = Some(KeepAlive::Session);

static ASKED: Asked = Asked {
    args: &["quiet"],
    variables: &[("TOOLS", "here")],
    ..PLAIN
};

/// Calls that fail, a lie in place of the first reply, and what comes of two requests.
type Row = (&'static [u64], Option<&'static [u8]>, &'static str);

// What two requests in this mode come to, how many calls failed, and how many requests were sent.
fn ask_and_count(
    alloc: Global,
    desk: &mut MemoryDesk,
    keep: Option<KeepAlive>,
    line: &mut String,
) -> Result<(), AllocError> {
    ask_twice(alloc, desk, &ASKED, keep, line)?;
    write!(line, "{} failed, {} sent", desk.count(), desk.sent().len())
}

// What they come to on a desk of whose calls these fail, with this lie in place of the first reply.
fn seen(
    alloc: Global,
    keep: Option<KeepAlive>,
    failing: &[u64],
    lie: Option<&[u8]>,
) -> Result<String, AllocError> {
    let mut desk = desk(alloc, failing, lie)?;
    let mut line = String::new(alloc);
    let asked = ask_and_count(alloc, &mut desk, keep, &mut line);
    drop(desk);
    asked?;
    Ok(line)
}

// The calls are start, send, receive, send, receive and stop. A stop that fails isn't counted.
const FAILING: &[Row] = &[
    (&[0], None, "start failed. 1 failed, 0 sent"),
    (&[1], None, "send failed. 14. 1 failed, 1 sent"),
    (&[2], None, "receive failed. 14. 1 failed, 2 sent"),
    (&[3], None, "3. send failed. 1 failed, 1 sent"),
    (&[4], None, "3. receive failed. 1 failed, 2 sent"),
    (&[5], None, "3. 14. 0 failed, 2 sent"),
    (&[6], None, "3. 14. 0 failed, 2 sent"),
];

// The reply for unit 0 with the number 3, of version 1, and of version 2 in both modes.
const FIRST: &[u8] = b"\x02\0\0\0\x0d\0\0\0\0\x01\0\0\0\0\0\0\0\x03";

const RIGHT: &[u8] = b"\x12\0\0\0\x0e\0\0\0\0\x01\x01\0\0\0\0\0\0\0\x03";

const LASTING: &[u8] = b"\x12\0\0\0\x0e\0\0\0\0\x02\x01\0\0\0\0\0\0\0\x03";

// The second request is answered all the same.
const REFUSED: &str = "receive failed. 14. 1 failed, 2 sent";

// The right reply; another number, and a byte behind it; want of memory. Then a reply of a shorter body; a request; a
// Stop; a reply for unit 1; a fault; a reply of version 1; one in the other mode.
const LIES: &[Row] = &[
    (&[], Some(RIGHT), "3. 14. 0 failed, 2 sent"),
    (
        &[],
        Some(b"\x12\0\0\0\x0e\0\0\0\0\x01\x01\0\0\0\0\0\0\0\x04\x09"),
        "4. 14. 0 failed, 2 sent",
    ),
    (
        &[],
        Some(b"\x12\0\0\0\x06\0\0\0\0\x01\x06"),
        "no memory. 14. 0 failed, 2 sent",
    ),
    (
        &[],
        Some(b"\x12\0\0\0\x0d\0\0\0\0\x01\x01\0\0\0\0\0\0\0"),
        REFUSED,
    ),
    (
        &[],
        Some(b"\x11\0\0\0\x0d\0\0\0\0\x01\x01\0\x05a.txt"),
        REFUSED,
    ),
    (&[], Some(b"\x03\0\0\0\0"), REFUSED),
    (
        &[],
        Some(b"\x12\0\0\0\x0e\0\0\0\x01\x01\x01\0\0\0\0\0\0\0\x03"),
        REFUSED,
    ),
    (&[], Some(b"\x12\0\0\0\x06\0\0\0\0\x01\x05"), REFUSED),
    (&[], Some(FIRST), REFUSED),
    (&[], Some(LASTING), REFUSED),
];

// To a request of version 1, and then to one in the mode that lasts: each of the three replies.
const IN_VERSION_1: &[Row] = &[
    (&[], Some(FIRST), "3. 14. 0 failed, 2 sent"),
    (&[], Some(RIGHT), REFUSED),
    (&[], Some(LASTING), REFUSED),
];

const IN_THE_OTHER_MODE: &[Row] = &[
    (&[], Some(FIRST), REFUSED),
    (&[], Some(RIGHT), REFUSED),
    (&[], Some(LASTING), "3. 14. 0 failed, 2 sent"),
];

/// The mode of both requests, and the rows that are tried in it.
static MODES: [(Option<KeepAlive>, &[Row]); 5] = [
    (None, FAILING),
    (SESSION, FAILING),
    (SESSION, LIES),
    (None, IN_VERSION_1),
    (Some(KeepAlive::Daemon), IN_THE_OTHER_MODE),
];

#[test]
fn each_call_fails_in_turn_and_right_replies_are_believed(
    rt: HostRuntime,
) -> Result<(), AllocError> {
    for (keep, rows) in &MODES {
        for (failing, lie, expected) in *rows {
            check(&rt, &seen(rt.alloc(), *keep, failing, *lie)?, expected);
        }
    }
    Ok(())
}

#[test]
fn a_beginning_of_a_reply_is_none(rt: HostRuntime) -> Result<(), AllocError> {
    for len in 0..RIGHT.len() {
        let seen = seen(rt.alloc(), SESSION, &[], Some(&RIGHT[..len]))?;
        check(&rt, &seen, REFUSED);
    }
    Ok(())
}
