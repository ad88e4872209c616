//! Tests of `daemon_desk`. What every desk is asked here is one daemon for the lines and the bytes of one file.
ghost use Rattle.std.specs.Prelude.{◌≡◌, IfOk, true};
ghost use Rattle.item_actions.specs.Forms.{is_file_name};

mod folder;
mod memory;

use crate::asked::{Asked, requirements};
use crate::lines::{add_failed, add_outcome};
use daemon_desk::Desk;
use daemon_protocol::Request;
use file_access::DeskFail;
use item_actions::{ItemAction, KeepAlive, Text, is_file_name};
use std::alloc::{AllocError, Global};

// The request of a unit for an action on a.txt, in this mode.
fn request(
    alloc: Global,
    unit: u32,
    action: ItemAction,
    keep: Option<KeepAlive>,
) -> Result<Request, AllocError>
    ensures { IfOk result (λ request. is_file_name request.file ≡ true) }
{
    let file = Text::from_str(alloc, "a.txt")?;
    if !is_file_name(file.bytes()) {
        return Err(AllocError);
    }
    Ok(Request {
        unit,
        action,
        file,
        keep,
    })
}

// Sends a request over the link, and receives its reply.
fn ask<D: Desk>(
    alloc: Global,
    desk: &mut D,
    link: &mut D::Link,
    request: Request,
    line: &mut String,
) -> Result<(), AllocError>
    requires { is_file_name request.file ≡ true }
{
    let sent = desk.send(alloc, link, &request);
    drop(request);
    if let Err(fail) = sent {
        return add_failed("send", fail, line);
    }
    match desk.receive(alloc, link) {
        Ok(reply) => add_outcome(reply.outcome, line),
        Err(fail) => add_failed("receive", fail, line),
    }
}

// Asks for the lines and then for the bytes of a.txt over the link.
fn ask_both<D: Desk>(
    alloc: Global,
    desk: &mut D,
    link: &mut D::Link,
    keep: Option<KeepAlive>,
    line: &mut String,
) -> Result<(), AllocError> {
    let lines = request(alloc, 0, ItemAction::Lines, keep)?;
    ask(alloc, desk, link, lines, line)?;
    let bytes = request(alloc, 1, ItemAction::Bytes, keep)?;
    ask(alloc, desk, link, bytes, line)
}

// Starts a daemon for what is asked.
fn start<D: Desk>(alloc: Global, desk: &mut D, asked: &Asked) -> Result<D::Link, DeskFail> {
    let asked = requirements(alloc, asked)?;
    let started = desk.start(alloc, &asked);
    drop(asked);
    started
}

// Starts a daemon, asks it for the lines and then for the bytes of a.txt, in this mode, and stops it.
fn ask_twice<D: Desk>(
    alloc: Global,
    desk: &mut D,
    asked: &Asked,
    keep: Option<KeepAlive>,
    line: &mut String,
) -> Result<(), AllocError> {
    match start(alloc, desk, asked) {
        Ok(mut link) => {
            let answers = ask_both(alloc, desk, &mut link, keep, line);
            desk.stop(link);
            answers
        }
        Err(fail) => add_failed("start", fail, line),
    }
}
