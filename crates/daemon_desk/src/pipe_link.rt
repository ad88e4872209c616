//! Links over any sink and source.
ghost use Rattle.std.specs.Prelude.{◌≡◌, ◌≢◌, None, Some, IfOk, IfSome, OnOk, OnErr, true, if◌then◌else◌};
ghost use Rattle.item_actions.specs.Forms.{is_file_name};
ghost use Rattle.item_actions.specs.declared.outcomes.Outcome.TheVariants as outcomes;
ghost use Rattle.daemon_protocol.specs.Spelling.{spelling, IsValid};
ghost use Rattle.daemon_protocol.specs.declared.frames.Frame.TheVariants.{Stop};
ghost use Rattle.daemon_desk.specs.LinkView.{is_settled, new_link};
ghost use Rattle.daemon_desk.specs.PipeLinkView.{Asks, Hears, IsHeard, Puts, answer_in};
ghost use Rattle.daemon_desk.specs.Replies.{IsReplyTo};
ghost use Rattle.daemon_desk.specs.Requests.{request_in};

use crate::replies::reply_to;
use crate::take_frame;
use daemon_protocol::{Frame, HEAD_BYTES, MAX_FRAME_BYTES, Reply, Request, StreamStart, encode};
use daemon_requirements::{Linked, Requirements};
use file_access::{DeskFail, Sink, Source, put_all};
use std::alloc::Global;
use std::marker::Model;

/// A link whose requests are written to a sink, and whose replies are read from a source, as the pipes of a child.
#[derive(Drop)]
pub struct PipeLink<K: Sink + Drop, S: Source + Drop> {
    made_for: Requirements,
    // A copy, in place of a ghost value: the contract of `receive` names that request.
    waiting: Option<Request>,
    // Whether a call failed.
    broken: bool,
    // The bytes of the reply at hand, kept for their memory.
    held: Vec<u8>,
    // They are closed once the daemon was told to stop.
    pipes: Option<Pipes<K, S>>,
}

// What a daemon is written to, and read from.
#[derive(Drop)]
struct Pipes<K: Sink + Drop, S: Source + Drop> {
    input: K,
    output: S,
}

impl<K: Sink + Drop, S: Source + Drop> Model for Pipes<K, S> {
    ghost use Rattle.daemon_desk.specs.PipeLinkView.{PipesView};

    ghost Value = { PipesView };

    ghost view = { λ p. record { input = K.seen p.input; output = S.seen p.output } };
}

impl<K: Sink + Drop, S: Source + Drop> Model for PipeLink<K, S> {
    ghost use Rattle.daemon_desk.specs.PipeLinkView.{PipeLinkView};

    ghost Value = { PipeLinkView };

    ghost view = { λ l. record { link = record { made_for = l.made_for; waiting = l.waiting; broken = l.broken }; pipes = l.pipes } };
}

impl<K: Sink + Drop, S: Source + Drop> PipeLink<K, S> {
    /// A link to a daemon with these requirements, which is written to and read from by these.
    pub fn over(alloc: Global, made_for: Requirements, input: K, output: S) -> PipeLink<K, S>
        ensures link { result.link ≡ new_link made_for }
        ensures pipes { result.pipes ≡ Some (record { input = K.seen input; output = S.seen output }) }
    {
        PipeLink {
            made_for,
            waiting: None,
            broken: false,
            held: Vec::new(alloc),
            pipes: Some(Pipes { input, output }),
        }
    }

    /// Writes a request, and is broken where that fails. Nothing is counted here.
    pub fn send(&mut self, alloc: Global, request: &Request) -> Result<(), DeskFail>
        requires { is_file_name request.now.file ≡ true }
        ensures ok { OnOk result (self.new.link ≡ record self.old.link { waiting = Some request.now }) }
        ensures err { OnErr result (self.new.link ≡ record self.old.link { broken = true }) }
        ensures asked { Asks self.old.pipes self.new.pipes request.now result }
    {
        let sent = self.put(alloc, request);
        if sent.is_err() {
            self.broken = true;
        }
        sent
    }

    // Writes a request, which then waits for its reply.
    fn put(&mut self, alloc: Global, request: &Request) -> Result<(), DeskFail>
        requires { is_file_name request.now.file ≡ true }
        ensures ok { OnOk result (self.new.link ≡ record self.old.link { waiting = Some request.now }) }
        ensures err { OnErr result (self.new.link ≡ self.old.link) }
        ensures asked { Asks self.old.pipes self.new.pipes request.now result }
    {
        let Some(pipes) = &mut self.pipes else {
            return Err(DeskFail::Failed);
        };
        let frame = Frame::Request(request.copy(alloc)?);
        pipes.put(alloc, &frame)?;
        self.waiting = request_in(frame);
        Ok(())
    }

    /// Reads the reply to the request that waits, and is broken where that fails. Nothing is counted here.
    // An answer is read to the end of its first frame. Bytes behind a whole reply stay in the pipe, and are the next answer's.
    pub fn receive(&mut self, alloc: Global) -> Result<Reply, DeskFail>
        ensures reply { IfOk result (λ reply. IfSome self.old.link.waiting (λ request. IsReplyTo None request reply)) }
        ensures ok { OnOk result (self.new.link ≡ record self.old.link { waiting = None }) }
        ensures err { OnErr result (self.new.link ≡ record self.old.link { waiting = None; broken = true }) }
        ensures heard { IsHeard self.old.pipes self.new.pipes self.old.link.waiting result }
    {
        let reply = self.take_reply(alloc);
        if reply.is_err() {
            self.broken = true;
        }
        reply
    }

    // Reads the reply to the request that waits, which then waits no more.
    fn take_reply(&mut self, alloc: Global) -> Result<Reply, DeskFail>
        ensures reply { IfOk result (λ reply. IfSome self.old.link.waiting (λ request. IsReplyTo None request reply)) }
        ensures left { self.new.link ≡ record self.old.link { waiting = None } }
        ensures heard { IsHeard self.old.pipes self.new.pipes self.old.link.waiting result }
    {
        match (self.waiting.take(), &mut self.pipes) {
            (Some(request), Some(pipes)) => pipes.reply(alloc, &request, &mut self.held),
            _ => Err(DeskFail::Failed),
        }
    }

    /// Tells a daemon that has nothing to answer to stop, and closes both pipes. Whether it had nothing to answer, and no call failed.
    // The idle daemons of a run are all told before the first is waited for: eight that take half a second each then take half a second
    // together.
    pub fn tell_to_stop(&mut self) -> bool
        ensures link { self.new.link ≡ self.old.link }
        ensures settled { result ≡ is_settled self.old.link.broken self.old.link.waiting }
        ensures pipes { self.new.pipes ≡ (if result then None else self.old.pipes) }
    {
        if self.broken || self.waiting.is_some() {
            return false;
        }
        if let Some(pipes) = self.pipes.take() {
            pipes.close();
        }
        true
    }
}

impl<K: Sink + Drop, S: Source + Drop> Pipes<K, S> {
    // Writes a frame.
    fn put(&mut self, alloc: Global, frame: &Frame) -> Result<(), DeskFail>
        requires { IsValid frame.now }
        ensures { Puts self.old self.new frame.now result }
    {
        let bytes = encode(alloc, frame)?;
        match put_all(&mut self.input, &bytes) {
            Ok(()) => Ok(()),
            Err(_) => Err(DeskFail::Failed),
        }
    }

    // Reads the reply to a request.
    fn reply(
        &mut self,
        alloc: Global,
        request: &Request,
        held: &mut Vec<u8>,
    ) -> Result<Reply, DeskFail>
        ensures heard { Hears self.old self.new request.now result }
        ensures reply { IfOk result (IsReplyTo None request.now) }
    {
        let room = MAX_FRAME_BYTES as u64;
        let start = take_frame(alloc, &mut self.output, held, room);
        reply_in_frame(request, start)
    }

    // Tells the daemon to stop, and closes both pipes.
    fn close(mut self) {
        let _ = put_all(&mut self.input, &stop_bytes());
    }
}

// The reply to a request, by what was taken for it.
fn reply_in_frame(
    request: &Request,
    start: Result<StreamStart, DeskFail>,
) -> Result<Reply, DeskFail>
    ensures answer { result ≡ answer_in request.now start }
    ensures reply { IfOk result (IsReplyTo None request.now) }
{
    match start {
        Ok(start) => reply_to(request.unit, request.keep, &start),
        Err(fail) => Err(fail),
    }
}

impl<K: Sink + Drop, S: Source + Drop> Linked for PipeLink<K, S> {
    ghost use Rattle.daemon_desk.specs.LinkView.{is_settled};

    ghost requirements = { λ l. l.link.made_for };

    ghost settled = { λ l. is_settled l.link.broken l.link.waiting };

    fn made_for(&self) -> &Requirements {
        &self.made_for
    }
}

// The request in a frame, if it is one.
fn request_in(frame: Frame) -> Option<Request>
    ensures { result ≡ request_in frame }
{
    match frame {
        Frame::Request(request) => Some(request),
        _ => None,
    }
}

// The bytes of a Stop frame, which take no memory.
fn stop_bytes() -> [u8; HEAD_BYTES]
    ensures { result ≡ spelling Stop }
{
    [3, 0, 0, 0, 0]
}
