//! A desk in memory.
ghost use Rattle.std.specs.Prelude.{◌≡◌, ◌==◌, ◌↔◌, [], None, Some, IfOk, IfSome, IsTrue, IsSome, OnErr, OnOk, find, option_map, true, false};
ghost use Rattle.std.specs.Result.{IsErrOf};
ghost use Rattle.item_actions.specs.Forms.{is_file_name};
ghost use Rattle.file_access.specs.ReadView.{ReadsFrom};
ghost use Rattle.memory_files.specs.Calls.{no_calls, next_fails};
ghost use Rattle.daemon_desk.specs.LinkView.{new_link};
ghost use Rattle.daemon_desk.specs.Replies.{IsReplyTo};
ghost use Rattle.daemon_desk.specs.Sent.{sent_over};
ghost use Rattle.memory_desk.specs.MemoryDeskView.{IsReceived, called, and_sends, is_fault, known_files, lie_at};

use crate::lies::Lie;
use crate::memory_link::MemoryLink;
use crate::replies::reply_in;
use crate::sent::sent_request;
use crate::serving::served_reply;
use daemon_desk::{Desk, SentRequest};
use daemon_protocol::{Reply, Request};
use daemon_requirements::{Linked, Requirements};
use file_access::{DeskFail, Files, Read};
use item_actions::Text;
use memory_files::{Calls, FileMap};
use std::alloc::{AllocError, Global};
use std::marker::Model;

/// A desk whose files are in memory, and whose daemons serve over memory on the same files.
///
/// Its calls are numbered from 0, all five kinds of them together; it doesn't tell how many of them were reads. A desk with a lie
/// doesn't tell its files.
///
/// A daemon works when its reply is received, by the real `serve`. Of it is said what its reply is, if it gives one, and not that it
/// does: `serve` speaks of any source and sink, so its contract can't say that those in memory never fail.
#[derive(Drop)]
pub struct MemoryDesk {
    files: FileMap,
    lies: Vec<Lie>,
    calls: Calls,
    sends: u64,
    sent: Vec<SentRequest>,
}

impl Model for MemoryDesk {
    ghost use Rattle.memory_desk.specs.MemoryDeskView.{MemoryDeskView};

    ghost Value = { MemoryDeskView };

    ghost view = { λ d. record { files = d.files; lies = d.lies.items; log = d.calls; sends = d.sends; sent = d.sent.items } };
}

impl MemoryDesk {
    /// A desk of these files. The calls of the numbers in `failing` fail, and at the call of a lie's number a daemon's
    /// answer is the lie's bytes.
    pub fn new(alloc: Global, files: FileMap, failing: Vec<u64>, lies: Vec<Lie>) -> MemoryDesk
        ensures { result ≡ record { files = files; lies = lies.items; log = no_calls failing.items; sends = 0; sent = [] } }
    {
        MemoryDesk {
            files,
            lies,
            calls: Calls::new(failing),
            sends: 0,
            sent: Vec::new(alloc),
        }
    }

    /// How many calls failed.
    pub fn count(&self) -> u64
        ensures { result ≡ self.now.log.faults }
    {
        self.calls.faults()
    }

    /// The requests sent, in order.
    pub fn sent(&self) -> &[SentRequest]
        ensures { result.now ≡ self.now.sent }
    {
        self.sent.as_slice()
    }

    // Counts a call, and answers whether it fails by its number.
    fn call_fails(&mut self) -> bool
        ensures fails { result ≡ next_fails self.old.log }
        ensures called { self.new ≡ called result self.old }
    {
        let fails = self.calls.next_fails();
        self.calls.add(fails);
        fails
    }

    // Counts a request that is sent over a link made for these requirements.
    fn add(
        &mut self,
        alloc: Global,
        made_for: &Requirements,
        request: &Request,
    ) -> Result<(), AllocError>
        ensures ok { OnOk result (self.new ≡ and_sends self.old (sent_over made_for.now request.now)) }
        ensures err { OnErr result (self.new ≡ self.old) }
    {
        self.sent.push(sent_request(alloc, made_for, request)?)?;
        self.sends = self.sends.saturating_add(1);
        Ok(())
    }

    // Counts a call, and lets a request wait on a link, unless the call fails.
    fn put(
        &mut self,
        alloc: Global,
        link: &mut MemoryLink,
        request: &Request,
    ) -> Result<(), DeskFail>
        requires { is_file_name request.now.file ≡ true }
        ensures failed { IsErrOf result DeskFail.Failed ↔ IsTrue (next_fails self.old.log) }
        ensures kept { OnErr result (link.new ≡ link.old) }
        ensures not { OnErr result (self.new ≡ called (next_fails self.old.log) self.old) }
        ensures waits { OnOk result (link.new ≡ record link.old { waiting = Some request.now }) }
        ensures after { OnOk result (self.new ≡ and_sends (called false self.old) (sent_over link.old.made_for request.now)) }
    {
        if self.call_fails() {
            return Err(DeskFail::Failed);
        }
        let waiting = request.copy(alloc)?;
        self.add(alloc, link.made_for(), request)?;
        link.wait_for(waiting);
        Ok(())
    }

    // The reply to the request that waits, by the daemon or by the lie at this call. The call isn't counted here.
    fn reply(&mut self, alloc: Global, link: &mut MemoryLink) -> Result<Reply, DeskFail>
        ensures same { self.new ≡ self.old }
        ensures link { link.new ≡ record link.old { waiting = None } }
        ensures fails { IsTrue (next_fails self.old.log) → IsErrOf result DeskFail.Failed }
        ensures exact { IsReceived self.old link.old.waiting result }
        ensures reply { IfOk result (λ reply. IfSome link.old.waiting (λ request. IsReplyTo (known_files self.old) request reply)) }
    {
        let Some(request) = link.take_waiting() else {
            return Err(DeskFail::Failed);
        };
        if self.calls.next_fails() {
            return Err(DeskFail::Failed);
        }
        match self.lie() {
            Some(answer) => reply_in(alloc, request.unit, request.keep, answer),
            None => served_reply(alloc, request, &mut self.files),
        }
    }

    // The lie at this call, if one is told.
    fn lie(&self) -> Option<&[u8]>
        ensures lie { option_map (λ bytes. bytes.now) result ≡ lie_at self.now.log.made self.now.lies }
        ensures told { IsSome result → known_files self.now ≡ None }
    {
        match lie_of(&self.lies, self.calls.made()) {
            Some(lie) => Some(lie.bytes.as_slice()),
            None => None,
        }
    }
}

// The lie of the call of this number, if there is one.
fn lie_of(lies: &[Lie], number: u64) -> Option<&Lie>
    ensures { option_map (λ lie. lie.now) result ≡ find (λ lie. lie.call == number) lies.now }
{
    lies.iter().find(|lie| lie.call == number)
}

// Whether the call that gave this answer failed.
fn is_fault<T>(answer: &Result<T, DeskFail>) -> bool
    ensures { result ≡ is_fault answer.now }
{
    matches!(answer, Err(DeskFail::Failed))
}

impl Files for MemoryDesk {
    ghost use Rattle.std.specs.Prelude.{◌≡◌, None};
    ghost use Rattle.memory_files.specs.Calls.{next_fails};
    ghost use Rattle.memory_desk.specs.MemoryDeskView.{called, known_files};

    ghost files = { known_files };

    ghost faults = { λ d. d.log.faults };

    ghost reads = { λ _. None };

    ghost keeps = { λ old new. new ≡ called (next_fails old.log) old };

    fn read(&mut self, alloc: Global, name: &Text, limit: u64) -> Result<Read, DeskFail>
        ensures failed { IsErrOf result DeskFail.Failed ↔ IsTrue (next_fails self.old.log) }
        ensures after { self.new ≡ called (next_fails self.old.log) self.old }
        ensures known { ReadsFrom (Some self.old.files) name.now limit result }
    {
        if self.call_fails() {
            return Err(DeskFail::Failed);
        }
        Ok(self.files.reading(alloc, name, limit)?)
    }
}

impl Desk for MemoryDesk {
    ghost use Rattle.std.specs.Prelude.{Some, refl};
    ghost use Rattle.std.proofs.Common.{rules};

    type Link = MemoryLink;

    ghost sends = { λ d. d.sends };

    ghost sent = { λ d. Some d.sent };

    ghost waiting = { λ link. link.waiting };

    ghost broken = { λ link. link.broken };

    fn start(&mut self, alloc: Global, asked: &Requirements) -> Result<MemoryLink, DeskFail>
        ensures failed { IsErrOf result DeskFail.Failed ↔ IsTrue (next_fails self.old.log) }
        ensures link { IfOk result (λ link. link ≡ new_link asked.now) }
        ensures after { self.new ≡ called (next_fails self.old.log) self.old }
    {
        if self.call_fails() {
            return Err(DeskFail::Failed);
        }
        Ok(MemoryLink::new(asked.copy(alloc)?))
    }

    fn send(
        &mut self,
        alloc: Global,
        link: &mut MemoryLink,
        request: &Request,
    ) -> Result<(), DeskFail>
        requires { is_file_name request.now.file ≡ true }
        ensures failed { IsErrOf result DeskFail.Failed ↔ IsTrue (next_fails self.old.log) }
        ensures broken { OnErr result (link.new ≡ record link.old { broken = true }) }
        ensures not { OnErr result (self.new ≡ called (next_fails self.old.log) self.old) }
        ensures waits { OnOk result (link.new ≡ record link.old { waiting = Some request.now }) }
        ensures after { OnOk result (self.new ≡ and_sends (called false self.old) (sent_over link.old.made_for request.now)) }
    {
        let sent = self.put(alloc, link, request);
        if sent.is_err() {
            link.break_off();
        }
        sent
    }

    fn receive(&mut self, alloc: Global, link: &mut MemoryLink) -> Result<Reply, DeskFail>
        ensures failed { IsTrue (next_fails self.old.log) → IsErrOf result DeskFail.Failed }
        ensures exact { IsReceived self.old link.old.waiting result }
        ensures reply { IfOk result (λ reply. IfSome link.old.waiting (λ request. IsReplyTo (known_files self.old) request reply)) }
        ensures link { OnOk result (link.new ≡ record link.old { waiting = None }) }
        ensures broken { OnErr result (link.new ≡ record link.old { waiting = None; broken = true }) }
        ensures after { self.new ≡ called (is_fault result) self.old }
    {
        let reply = self.reply(alloc, link);
        if reply.is_err() {
            link.break_off();
        }
        self.calls.add(is_fault(&reply));
        reply
    }

    fn tell_to_stop(&mut self, _link: &mut MemoryLink)
        ensures desk { self.new ≡ self.old }
        ensures link { _link.new ≡ _link.old }
    {}

    fn stop(&mut self, link: MemoryLink)
        ensures { self.new ≡ called false self.old }
    {
        link.end();
        self.calls.add(false);
    }

    ghost settled_links = { λ _. refl };

    ghost reads_send_nothing = { Prim.search rules };
}
