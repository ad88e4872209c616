//! The desk of a real folder, with child processes.
ghost use Rattle.std.specs.Prelude.{◌≡◌, IfOk, IfSome};
ghost use Rattle.item_actions.specs.Value.{value_on};
ghost use Rattle.file_access.specs.ReadView.{IsAnswer, IsWithin, ReadsFrom, read_view};
ghost use Rattle.daemon_desk.specs.FolderDeskView.{after_answer, after_read};

use crate::desks::Desk;
use crate::folder_link::FolderLink;
use daemon_protocol::{Reply, Request};
use daemon_requirements::Requirements;
use file_access::{DeskFail, FileBytes, FileOpener, Files, Read, act_on_file, read_file};
use item_actions::{ItemAction, Outcome, Text};
use std::alloc::Global;
use std::marker::Model;
use std::process::{Processes, SystemProcess};

/// A desk that reads the files of the current folder, and whose daemons are child processes in it. It tells neither the
/// files nor which requests it sent.
#[derive(Drop)]
pub struct FolderDesk<R: Drop> {
    rt: R,
    program: Text,
    // What the next file is read into. It holds the last one's memory, where that was given back.
    spare: FileBytes,
    faults: u64,
    reads: u64,
    sends: u64,
}

impl<R: Drop> Model for FolderDesk<R> {
    ghost use Rattle.daemon_desk.specs.FolderDeskView.{FolderDeskView};

    ghost Value = { FolderDeskView R };

    ghost view = { λ d. record { opener = d.rt; program = d.program; faults = d.faults; reads = d.reads; sends = d.sends } };
}

impl<R: Drop> FolderDesk<R> {
    /// A desk by this runtime. The executable `self` of requirements means `program`.
    pub fn new(rt: R, alloc: Global, program: Text) -> FolderDesk<R>
        ensures { result ≡ record { opener = rt; program = program; faults = 0; reads = 0; sends = 0 } }
    {
        FolderDesk {
            rt,
            program,
            spare: FileBytes::new(alloc),
            faults: 0,
            reads: 0,
            sends: 0,
        }
    }

    /// How many calls failed.
    pub fn count(&self) -> u64
        ensures { result ≡ self.now.faults }
    {
        self.faults
    }

    // Counts the fault of an answer, and hands the answer on.
    fn counted<T>(&mut self, answer: Result<T, DeskFail>) -> Result<T, DeskFail>
        ensures same { result ≡ answer }
        ensures counted { self.new ≡ after_answer answer self.old }
    {
        if matches!(answer, Err(DeskFail::Failed)) {
            self.faults = self.faults.saturating_add(1);
        }
        answer
    }
}

impl<R: FileOpener + Drop> Files for FolderDesk<R> {
    ghost use Rattle.std.specs.Prelude.{◌≡◌, None, Some};

    ghost files = { λ _. None };

    ghost faults = { λ d. d.faults };

    ghost reads = { λ d. Some d.reads };

    ghost keeps = { λ old new. new.sends ≡ old.sends };

    fn read(&mut self, alloc: Global, name: &Text, limit: u64) -> Result<Read, DeskFail>
        ensures after { self.new ≡ after_read result self.old }
        ensures within { IfOk result (λ read. IsWithin limit (read_view read)) }
        ensures opened { ReadsFrom (R.known self.old.opener) name.now limit result }
    {
        let read = read_file(&self.rt, alloc, name, limit, &mut self.spare);
        self.reads = self.reads.saturating_add(1);
        self.counted(read)
    }

    fn act_on(
        &mut self,
        _alloc: Global,
        action: &ItemAction,
        name: &Text,
    ) -> Result<Outcome, DeskFail>
        ensures after { self.new ≡ after_read result self.old }
        ensures answer { IfOk result IsAnswer }
        ensures opened { IfSome (R.known self.old.opener) (λ files. IfOk result (λ outcome. outcome ≡ value_on files action.now name.now)) }
    {
        let outcome = act_on_file(&self.rt, action, name, &mut self.spare);
        self.reads = self.reads.saturating_add(1);
        self.counted(outcome)
    }

    fn give_back(&mut self, bytes: FileBytes) {
        self.spare = bytes;
    }
}

impl<R: FileOpener + Processes<Started = SystemProcess> + Drop> Desk for FolderDesk<R> {
    ghost use Rattle.std.specs.Prelude.{None, refl};
    ghost use Rattle.std.proofs.Common.{rules};

    type Link = FolderLink;

    ghost sends = { λ d. d.sends };

    ghost sent = { λ _. None };

    ghost waiting = { λ link. link.waiting };

    ghost broken = { λ link. link.broken };

    fn start(&mut self, alloc: Global, asked: &Requirements) -> Result<FolderLink, DeskFail> {
        let link = FolderLink::start(&self.rt, alloc, self.program.as_str(), asked);
        self.counted(link)
    }

    fn send(
        &mut self,
        alloc: Global,
        link: &mut FolderLink,
        request: &Request,
    ) -> Result<(), DeskFail> {
        let sent = link.send(alloc, request);
        if sent.is_ok() {
            self.sends = self.sends.saturating_add(1);
        }
        self.counted(sent)
    }

    fn receive(&mut self, alloc: Global, link: &mut FolderLink) -> Result<Reply, DeskFail> {
        let reply = link.receive(alloc);
        self.counted(reply)
    }

    fn tell_to_stop(&mut self, link: &mut FolderLink) {
        link.tell_to_stop();
    }

    fn stop(&mut self, link: FolderLink) {
        link.stop();
    }

    ghost settled_links = { λ _. refl };

    ghost reads_send_nothing = { Prim.search rules };
}
