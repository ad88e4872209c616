//! Links to child processes.
ghost use Rattle.std.specs.Prelude.{◌≡◌, None, Some, IfOk, IfSome, OnOk, OnErr, true};
ghost use Rattle.item_actions.specs.Forms.{is_file_name};
ghost use Rattle.daemon_desk.specs.LinkView.{new_link};
ghost use Rattle.daemon_desk.specs.Replies.{IsReplyTo};

use crate::commands::command_of;
use crate::pipe_link::PipeLink;
use daemon_protocol::{Reply, Request};
use daemon_requirements::{Linked, Requirements};
use file_access::{DeskFail, StdSink, StdSource};
use std::alloc::Global;
use std::marker::Model;
use std::process::{Child, ChildStdin, ChildStdout, Command, Processes, SystemProcess};

/// The link over the pipes of a child.
type ChildLink = PipeLink<StdSink<ChildStdin>, StdSource<ChildStdout>>;

/// A link to a child process. It can't be dropped, since a drop wouldn't wait for the child: it has to be stopped.
pub struct FolderLink {
    link: ChildLink,
    child: Child<SystemProcess>,
}

impl Model for FolderLink {
    ghost use Rattle.daemon_desk.specs.LinkView.{LinkView};

    ghost Value = { LinkView };

    ghost view = { λ l. l.link.link };
}

impl FolderLink {
    /// Starts a child with these requirements, where `own` is the program that `self` means. Nothing is counted here.
    pub(crate) fn start<R: Processes<Started = SystemProcess>>(
        rt: &R,
        alloc: Global,
        own: &str,
        asked: &Requirements,
    ) -> Result<FolderLink, DeskFail>
        ensures { IfOk result (λ link. link ≡ new_link asked.now) }
    {
        let made_for = asked.copy(alloc)?;
        let child = spawn(rt, alloc, own, asked)?;
        FolderLink::to(alloc, made_for, child)
    }

    // A link to a child that was started with these requirements. A child without pipes is waited for.
    fn to(
        alloc: Global,
        made_for: Requirements,
        mut child: Child<SystemProcess>,
    ) -> Result<FolderLink, DeskFail>
        ensures { IfOk result (λ link. link ≡ new_link made_for) }
    {
        match (child.stdin.take(), child.stdout.take()) {
            (Some(input), Some(output)) => Ok(FolderLink {
                link: PipeLink::over(alloc, made_for, StdSink::new(input), StdSource::new(output)),
                child,
            }),
            _ => {
                let _ = child.wait();
                Err(DeskFail::Failed)
            }
        }
    }

    /// Writes a request to the child, and is broken where that fails. Nothing is counted here.
    pub(crate) fn send(&mut self, alloc: Global, request: &Request) -> Result<(), DeskFail>
        requires { is_file_name request.now.file ≡ true }
        ensures ok { OnOk result (self.new ≡ record self.old { waiting = Some request.now }) }
        ensures err { OnErr result (self.new ≡ record self.old { broken = true }) }
    {
        self.link.send(alloc, request)
    }

    /// Reads the reply to the request that waits, and is broken where that fails. Nothing is counted here.
    pub(crate) fn receive(&mut self, alloc: Global) -> Result<Reply, DeskFail>
        ensures reply { IfOk result (λ reply. IfSome self.old.waiting (λ request. IsReplyTo None request reply)) }
        ensures ok { OnOk result (self.new ≡ record self.old { waiting = None }) }
        ensures err { OnErr result (self.new ≡ record self.old { waiting = None; broken = true }) }
    {
        self.link.receive(alloc)
    }

    /// Lets a child that has nothing to answer come to its end: it is told to stop, and its pipes are closed, which ends one that
    /// doesn't listen. A child that failed, or that still has to answer, is killed: it may be busy for long, and nobody wants what
    /// it would say.
    pub(crate) fn tell_to_stop(&mut self)
        ensures { self.new ≡ self.old }
    {
        if !self.link.tell_to_stop() {
            let _ = self.child.kill();
        }
    }

    /// Tells the child to stop, unless it was told, and waits for its end.
    pub(crate) fn stop(mut self) {
        self.tell_to_stop();
        let FolderLink { link: _, mut child } = self;
        let _ = child.wait();
    }
}

// Starts a child with these requirements.
fn spawn<R: Processes<Started = SystemProcess>>(
    rt: &R,
    alloc: Global,
    own: &str,
    asked: &Requirements,
) -> Result<Child<SystemProcess>, DeskFail> {
    let mut command = command_of(alloc, own, asked)?;
    run(rt, &mut command)
}

// Starts the child of a command.
fn run<R: Processes<Started = SystemProcess>>(
    rt: &R,
    command: &mut Command,
) -> Result<Child<SystemProcess>, DeskFail> {
    Ok(command.spawn(rt)?)
}

impl Linked for FolderLink {
    ghost use Rattle.daemon_desk.specs.LinkView.{is_settled};

    ghost requirements = { λ link. link.made_for };

    ghost settled = { λ link. is_settled link.broken link.waiting };

    fn made_for(&self) -> &Requirements {
        self.link.made_for()
    }
}
