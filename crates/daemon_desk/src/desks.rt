//! What a desk is.
ghost use Rattle.std.specs.Prelude.{◌≡◌, ◌≤◌, ℕ, Bool, List, Option, None, Some, IfOk, IfSome, IsSome, OnOk, OnErr, false, true};
ghost use Rattle.std.specs.Result.{IsErrOf};
ghost use Rattle.item_actions.specs.Forms.{is_file_name};
ghost use Rattle.file_access.specs.Calls.{next};
ghost use Rattle.file_access.specs.ReadView.{IsFaultCounted};
ghost use Rattle.file_access.specs.SinkView.{Rises};
ghost use Rattle.daemon_protocol.specs.declared.frames.Request.{Request as Asked};
ghost use Rattle.daemon_desk.specs.declared.sent.SentRequest.{SentRequest as Sent};
ghost use Rattle.daemon_desk.specs.LinkView.{is_settled};
ghost use Rattle.daemon_desk.specs.Replies.{IsReplyTo};
ghost use Rattle.daemon_desk.specs.Sent.{and_sent, sent_over};

use daemon_protocol::{Reply, Request};
use daemon_requirements::{Linked, Requirements};
use file_access::{DeskFail, Files};
use std::alloc::Global;

/// The files of a build and its daemons, which are started, asked and stopped.
///
/// The count of faults rises by one in a call that answers Failed, and in no other. None of the calls here is a read of a file: what
/// a daemon reads, it reads by itself. A fault of a link is counted by the desk that used the link, so a link may be used through any
/// desk of its type. A link on which a call failed is broken for good, since half a request or half a reply may be left in it.
pub trait Desk: Files {
    /// The way to a daemon that was started. It can't be dropped: `stop` alone ends it, also one that is broken.
    type Link: Linked + Send;

    /// How many requests were sent; it stands still at 2^64 - 1.
    ghost sends: { Self → ℕ };

    /// The requests sent, in order, where they are known.
    ghost sent: { Self → Option (List Sent) };

    /// The request that waits on a link for its reply, or none.
    ghost waiting: { Self.Link → Option Asked };

    /// Whether a call on a link failed.
    ghost broken: { Self.Link → Bool };

    /// Starts a daemon with these requirements. NoMemory comes before it is started.
    fn start(&mut self, alloc: Global, asked: &Requirements) -> Result<Self::Link, DeskFail>
        ensures files { Self.files self.new ≡ Self.files self.old }
        ensures reads { Self.reads self.new ≡ Self.reads self.old }
        ensures counted { IsFaultCounted (Self.faults self.old) (Self.faults self.new) result }
        ensures kept { Self.faults self.old ≤ Self.faults self.new }
        ensures failed { IsErrOf result DeskFail.Failed → Rises (Self.faults self.old) (Self.faults self.new) }
        ensures made { IfOk result (λ link. Self.Link.requirements link ≡ asked.now) }
        ensures idle { IfOk result (λ link. waiting link ≡ None) }
        ensures whole { IfOk result (λ link. broken link ≡ false) }
        ensures sends { sends self.new ≡ sends self.old }
        ensures sent { sent self.new ≡ sent self.old };

    /// Sends a request over a link, which then waits for its reply. The request's file has the form of a file's name. After
    /// an error the request isn't among those sent, what waits on the link is what waited before, and the link is broken.
    fn send(
        &mut self,
        alloc: Global,
        link: &mut Self::Link,
        request: &Request,
    ) -> Result<(), DeskFail>
        requires { is_file_name request.now.file ≡ true }
        ensures files { Self.files self.new ≡ Self.files self.old }
        ensures reads { Self.reads self.new ≡ Self.reads self.old }
        ensures counted { IsFaultCounted (Self.faults self.old) (Self.faults self.new) result }
        ensures kept { Self.faults self.old ≤ Self.faults self.new }
        ensures failed { IsErrOf result DeskFail.Failed → Rises (Self.faults self.old) (Self.faults self.new) }
        ensures made { Self.Link.requirements link.new ≡ Self.Link.requirements link.old }
        ensures waits { OnOk result (waiting link.new ≡ Some request.now) }
        ensures sends { OnOk result (sends self.new ≡ next (sends self.old)) }
        ensures sent { OnOk result (sent self.new ≡ and_sent (sent self.old) (sent_over (Self.Link.requirements link.old) request.now)) }
        ensures waited { OnErr result (waiting link.new ≡ waiting link.old) }
        ensures not_counted { OnErr result (sends self.new ≡ sends self.old) }
        ensures not_sent { OnErr result (sent self.new ≡ sent self.old) }
        ensures whole { OnOk result (broken link.new ≡ broken link.old) }
        ensures broken { OnErr result (broken link.new ≡ true) };

    /// Receives the reply to the request that waits on the link; afterwards none waits. An answer that begins with no reply, or
    /// with one for another unit, of another version, in another mode or with a fault, is Failed. After an error the link is broken.
    fn receive(&mut self, alloc: Global, link: &mut Self::Link) -> Result<Reply, DeskFail>
        requires { IsSome (waiting link.old) }
        ensures files { Self.files self.new ≡ Self.files self.old }
        ensures reads { Self.reads self.new ≡ Self.reads self.old }
        ensures counted { IsFaultCounted (Self.faults self.old) (Self.faults self.new) result }
        ensures kept { Self.faults self.old ≤ Self.faults self.new }
        ensures failed { IsErrOf result DeskFail.Failed → Rises (Self.faults self.old) (Self.faults self.new) }
        ensures made { Self.Link.requirements link.new ≡ Self.Link.requirements link.old }
        ensures reply { IfOk result (λ reply. IfSome (waiting link.old) (λ request. IsReplyTo (Self.files self.old) request reply)) }
        ensures idle { waiting link.new ≡ None }
        ensures whole { OnOk result (broken link.new ≡ broken link.old) }
        ensures broken { OnErr result (broken link.new ≡ true) }
        ensures sends { sends self.new ≡ sends self.old }
        ensures sent { sent self.new ≡ sent self.old };

    /// Tells a daemon that nothing more is asked of it, and doesn't wait: the link is then for `stop` alone, which waits for its end.
    /// So several daemons can end side by side. What goes wrong is counted nowhere.
    fn tell_to_stop(&mut self, link: &mut Self::Link)
        ensures files { Self.files self.new ≡ Self.files self.old }
        ensures reads { Self.reads self.new ≡ Self.reads self.old }
        ensures faults { Self.faults self.new ≡ Self.faults self.old }
        ensures made { Self.Link.requirements link.new ≡ Self.Link.requirements link.old }
        ensures sends { sends self.new ≡ sends self.old }
        ensures sent { sent self.new ≡ sent self.old };

    /// Stops the daemon, unless it was told to, and waits for its end. What goes wrong is counted nowhere.
    fn stop(&mut self, link: Self::Link)
        ensures files { Self.files self.new ≡ Self.files self.old }
        ensures reads { Self.reads self.new ≡ Self.reads self.old }
        ensures faults { Self.faults self.new ≡ Self.faults self.old }
        ensures sends { sends self.new ≡ sends self.old }
        ensures sent { sent self.new ≡ sent self.old };

    /// A link is settled where it isn't broken and no request waits on it.
    ghost settled_links: { (link : Self.Link) → Self.Link.settled link ≡ is_settled (broken link) (waiting link) };

    /// Reading a file sends nothing.
    ghost reads_send_nothing: { (old new : Self) → Self.keeps old new → (sends new ≡ sends old) × (sent new ≡ sent old) };
}
