//! The command `worker`.
ghost use Rattle.std.specs.Prelude.{◌≡◌, ◌≤◌};
ghost use Rattle.command_answers.specs.Worker.{HasWorked};

use crate::status::Status;
use daemon_desk::{Served, serve};
use file_access::{Files, Sink, Source};
use std::alloc::Global;

impl From<Served> for Status {
    ghost use Rattle.std.specs.Prelude.{◌≡◌};
    ghost use Rattle.command_answers.specs.Worker.{status_of};

    ghost from_gives = { λ served status. status ≡ status_of served };

    fn from(served: Served) -> Status {
        match served {
            Served::Done => Status::Passed,
            Served::BadFrame(place) => Status::BadFrame(place),
            Served::SourceFault => Status::SourceFault,
            Served::SinkFault => Status::SinkFault,
            Served::NoMemory => Status::NoMemory,
        }
    }
}

/// Answers each request of the input with a reply on `out`, from the files.
///
/// It ends with Passed where `daemon_desk::serve` answers Done, and else with the status of the same name.
/// It writes nothing but the replies.
pub fn serve_worker<F: Files, I: Source, O: Sink>(
    alloc: Global,
    files: &mut F,
    input: &mut I,
    out: &mut O,
) -> Status
    ensures files { F.files files.new ≡ F.files files.old }
    ensures file_faults { F.faults files.old ≤ F.faults files.new }
    ensures input_faults { (I.seen input.old).faults ≤ (I.seen input.new).faults }
    ensures worked { HasWorked
        record { source = I.seen input.old; sink = O.seen out.old; files = F.files files.old; faults = F.faults files.old }
        record { source = I.seen input.new; sink = O.seen out.new; files = F.files files.new; faults = F.faults files.new }
        result }
{
    Status::from(serve(alloc, input, out, files))
}
