//! The program: the words, the real files, standard input and output, and the one call that does the rest.
#![tactic(auto)]

mod words;

ghost use Rattle.std.specs.Prelude.{◌≡◌, IfOk, length};
ghost use Rattle.leases_cli.specs.declared.top.TheConstants.{DESKS};

use crate::words::words;
use daemon_desk::FolderDesk;
use file_access::{AheadSource, OpenGate, StdSink};
use item_actions::Text;
use leases_cli::{DESKS, Status, leases};
use std::alloc::{AllocError, AllocFailed, Global};
use std::io::{ErrorKind, Input};
use std::process::ExitCode;
use std::sync::Wait;
use std::thread::Threads;
use std::{io, mem};

/// Why nothing could be begun.
#[derive(Clone, Copy)]
enum Hindrance {
    /// A word isn't UTF-8, so it can't be handed to the call. Nothing is printed.
    Words,
    /// There is no memory.
    Memory,
}

impl From<AllocError> for Hindrance {
    fn from(_error: AllocError) -> Hindrance {
        Hindrance::Memory
    }
}

impl<T: Drop> From<AllocFailed<T>> for Hindrance {
    fn from(_failed: AllocFailed<T>) -> Hindrance {
        Hindrance::Memory
    }
}

/// The system's own link to the running program, by which it is started again as a worker. It leads there also where the program's
/// file was moved or replaced, and by whatever name the program was called.
const RUNNING_PROGRAM: &str = "/proc/self/exe";

// Reads the words that the program was called with, behind its own name.
fn read_words(rt: &HostRuntime, alloc: Global) -> Result<Vec<Text>, Hindrance> {
    let args = match words(rt) {
        Ok(args) => args,
        Err(error) if error.kind() == ErrorKind::OutOfMemory => return Err(Hindrance::Memory),
        Err(_) => return Err(Hindrance::Words),
    };
    let mut words = Vec::new(alloc);
    for arg in args {
        words.push(Text::from_str(alloc, arg.as_str())?)?;
    }
    Ok(words)
}

// The desks of the current folder. Daemons that are asked for as `self` are this program.
fn desks<'a>(
    rt: &'a HostRuntime,
    alloc: Global,
) -> Result<Vec<FolderDesk<&'a HostRuntime>>, Hindrance>
    ensures { IfOk result (λ desks. length desks.items ≡ DESKS) }
{
    let mut desks = Vec::with_capacity(alloc, DESKS)?;
    for _ in 0..DESKS {
        let program = Text::from_str(alloc, RUNNING_PROGRAM)?;
        desks.push(FolderDesk::new(rt, alloc, program))?;
    }
    Ok(desks)
}

// Does what the words ask for.
fn run<T: Threads + Wait + Sync>(rt: &HostRuntime, threads: &T) -> Result<Status, Hindrance> {
    let alloc = rt.alloc();
    let words = read_words(rt, alloc)?;
    let mut desks = desks(rt, alloc)?;
    let mut input = AheadSource::new(rt.reader());
    let mut out = StdSink::new(io::writer(rt));
    let ended = leases(
        threads, alloc, &words, &mut desks, &mut input, &OpenGate, &mut out,
    );
    let status = ended.status;
    // The process ends here, and the system takes back all that is left of its memory at once.
    mem::forget(ended);
    mem::forget(desks);
    mem::forget(words);
    Ok(status)
}

fn main(rt: HostRuntime) -> ExitCode {
    let status = match run(&rt, &rt) {
        Ok(status) => status,
        Err(Hindrance::Words) => Status::BadWords,
        Err(Hindrance::Memory) => Status::NoMemory,
    };
    ExitCode::from(status.number())
}
