//! The program: reads a history from standard input, and writes its picture to standard output.
#![tactic(auto)]

mod inputs;
mod pictures;
mod reading;
mod status;

use crate::pictures::picture;
use crate::status::{Status, told};
use file_access::{StdSink, StdSource};
use std::env::{Env, FillError};
use std::io;
use std::process::ExitCode;

/// Whether the program was called with no words behind its name. The name itself may be any bytes: it isn't read.
fn has_no_words(rt: &HostRuntime) -> bool {
    matches!(rt.arg(1, &mut []), Err(FillError::NotPresent))
}

/// Draws what the input gives. The program takes no words.
fn run(rt: &HostRuntime) -> Status {
    let mut out = StdSink::new(io::writer(rt));
    if !has_no_words(rt) {
        return told(Status::BadWords, &mut out);
    }
    let mut input = StdSource::new(rt.stdin());
    picture(rt.alloc(), &mut input, &mut out)
}

fn main(rt: HostRuntime) -> ExitCode {
    ExitCode::from(run(&rt).number())
}
