//! The words that the program was called with.
ghost use Rattle.std.specs.Io.{WritesAtMost};

use std::env::{Args, Env, FillError};
use std::{env, io};

/// The system's arguments behind the first. That one is the name by which the program was called, which may be any bytes: it isn't read.
#[derive(Clone, Copy)]
struct BehindName<'a>(&'a HostRuntime);

impl Env for BehindName<'_> {
    fn arg(&self, i: usize, buf: &mut [u8]) -> Result<usize, FillError> {
        match i.checked_add(1) {
            Some(behind) => self.0.arg(behind, buf),
            None => Err(FillError::NotPresent),
        }
    }

    fn var(&self, name: &str, buf: &mut [u8]) -> Result<usize, FillError> {
        self.0.var(name, buf)
    }

    fn var_at(&self, i: usize, buf: &mut [u8]) -> Result<usize, FillError> {
        self.0.var_at(i, buf)
    }
}

/// The words behind the program's own name. InvalidData comes where one of them isn't UTF-8, and OutOfMemory where there is no memory.
pub(crate) fn words(rt: &HostRuntime) -> io::Result<Args> {
    env::args(&(BehindName(rt), rt.alloc()))
}
