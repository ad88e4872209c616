//! Runs of bytes without a line end, in pieces.
ghost use Rattle.std.specs.Prelude.{◌≡◌, ◌<◌, ◌+◌, ◌++◌, ◌^◌, ℕ, List, [], length};
ghost use Rattle.item_actions.specs.Bytes.{longest, run};
ghost use Rattle.item_actions.specs.Runs.{HasRuns, last_run};

use crate::LINE_END;
use crate::numbers::longest_in;
use memchr::{memchr, memrchr};

/// The runs of the pieces that came: the length of the longest, and that of the last one, which may go on.
#[derive(Clone, Copy)]
pub struct RunState {
    longest: u64,
    last: u64,
}

impl RunState {
    /// No piece came.
    pub fn new() -> RunState
        ensures { HasRuns result [] }
    {
        RunState {
            longest: 0,
            last: 0,
        }
    }

    /// The runs of one piece more. Its first one goes on from the last one of the pieces before.
    pub fn add(&mut self, piece: &[u8])
        ensures { (bytes : List ℕ) → length bytes + length piece.now < 2 ^ 64
            → HasRuns self.old bytes → HasRuns self.new (bytes ++ piece.now) }
    {
        let first = first_run(piece);
        let run = self.last.saturating_add(first as u64);
        if first == piece.len() {
            self.longest = self.longest.max(run);
            self.last = run;
        } else {
            self.longest = self.longest.max(run).max(longest_in(piece));
            self.last = last_run(piece) as u64;
        }
    }

    /// The length of the longest.
    pub fn number(&self) -> u64
        ensures { (bytes : List ℕ) → HasRuns self.now bytes → result ≡ longest bytes }
    {
        self.longest
    }
}

// How many bytes stand before the first line end.
fn first_run(bytes: &[u8]) -> usize
    ensures { result ≡ run bytes.now }
{
    match memchr(LINE_END, bytes) {
        Some(end) => end,
        None => bytes.len(),
    }
}

// How many bytes stand behind the last line end.
fn last_run(bytes: &[u8]) -> usize
    ensures { result ≡ last_run 0 bytes.now }
{
    match memrchr(LINE_END, bytes) {
        Some(end) => bytes.len() - (end + 1),
        None => bytes.len(),
    }
}
