//! A gate that two units meet in.
use file_access::Gate;
use std::sync::atomic::{AtomicBool, Ordering};
use std::thread;

/// A gate that holds units 0 and 1 until both have entered, for a number of turns at most. It shows
/// that they ran at the same time.
#[derive(Drop)]
pub struct MeetingGate {
    turns: u64,
    first_entered: AtomicBool,
    second_entered: AtomicBool,
    // One of the two has spent its turns, and the other hadn't entered.
    missed: AtomicBool,
}

impl MeetingGate {
    /// A gate that nobody has entered, and that holds a unit for so many turns at most, each of one
    /// look and one yield.
    pub fn new(turns: u64) -> MeetingGate {
        MeetingGate {
            turns,
            first_entered: AtomicBool::new(false),
            second_entered: AtomicBool::new(false),
            missed: AtomicBool::new(false),
        }
    }

    /// Whether both units have entered before the turns of either were spent.
    pub fn met(&self) -> bool {
        self.first_entered.load(Ordering::SeqCst)
            && self.second_entered.load(Ordering::SeqCst)
            && !self.missed.load(Ordering::SeqCst)
    }

    // Enters, and holds the caller until the other has entered or the turns are spent.
    fn meet(&self, own: &AtomicBool, other: &AtomicBool) {
        own.store(true, Ordering::SeqCst);
        for _ in 0..self.turns {
            if other.load(Ordering::SeqCst) {
                return;
            }
            thread::yield_now();
        }
        self.missed.store(true, Ordering::SeqCst);
    }
}

impl Gate for MeetingGate {
    fn enter(&self, _worker: u32, unit: u32) {
        match unit {
            0 => self.meet(&self.first_entered, &self.second_entered),
            1 => self.meet(&self.second_entered, &self.first_entered),
            _ => {}
        }
    }
}
