//! What one worker has, and how much it owns and runs.
ghost use Rattle.std.specs.Prelude.{◌≡◌, ◌≤◌, IfOk, vec_capacity};
ghost use Rattle.resource_lock.specs.Counting.{no_counts};
ghost use Rattle.resource_lock.specs.Holdings.{holding_from, recounted, CanRecount, CanCount, IsAfter};
ghost use Rattle.resource_lock.specs.StateView.{empty_holding};

use crate::changes::Change;
use crate::ids::{LockId, WorkerId};
use crate::marks::{Mark, MarkId};
use std::alloc::{AllocError, Global};

/// How many locks a worker owns, and how many tasks, actions and units run by it.
#[derive(Clone, Copy)]
pub(super) struct Counts {
    pub(super) locks: usize,
    pub(super) tasks: usize,
    pub(super) actions: usize,
    pub(super) units: usize,
}

impl Counts {
    /// Of a worker that has nothing.
    pub(super) const NONE: Counts = Counts {
        locks: 0,
        tasks: 0,
        actions: 0,
        units: 0,
    };
}

/// What a worker has.
#[derive(Drop)]
pub(super) struct Held {
    pub(super) lease: bool,
    pub(super) parked: Vec<LockId>,
    pub(super) blocked: bool,
    pub(super) counts: Counts,
}

impl Held {
    /// The entry of a worker that has nothing, with room for so many locks. Only want of memory is an
    /// error.
    pub(super) fn empty(alloc: Global, locks: usize) -> Result<Held, AllocError>
        ensures empty { IfOk result (λ held. holding_from held ≡ empty_holding) }
        ensures counts { IfOk result (λ held. held.counts ≡ no_counts) }
        ensures room { IfOk result (λ held. locks ≤ vec_capacity held.parked) }
    {
        Ok(Held {
            lease: false,
            parked: Vec::with_capacity(alloc, locks)?,
            blocked: false,
            counts: Counts::NONE,
        })
    }

    /// Notes a change of the worker.
    #[inline(always)]
    pub(super) fn note(&mut self, worker: WorkerId, change: Change)
        requires { CanCount worker self.old change }
        ensures { IsAfter worker change self.old self.new }
    {
        match change {
            Change::Lock(_) => self.counts.locks += 1,
            Change::Unlock(_) => self.counts.locks -= 1,
            Change::Take => self.lease = true,
            Change::Give => self.lease = false,
            Change::Move(MarkId::Task(_), from, to) => {
                self.counts.tasks = recounted(self.counts.tasks, worker, from, to);
            }
            Change::Move(MarkId::Action(_), from, to) => {
                self.counts.actions = recounted(self.counts.actions, worker, from, to);
            }
            Change::Move(MarkId::Unit(_), from, to) => {
                self.counts.units = recounted(self.counts.units, worker, from, to);
            }
            Change::Park(lock) => self.parked.push_reserved(lock),
            Change::Unpark(_) => {
                let _ = self.parked.pop();
            }
            Change::Enter => self.blocked = true,
            Change::Leave => self.blocked = false,
        }
    }
}

// How many marks run by a worker, where one of them is moved.
fn recounted(count: usize, worker: WorkerId, from: Mark, to: Mark) -> usize
    requires { CanRecount count worker from to }
    ensures { result ≡ recounted count worker from to }
{
    count - usize::from(from.runs_by(worker)) + usize::from(to.runs_by(worker))
}
