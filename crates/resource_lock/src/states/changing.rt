//! The changes that a worker can make, and how they are taken back.
ghost use Rattle.std.specs.Prelude.{◌≡◌, ◌&&◌, not, IsTrue};
ghost use Rattle.resource_lock.specs.StateView.{StateView, IsWorkerOf};
ghost use Rattle.resource_lock.specs.Change.{can, make, names_only, same_mark, NamesOnly};
ghost use Rattle.resource_lock.specs.Leading.{CameFrom};

use super::State;
use crate::changes::Change;
use crate::ids::WorkerId;
use crate::marks::Mark;

impl State {
    /// Whether a worker can make a change now. The worker and what the change names are of the state.
    #[inline(always)]
    pub fn can(&self, worker: WorkerId, change: Change) -> bool
        requires worker_in_range { IsWorkerOf self.now worker }
        requires change_in_range { NamesOnly self.now change }
        ensures { result ≡ can self.now worker change }
    {
        let held = &self.held[worker.0 as usize];
        match change {
            Change::Lock(lock) => {
                self.owner(lock).is_none()
                    && !self.kept_from(worker, lock)
                    && !self.has_parked(worker, lock)
            },
            Change::Unlock(lock) => self.owns(worker, lock),
            Change::Take => !held.lease && !held.blocked && self.out < self.max_leases,
            Change::Give => held.lease,
            Change::Move(id, from, to) => can_move(worker, self.mark(id), from, to),
            Change::Park(lock) => !self.owns(worker, lock) && !self.has_parked(worker, lock),
            Change::Unpark(lock) => match held.parked.last() {
                Some(last) => last.0 == lock.0,
                None => false,
            },
            Change::Enter => !held.blocked && !held.lease,
            Change::Leave => held.blocked,
        }
    }

    /// Makes a change that the worker can make. It takes no memory.
    #[inline(always)]
    pub fn make(&mut self, worker: WorkerId, change: Change)
        requires worker_in_range { IsWorkerOf self.old worker }
        requires change_in_range { NamesOnly self.old change }
        requires possible { IsTrue (can self.old worker change) }
        ensures { self.new ≡ make self.old worker change }
    {
        self.held[worker.0 as usize].note(worker, change);
        match change {
            Change::Lock(lock) => {
                self.owners[lock.0 as usize] = Some(worker);
                self.owned += 1;
            }
            Change::Unlock(lock) => {
                self.owners[lock.0 as usize] = None;
                self.owned -= 1;
            }
            Change::Take => self.out += 1,
            Change::Give => self.out -= 1,
            Change::Move(id, _, to) => self.marks.set(id, to),
            Change::Park(_) | Change::Unpark(_) | Change::Enter | Change::Leave => {}
        }
    }

    /// Takes back changes of a worker that led to this state, given in the order in which they were
    /// made. What is left is the state before them. It takes no memory.
    pub fn take_back(&mut self, worker: WorkerId, changes: &[Change])
        requires { (before : StateView) × CameFrom before self.old worker changes.now }
        ensures { (before : StateView) → CameFrom before self.old worker changes.now → self.new ≡ before }
    {
        for change in changes.iter().rev() {
            self.make(worker, change.inverse());
        }
    }
}

// Whether a worker can move a mark from the second to the third, where the first is found.
#[inline(always)]
fn can_move(worker: WorkerId, found: Mark, from: Mark, to: Mark) -> bool
    ensures { result ≡ (same_mark found from && not (same_mark from to) && names_only from worker && names_only to worker) }
{
    found == from && from != to && names_only(from, worker) && names_only(to, worker)
}

// Whether a mark, where it is Running, names this worker.
fn names_only(mark: Mark, worker: WorkerId) -> bool
    ensures { result ≡ names_only mark worker }
{
    match mark {
        Mark::Running(runner) => runner.0 == worker.0,
        _ => true,
    }
}
