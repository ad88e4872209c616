//! The stances of the workers, with those counted that look and those that sleep.
ghost use Rattle.std.specs.Prelude.{◌≡◌, IfOk, Some, false, length, replicate, set, slice_get, true};
ghost use Rattle.worker_choices.specs.Stances.{asleep, looking};
ghost use Rattle.worker_choices.specs.declared.stances.Stance.TheVariants as stance;
ghost use Rattle.worker_notes.specs.Offered.{is_queued_in};
ghost use Rattle.worker_notes.specs.SleepAndWake.{AreQuiet, IsWokenBy, stances_after};

use crate::outside_work::Queued;
use lock_journal::Book;
use resource_lock::WorkerId;
use std::alloc::{AllocError, Global};
use std::marker::Model;
use std::mem;
use worker_choices::{Stance, Woken, all_ended, whom_to_wake};

/// What each worker does between its calls, by worker. Contracts see the list.
#[derive(Drop)]
pub struct Stances {
    stances: Vec<Stance>,
    // How many look, and how many sleep.
    lookers: usize,
    sleepers: usize,
}

impl Model for Stances {
    ghost use Rattle.std.specs.Prelude.{◌≡◌, List};
    ghost use Rattle.worker_choices.specs.Stances.{asleep, looking};
    ghost use Rattle.worker_choices.specs.declared.stances.Stance.{Stance};

    ghost Value = { List Stance };

    ghost view = { λ s. s.stances.items };

    ghost invariant = { λ s. (s.lookers ≡ looking s.stances.items) × (s.sleepers ≡ asleep s.stances.items) };
}

impl Stances {
    /// So many workers, each of whom is away. It fails for want of memory alone.
    pub fn away(alloc: Global, workers: u32) -> Result<Stances, AllocError>
        ensures { IfOk result (λ stances. stances ≡ replicate workers stance.Away) }
    {
        Ok(Stances {
            stances: vec![in alloc; Stance::Away; workers as usize]?,
            lookers: 0,
            sleepers: 0,
        })
    }

    /// Notes a worker's stance. A number of no worker changes nothing.
    #[inline]
    pub fn note(&mut self, worker: WorkerId, stance: Stance)
        ensures { self.new ≡ set self.old worker.0 stance }
    {
        match stance {
            // Most holds leave their worker away, as it was.
            Stance::Away if self.is_away(worker) => {}
            _ => self.change(worker, stance),
        }
    }

    // Whether a worker is away.
    #[inline(always)]
    fn is_away(&self, worker: WorkerId) -> bool
        ensures { result ≡ true → slice_get self.now worker.0 ≡ Some stance.Away }
    {
        matches!(self.stances.get(worker.0 as usize), Some(Stance::Away))
    }

    // Notes a stance that the worker may not have had.
    #[inline]
    fn change(&mut self, worker: WorkerId, stance: Stance)
        ensures { self.new ≡ set self.old worker.0 stance }
    {
        let place = worker.0 as usize;
        if place < self.stances.len() {
            let before = mem::replace(&mut self.stances[place], stance);
            self.lookers = self.lookers - usize::from(before.looks()) + usize::from(stance.looks());
            self.sleepers = self.sleepers - usize::from(before.sleeps())
                + usize::from(stance.sleeps());
        }
    }

    /// Whether some worker sleeps.
    #[inline]
    pub fn some_sleep(&self) -> bool
        ensures { result ≡ false → asleep self.now ≡ 0 }
    {
        self.sleepers > 0
    }

    /// Ends a hold that left this book, where items wait so: its worker takes this stance, and who is woken looks.
    #[inline(always)]
    pub fn settle(&mut self, book: &Book, queued: Queued, worker: WorkerId, stance: Stance) -> Woken
        ensures woken { IsWokenBy book.now (is_queued_in queued book.now) (set self.old worker.0 stance) result }
        ensures stances { self.new ≡ stances_after result (set self.old worker.0 stance) }
        ensures quiet { AreQuiet book.now (is_queued_in queued book.now) self.new }
    {
        self.note(worker, stance);
        // Mostly nobody sleeps.
        if !self.some_sleep() {
            return Woken::Nobody;
        }
        self.wake_for(book, queued)
    }

    // Wakes who is to be woken at the end of a hold that left this book, where items wait so. Who is woken looks.
    #[inline(never)]
    fn wake_for(&mut self, book: &Book, queued: Queued) -> Woken
        ensures woken { IsWokenBy book.now (is_queued_in queued book.now) self.old result }
        ensures stances { self.new ≡ stances_after result self.old }
        ensures quiet { AreQuiet book.now (is_queued_in queued book.now) self.new }
    {
        let woken = self.whom_to_wake(book, queued);
        self.note_woken(woken);
        woken
    }

    // Whom of them the end of a hold wakes, where items wait so. It looks for one, and where items wait, only where nobody looks.
    #[inline]
    fn whom_to_wake(&self, book: &Book, queued: Queued) -> Woken
        ensures { IsWokenBy book.now (is_queued_in queued book.now) self.now result }
    {
        if self.lookers > 0 {
            return if all_ended(book) {
                Woken::All
            } else {
                Woken::Nobody
            };
        }
        self.look_for_one(book, queued)
    }

    // The same where nobody looks.
    #[inline(never)]
    fn look_for_one(&self, book: &Book, queued: Queued) -> Woken
        requires { looking self.now ≡ 0 }
        ensures { IsWokenBy book.now (is_queued_in queued book.now) self.now result }
    {
        whom_to_wake(book, queued.has_some(book), &self.stances)
    }

    /// Notes that who is woken looks, and that where all are, none is counted on.
    pub fn note_woken(&mut self, woken: Woken)
        ensures { self.new ≡ stances_after woken self.old }
    {
        match woken {
            Woken::Nobody => {}
            Woken::One(worker) => self.note(worker, Stance::Looks),
            Woken::All => self.note_all_awake(),
        }
    }

    // Notes that all workers are awake, and that none is counted on.
    fn note_all_awake(&mut self)
        ensures { self.new ≡ replicate (length self.old) stance.Away }
    {
        self.stances.fill(Stance::Away);
        self.lookers = 0;
        self.sleepers = 0;
    }
}
