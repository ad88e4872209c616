//! Who sleeps, and whom the end of a hold of the state lock wakes.
ghost use Rattle.std.specs.Prelude.{◌≡◌, ◌≢◌, ◌<◌, IfOk, Ok, false, length, replicate, true};
ghost use Rattle.worker_notes.specs.declared.outside_work.Queued.TheVariants as queued;
ghost use Rattle.worker_notes.specs.declared.sleepers.Then.TheVariants as thens;
ghost use Rattle.worker_choices.specs.GoingOn.{last_lets_go_on};
ghost use Rattle.worker_choices.specs.declared.stances.Stance.TheVariants as stance;
ghost use Rattle.worker_notes.specs.SleepAndWake.{EndsHold, GoesOn, begun, comes_again, goes_to_work, has_entered, is_a_step, looks_behind_answers};
ghost use Rattle.worker_notes.specs.SleepAndWake.{looks_if, stance_after, stance_asking, woken_if};

use crate::outside_work::Queued;
use crate::stances::Stances;
use lock_journal::Book;
use lock_transforms::{Disposition, Kind};
use resource_lock::WorkerId;
use std::alloc::{AllocError, Global};
use worker_choices::{Awaited, Stance, Woken, last_lets_go_on};

/// What a worker does behind a hold of the state lock.
#[derive(Clone, Copy, PartialEq, Eq)]
pub enum Then {
    /// It has promised nothing, and others don't count on it.
    Leaves,
    /// It goes back to its caller with what there is to do. Where its entry brought nothing to do yet, it comes again at once: behind
    /// a skip, queued items, the beginning of a wait for them, and the end of a task.
    Works,
    /// It comes again at once, but behind a claim and the entry of a blocking section.
    Looks,
}

/// Who may be asleep, who looks, and what they all wait for beside the book.
#[derive(Drop)]
pub struct Sleepers {
    /// Whether a transform sleeps.
    pub transforms: bool,
    /// Whether a question sleeps that waits for any entry.
    pub questions: bool,
    /// What each worker does.
    pub stances: Stances,
    /// Where items waited to be claimed when the hold began. Where nobody sleeps, a transform's hold leaves it as it was.
    pub queued: Queued,
    /// What the worker of the hold does behind it.
    pub behind: Then,
}

/// Whom the end of a hold wakes of those that sleep.
#[derive(Clone, Copy)]
pub struct Wakes {
    /// The transforms, or none of them.
    pub transforms: bool,
    /// The questions that wait for any entry, or none of them.
    pub questions: bool,
    /// Workers that wait for something else.
    pub workers: Woken,
}

impl Wakes {
    /// All that sleep.
    pub const ALL: Wakes = Wakes {
        transforms: true,
        questions: true,
        workers: Woken::All,
    };

    /// None of them.
    pub const NOBODY: Wakes = Wakes {
        transforms: false,
        questions: false,
        workers: Woken::Nobody,
    };

    /// Whether it wakes anybody.
    #[inline]
    pub fn wake_any(self) -> bool {
        self.transforms || self.questions || !matches!(self.workers, Woken::Nobody)
    }
}

impl Sleepers {
    /// Nobody of so many workers, each of whom is away. It fails for want of memory alone.
    pub fn nobody(alloc: Global, workers: u32) -> Result<Sleepers, AllocError>
        ensures transforms { IfOk result (λ sleepers. sleepers.transforms ≡ false) }
        ensures questions { IfOk result (λ sleepers. sleepers.questions ≡ false) }
        ensures workers { IfOk result (λ sleepers. sleepers.stances ≡ replicate workers stance.Away) }
        ensures queued { IfOk result (λ sleepers. sleepers.queued ≡ queued.Beside false) }
        ensures behind { IfOk result (λ sleepers. sleepers.behind ≡ thens.Leaves) }
    {
        Ok(Sleepers {
            transforms: false,
            questions: false,
            stances: Stances::away(alloc, workers)?,
            queued: Queued::Beside(false),
            behind: Then::Leaves,
        })
    }

    /// Begins the hold of a question, whose worker was woken or wasn't, and does this behind it.
    #[inline]
    pub fn begin_asking(&mut self, worker: WorkerId, woken: bool, behind: Then, queued: Queued)
        ensures { self.new ≡ begun queued behind (woken_if woken worker self.old) }
    {
        if woken {
            self.stances.note(worker, Stance::Looks);
        }
        self.queued = queued;
        self.behind = behind;
    }

    /// Ends a hold that left this book: its worker takes this stance, and who is woken looks. Where the hold made an entry, that wakes
    /// questions and transforms too.
    #[inline(always)]
    pub fn end_hold(
        &mut self,
        book: &Book,
        worker: WorkerId,
        stance: Stance,
        entered: bool,
    ) -> Wakes
        requires { entered ≡ true → book.now.given < length book.now.history }
        ensures { EndsHold book.now worker stance entered self.old self.new result }
    {
        let workers = self.stances.settle(book, self.queued, worker, stance);
        if !self.entry_may_wake() {
            return Wakes {
                transforms: false,
                questions: false,
                workers,
            };
        }
        let transforms = entered && self.transforms && last_lets_go_on(book);
        let questions = entered && self.questions;
        self.transforms = self.transforms && !transforms;
        self.questions = self.questions && !questions;
        Wakes {
            transforms,
            questions,
            workers,
        }
    }

    // Whether a transform or a question sleeps that an entry may wake.
    #[inline(always)]
    fn entry_may_wake(&self) -> bool
        ensures transforms { result ≡ false → self.now.transforms ≡ false }
        ensures questions { result ≡ false → self.now.questions ≡ false }
    {
        self.transforms || self.questions
    }

    /// Ends the hold in which a transform of this kind was run.
    #[inline(always)]
    pub fn end_transform(
        &mut self,
        book: &Book,
        worker: WorkerId,
        kind: Kind,
        ran: &Result<Disposition, AllocError>,
    ) -> Wakes
        requires { has_entered ran.now ≡ true → book.now.given < length book.now.history }
        ensures { EndsHold book.now worker (stance_after self.old.behind kind ran.now) (has_entered ran.now) self.old self.new result }
    {
        let again = match ran {
            Ok(Disposition::Finished) => self.behind.comes_again(kind),
            Ok(Disposition::Failed) => self.behind.looks_behind_answers(),
            Ok(Disposition::Retry) | Err(_) => false,
        };
        let entered = matches!(ran, Ok(Disposition::Finished | Disposition::Failed));
        self.end_hold(book, worker, looks_if(again), entered)
    }

    /// Notes an entry behind which the hold goes on. It wakes questions and transforms as at the end of a hold. Who sleeps apart is
    /// looked for at the end.
    #[inline(always)]
    pub fn go_on(&mut self, book: &Book) -> Wakes
        requires { book.now.given < length book.now.history }
        ensures { GoesOn (last_lets_go_on book.now.history) self.old self.new result }
    {
        let transforms = self.transforms && last_lets_go_on(book);
        let questions = self.questions;
        self.transforms = self.transforms && !transforms;
        self.questions = self.questions && !questions;
        Wakes {
            transforms,
            questions,
            workers: Woken::Nobody,
        }
    }

    /// Goes on behind a transform of this kind that finished, and else ends the hold in which it was run.
    #[inline(always)]
    pub fn go_on_or_end(
        &mut self,
        book: &Book,
        worker: WorkerId,
        kind: Kind,
        ran: &Result<Disposition, AllocError>,
    ) -> Wakes
        requires { has_entered ran.now ≡ true → book.now.given < length book.now.history }
        ensures goes { ran.now ≡ Ok Disposition.Finished → GoesOn (last_lets_go_on book.now.history) self.old self.new result }
        ensures ends { ran.now ≢ Ok Disposition.Finished
            → EndsHold book.now worker (stance_after self.old.behind kind ran.now) (has_entered ran.now) self.old self.new result }
    {
        match ran {
            Ok(Disposition::Finished) => self.go_on(book),
            Ok(Disposition::Failed | Disposition::Retry) | Err(_) => {
                self.end_transform(book, worker, kind, ran)
            }
        }
    }

    /// Ends the hold in which a question was asked.
    #[inline]
    pub fn end_question<A>(
        &mut self,
        book: &Book,
        worker: WorkerId,
        awaited: Option<Awaited>,
        answer: &Option<A>,
    ) -> Wakes
        ensures { EndsHold book.now worker (stance_asking self.old.behind awaited answer.now) false self.old self.new result }
    {
        let stance = match (answer.is_some(), awaited) {
            (true, _) => looks_if(self.behind.looks_behind_answers()),
            (false, Some(awaited)) => Stance::Sleeps(awaited),
            (false, None) => Stance::Away,
        };
        self.end_hold(book, worker, stance, false)
    }
}

impl Then {
    // Whether the worker comes again at once behind an entry of this kind that finished.
    #[inline]
    fn comes_again(self, kind: Kind) -> bool
        ensures { result ≡ comes_again self kind }
    {
        match self {
            Then::Leaves => false,
            Then::Works => is_a_step(kind),
            Then::Looks => !goes_to_work(kind),
        }
    }

    // Whether it does behind an answer without an entry, and behind a failed entry.
    #[inline]
    fn looks_behind_answers(self) -> bool
        ensures { result ≡ looks_behind_answers self }
    {
        matches!(self, Then::Looks)
    }
}

// The stance of a worker that comes again at once, or doesn't.
#[inline]
fn looks_if(again: bool) -> Stance
    ensures { result ≡ looks_if again }
{
    if again { Stance::Looks } else { Stance::Away }
}

// Whether a worker goes to work after an entry of this kind.
#[inline]
fn goes_to_work(kind: Kind) -> bool
    ensures { result ≡ goes_to_work kind }
{
    matches!(kind, Kind::Claim(_) | Kind::Block(_))
}

// Whether an entry of this kind brings its worker nothing to do yet.
#[inline]
fn is_a_step(kind: Kind) -> bool
    ensures { result ≡ is_a_step kind }
{
    matches!(
        kind,
        Kind::Skip(_) | Kind::Submit(_) | Kind::Park(_) | Kind::End(_)
    )
}
