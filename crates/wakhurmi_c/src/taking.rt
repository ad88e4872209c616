//! The history of a service, taken while it runs.
ghost use Rattle.std.specs.Prelude.{◌≡◌, ◌≢◌, IfOk, OnErr, OnOk, false, true};
ghost use Rattle.lock_journal.specs.SegmentView.{IsCleared};
ghost use Rattle.wakhurmi_c.specs.Numbers.{answer_of};
ghost use Rattle.wakhurmi_c.specs.Taken.{HasTheNumbers, HasTriedToTake, IsFreshPart, TakingLeaves};
ghost use Rattle.wakhurmi_c.specs.declared.answers.Answer.TheVariants as answers;

use crate::answers::Answer;
use crate::handles::Handle;
use crate::part_handles::PartHandle;
use crate::taken_parts::TakenPart;
use crate::workers::Worker;
use lock_journal::Segment;
use std::alloc::{AllocError, Global};

// A new part has room for so many entries, and for as many changes as most of them make.
const ENTRIES: u64 = 1024;

const CHANGES: u64 = 4096;

impl Worker {
    /// Takes what the service keeps of its history, once.
    fn take_history(&mut self, part: &mut TakenPart) -> Answer
        requires { IsFreshPart self.old.pass.sight.seen part.old }
        ensures { TakingLeaves self.old.pass.sight self.new.pass.sight part.old part.new result }
    {
        match self
            .service
            .attempt_history(&mut self.pass, &mut part.segment)
        {
            None => Answer::Again,
            Some(true) => Answer::Done,
            Some(false) => Answer::BadNumber,
        }
    }
}

impl TakenPart {
    /// A part that has no entries, for a worker's service.
    fn opening(alloc: Global, worker: &Worker) -> Result<TakenPart, AllocError>
        ensures { IfOk result (IsFreshPart worker.now.pass.sight.seen) }
    {
        Ok(TakenPart {
            segment: Segment::opening(alloc, 0, ENTRIES, CHANGES)?,
            workers: worker.workers,
            max_leases: worker.max_leases,
            locks: worker.locks,
        })
    }

    /// Forgets the entries, for a worker's service. The room stays.
    fn renew(&mut self, worker: &Worker)
        ensures { IsFreshPart worker.now.pass.sight.seen self.new }
    {
        self.segment.clear();
        self.workers = worker.workers;
        self.max_leases = worker.max_leases;
        self.locks = worker.locks;
    }
}

/// Makes a part that has no entries, for a worker's service: of an old one, whose room stays, or a new one.
fn refresh(
    alloc: Global,
    worker: &Worker,
    handle: &mut PartHandle,
) -> Result<Box<TakenPart>, AllocError>
    ensures fresh { IfOk result (λ part. IsFreshPart worker.now.pass.sight.seen part.value) }
    ensures emptied { OnOk result (handle.new.full ≡ false) }
    ensures kept { OnErr result (handle.new ≡ handle.old) }
{
    if handle.full {
        let mut part = handle.take(alloc);
        part.renew(worker);
        return Ok(part);
    }
    let part = TakenPart::opening(alloc, worker)?;
    Ok(Box::new(alloc, part)?)
}

/// Takes the history into a part that has no entries, which fills the handle.
fn take_into(worker: &mut Worker, mut fresh: Box<TakenPart>, part: &mut PartHandle) -> Answer
    requires { IsFreshPart worker.old.pass.sight.seen fresh.value }
    ensures full { part.new.full ≡ true }
    ensures tried { HasTriedToTake worker.old.pass.sight worker.new.pass.sight part.new.held.taken result }
{
    let answer = worker.take_history(&mut fresh);
    *part = PartHandle::of(fresh);
    answer
}

/// Takes what the service keeps of its history. A part that is in the handle is emptied first, and its room serves again.
///
/// `Again` says that another worker had the book at this moment: then the part has no entries. `BadNumber` comes where the history has more
/// than 2^62 entries, and `NoMemory` where there was none for a new part. Then nothing is taken.
#[unsafe(no_mangle)]
pub extern "C" fn wakhurmi_c_take_history(
    alloc: Global,
    handle: &mut Handle,
    part: &mut PartHandle,
) -> u32
    ensures full { handle.new.full ≡ handle.old.full }
    ensures empty { handle.old.full ≡ false → answer_of result ≡ answers.Empty }
    ensures kept { answer_of result ≡ answers.Empty → part.new ≡ part.old }
    ensures no_memory { answer_of result ≡ answers.NoMemory → (part.new ≡ part.old) × (handle.new.held.worker ≡ handle.old.held.worker) }
    ensures filled { handle.old.full ≡ true → answer_of result ≢ answers.NoMemory → part.new.full ≡ true }
    ensures tried { handle.old.full ≡ true → answer_of result ≢ answers.NoMemory
        → HasTriedToTake handle.old.held.worker.pass.sight handle.new.held.worker.pass.sight part.new.held.taken (answer_of result) }
{
    if !handle.full {
        return Answer::Empty.number();
    }
    let mut worker = handle.take(alloc);
    let Ok(fresh) = refresh(alloc, &worker, part) else {
        *handle = Handle::of(worker);
        return Answer::NoMemory.number();
    };
    let answer = take_into(&mut worker, fresh, part);
    *handle = Handle::of(worker);
    answer.number()
}

/// Forgets the entries of a part. Its room stays.
#[unsafe(no_mangle)]
pub extern "C" fn wakhurmi_c_empty_part(alloc: Global, part: &mut PartHandle) -> u32
    ensures empty { part.old.full ≡ false → answer_of result ≡ answers.Empty }
    ensures done { part.old.full ≡ true → answer_of result ≡ answers.Done }
    ensures full { part.new.full ≡ part.old.full }
    ensures emptied { part.old.full ≡ true → IsCleared part.old.held.taken.segment part.new.held.taken.segment }
    ensures numbers { part.old.full ≡ true → HasTheNumbers part.old.held.taken part.new.held.taken }
    ensures kept { part.old.full ≡ false → part.new ≡ part.old }
{
    if !part.full {
        return Answer::Empty.number();
    }
    let mut taken = part.take(alloc);
    taken.segment.clear();
    *part = PartHandle::of(taken);
    Answer::Done.number()
}

/// Closes a part.
#[unsafe(no_mangle)]
pub extern "C" fn wakhurmi_c_close_part(alloc: Global, part: &mut PartHandle) -> u32
    ensures empty { part.old.full ≡ false → answer_of result ≡ answers.Empty }
    ensures closed { part.old.full ≡ true → answer_of result ≡ answers.Done }
    ensures emptied { part.new.full ≡ false }
{
    if !part.full {
        return Answer::Empty.number();
    }
    drop(part.take(alloc));
    Answer::Done.number()
}
