//! Plans that are driven by tries of turns, on one thread: each history is what the rules owe, the lowest first.
ghost use Rattle.std.specs.Prelude.{◌≡◌, All, map};
ghost use Rattle.coordination.specs.Sights.{workers_from};

use crate::rows::{ACTIONS, ALL_PASS, Found, LIMITS, NONE_FAULTY, ONE_FAILS, Row, TASKS, closed};
use async_tracker::{NextWork, ParkedWork, TakeNextWork, TakeParkedWork};
use blocking_section::TakeUp;
use coordination::{
    Ask, Came, Decide, Decided, Decision, Followed, Pass, Planned, RunThenDecide, Slot, Wakes,
    openings_are_at_rest,
};
use lock_transforms::kinds::{Close, Park};
use lock_transforms::{Closed, Transform};
use resource_lock::{MarkId, WorkerId};
use single_steps::{MoveInTask, TaskMove};
use state_tests::books::book_of;
use std::alloc::{AllocError, Global};
use std::process::Abort;
use worker_choices::Woken;

/// What a hold came to.
#[derive(Clone, Copy)]
enum Did {
    /// The worker has something to do, or comes again at once.
    Went,
    /// There is nothing to do yet.
    Waits,
    /// All tasks have ended.
    Ended,
    /// It came to something that these plans don't have.
    Strayed,
}

/// How a worker goes on.
#[derive(Clone, Copy)]
struct Way {
    /// Whether it sleeps where there is nothing to do.
    sleeps: bool,
    /// The unit of its that fails, if it runs that.
    faulty: u32,
    /// Whether it parks in the hold behind the one that queues items. Else it asks what comes next, as where there was no memory.
    parks: bool,
}

impl Way {
    /// It sleeps, each unit passes, and it parks.
    const PLAIN: Way = Way {
        sleeps: true,
        faulty: NONE_FAULTY,
        parks: true,
    };

    /// The same without sleep.
    const AWAKE: Way = Way {
        sleeps: false,
        faulty: NONE_FAULTY,
        parks: true,
    };
}

/// What a hold came to, and whom it woke.
type Told = (Did, Wakes, Wakes);

/// An answer of a decision.
trait Answer {
    /// Whether it says that all tasks have ended.
    fn finishes(&self) -> bool;
}

impl Answer for NextWork {
    fn finishes(&self) -> bool {
        matches!(self, NextWork::Finish)
    }
}

impl Answer for ParkedWork {
    fn finishes(&self) -> bool {
        false
    }
}

impl Answer for TaskMove {
    fn finishes(&self) -> bool {
        false
    }
}

impl Answer for () {
    fn finishes(&self) -> bool {
        false
    }
}

// What was decided came to this.
fn decided_to<A: Answer>(decided: &Decided<A>) -> Did {
    match decided {
        Decided::Entered(_, true) => Did::Went,
        Decided::Answered(answer) if answer.finishes() => Did::Ended,
        _ => Did::Strayed,
    }
}

// What a decision came to.
fn came_to<A: Answer>(came: &Came<Decided<A>>) -> Did {
    match came {
        Came::Done(decided) => decided_to(decided),
        Came::Again => Did::Waits,
        Came::NoMemory => Did::Strayed,
    }
}

// What a transform with a decision behind it came to.
fn followed_to<A: Answer>(came: &Came<Followed<A>>) -> Did {
    match came {
        Came::Done(Followed::Undecided) => Did::Went,
        Came::Done(Followed::Decided(decided)) => decided_to(decided),
        _ => Did::Strayed,
    }
}

// The action in which a worker is parked, if it is.
fn parked_in(pass: &Pass) -> Option<u32> {
    for mark in pass.claimed() {
        if let MarkId::Action(action) = *mark {
            return Some(action);
        }
    }
    None
}

// A worker does what a decision answers.
fn decide<Q: Decision>(
    slot: &Slot<Planned>,
    pass: &mut Pass,
    sleeps: bool,
    decision: &Q,
) -> Option<Told>
where
    Q::Answer: Answer + Drop,
    requires { pass.old.service.table ≡ slot.now.table.shared.table_id }
    ensures { pass.new.service ≡ pass.old.service }
{
    let turn = Decide { decision };
    let (came, wakes, later) = slot.attempt_turn(pass, sleeps, &turn)?;
    Some((came_to(&came), wakes, later))
}

// A worker runs a transform, and does what a decision answers behind it.
fn run_then_decide<T: Transform, Q: Decision>(
    slot: &Slot<Planned>,
    pass: &mut Pass,
    transform: &T,
    decision: &Q,
) -> Option<Told>
where
    Q::Answer: Answer + Drop,
    requires { pass.old.service.table ≡ slot.now.table.shared.table_id }
    ensures { pass.new.service ≡ pass.old.service }
{
    let turn = RunThenDecide {
        transform,
        decision,
    };
    let (came, wakes, later) = slot.attempt_turn(pass, false, &turn)?;
    Some((followed_to(&came), wakes, later))
}

// A worker goes on in its task. Where it has queued items it parks in the next hold, and does what is next then.
fn go_in_task(slot: &Slot<Planned>, pass: &mut Pass, parks: bool, task: u32) -> Option<Told>
    requires { pass.old.service.table ≡ slot.now.table.shared.table_id }
    ensures { pass.new.service ≡ pass.old.service }
{
    let turn = Decide {
        decision: &MoveInTask { task },
    };
    let (came, wakes, later) = slot.attempt_turn(pass, false, &turn)?;
    match came {
        Came::Done(Decided::Entered(TaskMove::Submit(action), true)) if parks => {
            run_then_decide(slot, pass, &Park { action }, &TakeParkedWork { action })
        }
        came => Some((came_to(&came), wakes, later)),
    }
}

// What a worker does next that runs a unit.
fn go_on_with(slot: &Slot<Planned>, pass: &mut Pass, way: Way, unit: u32) -> Option<Told>
    requires { pass.old.service.table ≡ slot.now.table.shared.table_id }
    ensures { pass.new.service ≡ pass.old.service }
{
    let closed = closed(unit, way.faulty);
    if pass.blocked() {
        let end_of_fetch = TakeUp {
            closed: Some(closed),
        };
        return decide(slot, pass, way.sleeps, &end_of_fetch);
    }
    let close = Close { closed };
    match parked_in(pass) {
        None => run_then_decide(slot, pass, &close, &TakeNextWork),
        Some(action) => run_then_decide(slot, pass, &close, &TakeParkedWork { action }),
    }
}

// A worker's next hold, or its next two where it queues items: by what its pass shows alone.
fn go_on(slot: &Slot<Planned>, pass: &mut Pass, way: Way) -> Option<Told>
    requires { pass.old.service.table ≡ slot.now.table.shared.table_id }
    ensures { pass.new.service ≡ pass.old.service }
{
    match pass.claimed().last().copied() {
        None => decide(slot, pass, way.sleeps, &TakeNextWork),
        Some(MarkId::Task(task)) => go_in_task(slot, pass, way.parks, task),
        Some(MarkId::Action(action)) => {
            decide(slot, pass, way.sleeps, &TakeParkedWork { action })
        }
        Some(MarkId::Unit(unit)) => go_on_with(slot, pass, way, unit),
    }
}

// Whether this is found in the book.
fn finds(slot: &Slot<Planned>, pass: &mut Pass, found: &Found<'_>) -> bool
    requires { pass.old.service.table ≡ slot.now.table.shared.table_id }
    ensures { pass.new.service ≡ pass.old.service }
{
    let turn = Ask { question: found };
    matches!(
        slot.attempt_turn(pass, false, &turn),
        Some((Came::Done(true), _, _))
    )
}

// Whether a worker comes to the end of all tasks alone.
fn works_to_the_end(slot: &Slot<Planned>, pass: &mut Pass, way: Way) -> bool
    requires { pass.old.service.table ≡ slot.now.table.shared.table_id }
    ensures { pass.new.service ≡ pass.old.service }
{
    for _ in 0..100 {
        match go_on(slot, pass, way) {
            Some((Did::Went, _, _)) => {}
            Some((Did::Ended, _, _)) => return true,
            _ => return false,
        }
    }
    false
}

// Whether a hold wakes nobody, as it goes on.
fn goes_quietly(slot: &Slot<Planned>, pass: &mut Pass) -> bool
    requires { pass.old.service.table ≡ slot.now.table.shared.table_id }
    ensures { pass.new.service ≡ pass.old.service }
{
    matches!(
        go_on(slot, pass, Way::PLAIN),
        Some((Did::Went, wakes, later)) if !wakes.wake_any() && !later.wake_any()
    )
}

// Whether a worker that has started a task enters its fetch and ends it without waking anybody, and wakes this worker, or nobody, where
// it queues items and claims the first: in the hold of the claim, not in the one before.
fn wakes_behind_items(slot: &Slot<Planned>, pass: &mut Pass, woken: Woken) -> bool
    requires { pass.old.service.table ≡ slot.now.table.shared.table_id }
{
    if !goes_quietly(slot, pass) || !goes_quietly(slot, pass) {
        return false;
    }
    matches!(
        go_on(slot, pass, Way::PLAIN),
        Some((Did::Went, wakes, later)) if !wakes.wake_any() && later.workers == woken
    )
}

// Whether a worker finds nothing to do, so often and in these ways.
fn waits(slot: &Slot<Planned>, pass: &mut Pass, ways: &[Way]) -> bool
    requires { pass.old.service.table ≡ slot.now.table.shared.table_id }
{
    for way in ways {
        if !matches!(go_on(slot, pass, *way), Some((Did::Waits, _, _))) {
            return false;
        }
    }
    true
}

// Whether two workers come to the end of all tasks that take turns hold by hold, where none sleeps.
fn take_turns(slot: &Slot<Planned>, first: &mut Pass, second: &mut Pass) -> bool
    requires first { first.old.service.table ≡ slot.now.table.shared.table_id }
    requires second { second.old.service.table ≡ slot.now.table.shared.table_id }
    ensures { first.new.service ≡ first.old.service }
{
    for _ in 0..100 {
        let one = go_on(slot, first, Way::AWAKE);
        let other = go_on(slot, second, Way::AWAKE);
        match (one, other) {
            (Some((Did::Ended, _, _)), Some((Did::Ended, _, _))) => return true,
            (Some((Did::Strayed, _, _)) | None, _) | (_, Some((Did::Strayed, _, _)) | None) => {
                return false;
            }
            _ => {}
        }
    }
    false
}

/// What two workers do on a new book, and what it has to come to.
#[derive(Clone, Copy)]
enum Play {
    /// Nothing: with all passes the book comes back, without entries.
    Nothing,
    /// The first goes on alone so to the end of all tasks, and makes the entries that it owes.
    Alone(Way),
    /// Once the first has begun a task, and before it queues items, the second finds nothing to do in each of these ways. So the first
    /// wakes this worker for an item, or nobody.
    Meets(&'static [Way], Woken),
    /// Both take turns to the end of all tasks, in which six units are closed.
    InTurn,
}

// The entries that a worker owes alone. The only unit that fails is the one of the second task's first action.
fn owed(way: Way) -> &'static [Row] {
    if way.faulty == NONE_FAULTY {
        &ALL_PASS
    } else {
        &ONE_FAILS
    }
}

// Whether a play of two workers comes to what it has to.
fn plays(slot: &Slot<Planned>, first: &mut Pass, second: &mut Pass, play: Play) -> bool
    requires first { first.old.service.table ≡ slot.now.table.shared.table_id }
    requires second { second.old.service.table ≡ slot.now.table.shared.table_id }
{
    match play {
        Play::Nothing => false,
        Play::Alone(way) => {
            works_to_the_end(slot, first, way) && finds(slot, first, &Found::Rows(owed(way)))
        }
        Play::Meets(ways, woken) => {
            goes_quietly(slot, first)
                && waits(slot, second, ways)
                && wakes_behind_items(slot, first, woken)
        }
        Play::InTurn => {
            take_turns(slot, first, second) && finds(slot, first, &Found::AllEnded { closed: 6 })
        }
    }
}

// The same with the passes of a new service: of two workers, which promise to come again.
fn plays_with(slot: &Slot<Planned>, passes: &mut [Pass], play: Play) -> bool
    requires { All (λ p. p.service.table ≡ slot.now.table.shared.table_id) passes.old }
{
    if passes.len() != 2 {
        return false;
    }
    let (first, second) = passes.split_at_mut(1);
    let (first, second) = (&mut first[0], &mut second[0]);
    first.promise_to_come_again_without_work();
    second.promise_to_come_again_without_work();
    plays(slot, first, second, play)
}

// Whether the book of a new service comes back with all passes.
fn comes_back(slot: Slot<Planned>, passes: Vec<Pass>) -> bool
    requires service { All (λ p. p.service.table ≡ slot.table.shared.table_id) passes.items }
    requires all { map (λ p. p.sight.worker.0) passes.items
        ≡ workers_from 0 slot.table.shared.key.kept.value.book.graph.workers }
{
    let book = slot.close(passes);
    let is_as_before = book.len() == 0 && !book.has_queued();
    drop(book);
    is_as_before
}

// Whether a play on a new book comes to what it has to.
fn plays_out(rt: &impl Abort, alloc: Global, play: Play) -> Result<bool, AllocError> {
    openings_are_at_rest();
    let book = book_of(alloc, &LIMITS, &TASKS, &ACTIONS)?.expect(rt, "a graph that fits");
    let (slot, mut passes) = Slot::planned(alloc, book)?;
    if let Play::Nothing = play {
        return Ok(comes_back(slot, passes));
    }
    let plays = plays_with(&slot, &mut passes, play);
    drop(passes);
    drop(slot);
    Ok(plays)
}

/// A planned book comes back with all passes. A plan on one worker gives the history that its rules owe, also where an item fails, and
/// where the worker asks anew what comes behind the items that it queued. Who sleeps is woken for an item; who went away isn't, nor
/// who took its sleep back. Two workers in turn end the plan.
static PLAYS: [Play; 8] = [
    Play::Nothing,
    Play::Alone(Way::PLAIN),
    Play::Alone(Way {
        sleeps: true,
        faulty: 3,
        parks: true,
    }),
    Play::Alone(Way {
        sleeps: true,
        faulty: NONE_FAULTY,
        parks: false,
    }),
    Play::Meets(&[Way::PLAIN], Woken::One(WorkerId(1))),
    Play::Meets(&[Way::AWAKE], Woken::Nobody),
    Play::Meets(&[Way::PLAIN, Way::AWAKE], Woken::Nobody),
    Play::InTurn,
];

#[test]
fn plays_on_planned_books_come_to_what_their_rules_owe(rt: HostRuntime) -> Result<(), AllocError> {
    for play in &PLAYS {
        let comes_so = plays_out(&rt, rt.alloc(), *play)?;
        assert!(rt; comes_so);
    }
    Ok(())
}
