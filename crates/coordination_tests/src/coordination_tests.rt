//! One book under the state lock: what a caller can prove, and workers in threads of their own. Each
//! test ends after a number of turns.
ghost use Rattle.std.specs.Prelude.{◌≡◌, ◌≢◌, ◌<◌, ℕ, [], ◌∷◌, ◌++◌, All, IfOk, List, None, Ok, Some, length, map};
ghost use Rattle.std.specs.Prelude.{slice_index_or, true, false};
ghost use Rattle.resource_lock.specs.Good.{Good};
ghost use Rattle.resource_lock.specs.StateView.{holding_of, owner_of};
ghost use Rattle.resource_lock.specs.declared.ids.WorkerId.{WorkerId};
ghost use Rattle.lock_transforms.specs.Allowed.{IsDisabled, IsFixedList};
ghost use Rattle.lock_transforms.specs.Entry.{Entry, entry, replay};
ghost use Rattle.lock_transforms.specs.declared.entries.Kind.TheVariants as kinds;
ghost use Rattle.coordination.specs.Sights.{workers_from};

use crate::entries::{EntriesFrom, FailAtOnce};
use crate::services::{let_go, open, yield_a_while};
use coordination::{Coordination, Decided, Halt, Opened, Pass, sound_books_have_good_states};
use lock_journal::{Book, own_changes_say_all};
use lock_transforms::kinds::{End, Start};
use lock_transforms::{Disposition, Kind, Tentative, Transform};
use resource_lock::{Graph, LockId, Mark, MarkId, State, WorkerId};
use state_tests::rows::{Limits, TaskRow};
use std::alloc::{AllocError, Global};
use std::process::Abort;
use std::sync::Wait;
use std::thread;
use std::thread::Threads;

/// Starts a task, and is run again where it can't be started yet.
#[derive(Clone, Copy)]
struct Await {
    start: Start,
}

impl Transform for Await {
    ghost kind_of = { λ t. kinds.Start t.start.task };

    ghost most = { λ _ _ _ _. 3 };

    ghost more_locks = { λ _. 1 };

    ghost makes = { λ t. IsFixedList (kinds.Start t.start.task) };

    ghost fails_on = { λ _ _ _ _. ⊥ };

    ghost retries_on = { λ t. IsDisabled (kinds.Start t.start.task) };

    fn kind(&self) -> Kind {
        self.start.kind()
    }

    fn most_changes(&self, graph: &Graph, state: &State, worker: WorkerId) -> u64 {
        self.start.most_changes(graph, state, worker)
    }

    fn more_locks(&self) -> usize {
        1
    }

    fn apply(&self, work: &mut Tentative, own: &[LockId]) -> Disposition {
        match self.start.apply(work, own) {
            Disposition::Finished => Disposition::Finished,
            Disposition::Failed | Disposition::Retry => Disposition::Retry,
        }
    }

    fn waits_for_news(&self) {}
}

/// Starts a task. It fails exactly where another worker has the lock.
#[derive(Clone, Copy)]
struct TryStart {
    lock: LockId,
    wait: Await,
}

impl Transform for TryStart {
    ghost kind_of = { λ t. kinds.Start t.wait.start.task };

    ghost most = { λ _ _ _ _. 3 };

    ghost more_locks = { λ _. 1 };

    ghost makes = { λ t. IsFixedList (kinds.Start t.wait.start.task) };

    ghost fails_on = { λ t g w s. (t.wait.start.task < length g.tasks) × (by : WorkerId) × (by ≢ w) × (owner_of s t.lock ≡ Some by) };

    ghost retries_on = { λ t g w s. IsDisabled (kinds.Start t.wait.start.task) g w s
        × (t.wait.start.task < length g.tasks → (by : WorkerId) → by ≢ w → owner_of s t.lock ≢ Some by) };

    fn kind(&self) -> Kind {
        self.wait.kind()
    }

    fn most_changes(&self, graph: &Graph, state: &State, worker: WorkerId) -> u64 {
        self.wait.most_changes(graph, state, worker)
    }

    fn more_locks(&self) -> usize {
        1
    }

    fn apply(&self, work: &mut Tentative, own: &[LockId]) -> Disposition {
        let in_range = (self.wait.start.task as usize) < work.graph().tasks().len();
        if in_range && self.lock.0 < work.graph().locks() {
            if let Some(owner) = work.state().owner(self.lock) {
                if owner != work.worker() {
                    return Disposition::Failed;
                }
            }
        }
        self.wait.apply(work, own)
    }

    fn waits_for_news(&self) {}
}

// Tries to start a task. False says that another worker had the lock.
fn try_start<R: Wait>(
    rt: &R,
    service: &Coordination,
    pass: &mut Pass,
    attempt: &TryStart,
) -> Result<bool, Halt>
    requires { pass.old.service ≡ service.now.service }
    ensures service { pass.new.service ≡ pass.old.service }
    ensures worker { pass.new.sight.worker ≡ pass.old.sight.worker }
    ensures good { result ≡ Ok true → Good pass.new.sight.seen.state }
    ensures lease { result ≡ Ok true → (holding_of pass.new.sight.seen.state pass.new.sight.worker).lease ≡ true }
    // The history without the failed entry leads to a state in which the lock is another's.
    ensures refused { result ≡ Ok false → (h : List Entry)
        × (pass.new.sight.seen.history ≡ h ++ entry pass.new.sight.worker (kinds.Start attempt.now.wait.start.task) None ∷ [])
        × (by : WorkerId) × (by ≢ pass.new.sight.worker) × (owner_of (replay pass.new.sight.seen.graph h) attempt.now.lock ≡ Some by) }
{
    sound_books_have_good_states();
    own_changes_say_all();
    service.with_state_lock(rt, pass, attempt)
}

// Whether a worker takes the free lock 0 by a try.
fn takes_by_a_try<R: Wait>(rt: &R, service: &Coordination, pass: &mut Pass) -> bool
    requires { pass.old.service ≡ service.now.service }
{
    let first = TryStart {
        lock: LockId(0),
        wait: Await {
            start: Start { task: 0 },
        },
    };
    matches!(try_start(rt, service, pass, &first), Ok(true)) && pass.last() == 1
}

#[test]
fn a_free_lock_is_taken_by_a_try(rt: HostRuntime) -> Result<(), AllocError> {
    let limits = Limits {
        locks: 1,
        all: None,
        workers: 2,
        max_leases: 2,
    };
    let tasks = [task(0, None), task(0, None)];
    let mut opened = open(rt.alloc(), &limits, &tasks, &[])?.expect(&rt, "a graph that fits");
    let Opened { service, passes } = &mut *opened;
    let takes = takes_by_a_try(&rt, service, &mut passes[0]);
    let_go(opened);
    assert!(rt; takes);
    Ok(())
}

// A task without actions.
fn task(lock: u32, after: Option<u32>) -> TaskRow {
    TaskRow {
        lock,
        after,
        first_action: 0,
        actions: 0,
    }
}

/// What the workers do in turns.
#[derive(Clone, Copy)]
enum Play {
    /// Two workers run the tasks of a chain by turns.
    RunInTurn,
    /// Each of 32 workers runs 40 tasks of its own.
    RunOwn,
    /// Two workers make failed entries by turns. Each asks for the other's before it makes its own.
    FailInTurn,
    /// Each of 8 workers counts the entries and makes a failed one, in one hold.
    CountAndFail,
    /// Worker 0 stops the service, and the others wait for what never comes.
    StopOthers,
}

// Takes a turn, and tells whether it went as it has to.
fn take_turn<R: Wait>(
    rt: &R,
    service: &Coordination,
    pass: &mut Pass,
    play: Play,
    turn: u32,
) -> bool
    requires { pass.old.service ≡ service.now.service }
    ensures service { pass.new.service ≡ pass.old.service }
    ensures worker { pass.new.sight.worker ≡ pass.old.sight.worker }
{
    let worker = pass.worker().0;
    let is_next = turn % 2 == worker;
    match play {
        Play::RunInTurn => !is_next || runs_task(rt, service, pass, turn),
        Play::RunOwn => worker < 32
            && turn < 40
            && runs_task(rt, service, pass, worker * 40 + turn),
        Play::FailInTurn => !is_next || fails(rt, service, pass, u64::from(turn)),
        Play::CountAndFail => counts_and_fails(rt, service, pass),
        Play::StopOthers => stops_or_is_stopped(rt, service, pass),
    }
}

// Whether the worker runs the task of a number, and has a lease meanwhile.
fn runs_task<R: Wait>(rt: &R, service: &Coordination, pass: &mut Pass, task: u32) -> bool
    requires { pass.old.service ≡ service.now.service }
    ensures service { pass.new.service ≡ pass.old.service }
    ensures worker { pass.new.sight.worker ≡ pass.old.sight.worker }
{
    let start = Await {
        start: Start { task },
    };
    let started = matches!(service.with_state_lock(rt, pass, &start), Ok(true)) && pass.has_lease();
    let ended = matches!(service.with_state_lock(rt, pass, &End { task }), Ok(true));
    started && ended && !pass.has_lease()
}

// Whether the worker finds so many entries, and makes a failed one.
fn fails<R: Wait>(rt: &R, service: &Coordination, pass: &mut Pass, entries: u64) -> bool
    requires { pass.old.service ≡ service.now.service }
    ensures service { pass.new.service ≡ pass.old.service }
    ensures worker { pass.new.sight.worker ≡ pass.old.sight.worker }
{
    let question = EntriesFrom { least: entries };
    let found = matches!(service.ask(rt, pass, &question), Ok(found) if found == entries);
    let failed = matches!(service.with_state_lock(rt, pass, &FailAtOnce), Ok(false));
    found && failed && pass.last().checked_sub(1) == Some(entries)
}

// Whether the worker's failed entry comes right behind those that it counted.
fn counts_and_fails<R: Wait>(rt: &R, service: &Coordination, pass: &mut Pass) -> bool
    requires { pass.old.service ≡ service.now.service }
    ensures service { pass.new.service ≡ pass.old.service }
    ensures worker { pass.new.sight.worker ≡ pass.old.sight.worker }
{
    let decided = service.decide(rt, pass, &EntriesFrom { least: 0 });
    matches!(decided, Ok(Decided::Entered(entries, false)) if pass.last().checked_sub(1) == Some(entries))
}

// Has worker 0 stop the service after a while. Else tells whether the wait is ended by that.
fn stops_or_is_stopped<R: Wait>(rt: &R, service: &Coordination, pass: &mut Pass) -> bool
    requires { pass.old.service ≡ service.now.service }
    ensures service { pass.new.service ≡ pass.old.service }
    ensures worker { pass.new.sight.worker ≡ pass.old.sight.worker }
{
    let worker = pass.worker().0;
    if worker == 0 {
        yield_a_while();
        service.stop_all(rt, pass);
        return true;
    }
    let halt = if worker % 2 == 0 {
        let start = Await {
            start: Start { task: 1 },
        };
        service.with_state_lock(rt, pass, &start).err()
    } else {
        service.ask(rt, pass, &EntriesFrom { least: 1 }).err()
    };
    matches!(halt, Some(Halt::Stopped(WorkerId(0)))) && pass.stopped_by() == Some(WorkerId(0))
}

// Takes so many turns with the pass.
fn take_turns<R: Wait + Abort>(
    rt: &R,
    service: &Coordination,
    pass: &mut Pass,
    play: Play,
    turns: u32,
)
    requires { pass.old.service ≡ service.now.service }
    ensures service { pass.new.service ≡ pass.old.service }
    ensures worker { pass.new.sight.worker ≡ pass.old.sight.worker }
{
    for turn in 0..turns {
        assert!(rt; take_turn(rt, service, pass, play, turn));
    }
}

// Takes so many turns with each pass, in a thread of its own.
fn take_turns_in_threads<R: Threads + Wait + Abort + Sync>(
    rt: &R,
    service: &Coordination,
    passes: &mut [Pass],
    play: Play,
    turns: u32,
)
    requires { All (λ p. p.service ≡ service.now.service) passes.old }
    ensures service { All (λ p. p.service ≡ service.now.service) passes.new }
    ensures len { length passes.new ≡ length passes.old }
    ensures workers { (i : ℕ) (p : Pass) → i < length passes.old → (slice_index_or passes.new i p).sight.worker ≡ (slice_index_or passes.old i p).sight.worker }
{
    let threads = passes.len().max(1);
    thread::for_each_mut(
        rt,
        passes,
        threads,
        &|_, pass| { take_turns(rt, service, pass, play, turns) },
    );
}

/// A play on a service with 8 leases, and what it comes to.
#[derive(Clone, Copy)]
struct Scene {
    play: Play,
    workers: u32,
    tasks: u32,
    /// Each task comes after the one before.
    chained: bool,
    /// The turns of each worker.
    turns: u32,
    /// How many entries there are at last.
    entries: u64,
}

// The tasks of a scene, which share 4 locks in turn.
fn rows_of(alloc: Global, scene: &Scene) -> Result<Vec<TaskRow>, AllocError> {
    let mut rows = Vec::new(alloc);
    for number in 0..scene.tasks {
        let after = if scene.chained {
            number.checked_sub(1)
        } else {
            None
        };
        rows.push(task(number % 4, after))?;
    }
    Ok(rows)
}

fn open_scene(rt: &impl Abort, alloc: Global, scene: &Scene) -> Result<Box<Opened>, AllocError>
    ensures workers { IfOk result (λ opened. map (λ p. p.sight.worker.0) opened.value.passes.items ≡ workers_from 0 opened.value.service.book.graph.workers) }
    ensures service { IfOk result (λ opened. All (λ p. p.service ≡ opened.value.service.service) opened.value.passes.items) }
{
    let rows = rows_of(alloc, scene)?;
    let limits = Limits {
        locks: 4,
        all: None,
        workers: scene.workers,
        max_leases: 8,
    };
    Ok(open(alloc, &limits, &rows, &[])?.expect(rt, "a graph that fits"))
}

// Plays a scene in threads, and gives the book.
fn play_out<R: Threads + Wait + Abort + Sync>(rt: &R, opened: Opened, scene: &Scene) -> Box<Book>
    requires workers { map (λ p. p.sight.worker.0) opened.passes.items ≡ workers_from 0 opened.service.book.graph.workers }
    requires service { All (λ p. p.service ≡ opened.service.service) opened.passes.items }
{
    let Opened {
        service,
        mut passes,
    } = opened;
    let workers = passes.as_mut_slice();
    take_turns_in_threads(rt, &service, workers, scene.play, scene.turns);
    service.finish(passes)
}

// Whether all tasks of the book have passed, and nobody has anything.
fn is_at_rest(book: &Book) -> bool {
    let state = book.state();
    for task in 0..book.graph().tasks().len() as u32 {
        if state.mark(MarkId::Task(task)) != Mark::Passed {
            return false;
        }
    }
    for lock in 0..book.graph().locks() {
        if state.owner(LockId(lock)).is_some() {
            return false;
        }
    }
    state.leases_out() == 0
}

// Whether a scene comes to its entries, and to a book at rest where there are any.
fn comes_to_its_end<R: Threads + Wait + Abort + Sync>(
    rt: &R,
    alloc: Global,
    scene: &Scene,
) -> Result<bool, AllocError> {
    let opened = open_scene(rt, alloc, scene)?;
    let book = play_out(rt, Box::into_inner(opened), scene);
    let has_come = book.len() == scene.entries && (scene.entries == 0 || is_at_rest(&book));
    drop(book);
    Ok(has_come)
}

/// Two threads that retry take turns; many threads share few locks; a question waits for the failed entry of another thread;
/// nobody comes between a decision and its entry; a stop ends all waits.
static SCENES: [Scene; 5] = [
    Scene {
        play: Play::RunInTurn,
        workers: 2,
        tasks: 2000,
        chained: true,
        turns: 2000,
        entries: 4000,
    },
    Scene {
        play: Play::RunOwn,
        workers: 32,
        tasks: 1280,
        chained: false,
        turns: 40,
        entries: 2560,
    },
    Scene {
        play: Play::FailInTurn,
        workers: 2,
        tasks: 0,
        chained: false,
        turns: 2000,
        entries: 2000,
    },
    Scene {
        play: Play::CountAndFail,
        workers: 8,
        tasks: 0,
        chained: false,
        turns: 500,
        entries: 4000,
    },
    Scene {
        play: Play::StopOthers,
        workers: 8,
        tasks: 2,
        chained: true,
        turns: 1,
        entries: 0,
    },
];

#[test]
fn workers_come_to_their_ends_in_turns_on_few_locks_and_by_a_stop(
    rt: HostRuntime,
) -> Result<(), AllocError> {
    for scene in &SCENES {
        assert!(rt;
            comes_to_its_end(&rt, rt.alloc(), scene)?,
            "{} entries",
            scene.entries
        );
    }
    Ok(())
}
