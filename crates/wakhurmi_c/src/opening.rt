//! A service that C opens.
ghost use Rattle.std.specs.Prelude.{◌≡◌, ◌≢◌, ◌≤◌, [], All, IfErr, IfNone, IfOk, IfSome, true, false, length, map, vec_capacity};
ghost use Rattle.std.specs.Arc.{arc_value};
ghost use Rattle.std.specs.List.{list_any};
ghost use Rattle.resource_lock.specs.AtRest.{IsAtRest};
ghost use Rattle.resource_lock.specs.Fits.{Fits};
ghost use Rattle.resource_lock.specs.Made.{made_of};
ghost use Rattle.wakhurmi_c.specs.Numbers.{answer_of};
ghost use Rattle.wakhurmi_c.specs.Opened.{IsOpened, WhyUnopened, last_if};
ghost use Rattle.wakhurmi_c.specs.declared.answers.Answer.TheVariants as answers;

use crate::answers::Answer;
use crate::handles::Handle;
use crate::workers::Worker;
use coordination::{Pass, Sleepers, Slot, openings_are_at_rest};
use lock_journal::Book;
use resource_lock::{Graph, GraphTasks, LockId, MAX_WORKERS};
use std::alloc::{AllocError, Global};
use std::sync::Arc;

/// What a service is opened with.
#[derive(Clone, Copy)]
struct Numbers {
    workers: u32,
    max_leases: u32,
    locks: u32,
    // The all-projects lock, where one of them is that.
    all: Option<LockId>,
}

/// The graph of a service for workers without tasks. None exactly where none of these numbers fits.
fn graph_of(alloc: Global, numbers: Numbers) -> Option<Graph>
    ensures graph { IfSome result (λ graph. graph ≡ made_of numbers.locks numbers.all numbers.workers numbers.max_leases [] []) }
    ensures fits { IfSome result (λ _. Fits (made_of numbers.locks numbers.all numbers.workers numbers.max_leases [] [])) }
    ensures none { IfNone result (Fits (made_of numbers.locks numbers.all numbers.workers numbers.max_leases [] []) → ⊥) }
{
    let tasks = GraphTasks::none(alloc);
    let fits = Graph::fits(
        numbers.locks,
        numbers.all,
        numbers.workers,
        numbers.max_leases,
        &tasks,
        &[],
    );
    if !fits {
        return None;
    }
    Some(Graph::new(
        numbers.locks,
        numbers.all,
        numbers.workers,
        numbers.max_leases,
        tasks,
        Vec::new(alloc),
    ))
}

/// A book of the graph without an entry.
fn book_of(alloc: Global, graph: Graph) -> Result<Box<Book>, AllocError>
    ensures rest { IfOk result (λ book. IsAtRest book.value.state) }
    ensures whole { IfOk result (λ book. book.value.given ≡ 0) }
    ensures graph { IfOk result (λ book. book.value.graph ≡ graph) }
    ensures history { IfOk result (λ book. book.value.history ≡ []) }
{
    openings_are_at_rest();
    Ok(Box::new(alloc, Book::opening(alloc, graph, 0, 0)?)?)
}

/// A worker of a service.
fn worker_of(
    alloc: Global,
    service: &Arc<Slot, Global>,
    pass: Pass,
    numbers: Numbers,
) -> Result<Box<Worker, Global>, AllocError>
    requires service { pass.service.table ≡ (arc_value service.now).table.shared.table_id }
    requires graph { (arc_value service.now).table.shared.key.kept.value.book.graph
        ≡ made_of numbers.locks numbers.all numbers.workers numbers.max_leases [] [] }
    requires seen { pass.sight.seen ≡ (arc_value service.now).table.shared.key.kept.value.book }
    ensures { IfOk result (λ worker. worker.value.pass ≡ pass) }
{
    let service = Arc::try_clone(service)?;
    let sleepers = Sleepers::nobody(alloc, 0)?;
    let worker = Worker {
        service,
        pass,
        workers: numbers.workers,
        locks: numbers.locks,
        all: numbers.all,
        max_leases: numbers.max_leases,
        asked: Vec::new(alloc),
        sleepers,
    };
    Ok(Box::new(alloc, worker)?)
}

/// The workers of a service, with these passes in order.
fn workers_of(
    alloc: Global,
    service: &Arc<Slot, Global>,
    passes: Vec<Pass>,
    numbers: Numbers,
) -> Result<Vec<Box<Worker, Global>>, AllocError>
    requires service { All (λ p. p.service.table ≡ (arc_value service.now).table.shared.table_id) passes.items }
    requires graph { (arc_value service.now).table.shared.key.kept.value.book.graph
        ≡ made_of numbers.locks numbers.all numbers.workers numbers.max_leases [] [] }
    requires seen { All (λ p. p.sight.seen ≡ (arc_value service.now).table.shared.key.kept.value.book) passes.items }
    ensures { IfOk result (λ all. map (λ w. w.value.pass) all.items ≡ passes.items) }
{
    let mut all = Vec::with_capacity(alloc, passes.len())?;
    for pass in passes {
        all.push(worker_of(alloc, service, pass, numbers)?)?;
    }
    Ok(all)
}

/// The workers of a new service of this graph.
fn workers_over(
    alloc: Global,
    graph: Graph,
    numbers: Numbers,
) -> Result<Vec<Box<Worker, Global>>, AllocError>
    requires graph { graph ≡ made_of numbers.locks numbers.all numbers.workers numbers.max_leases [] [] }
    requires fits { Fits (made_of numbers.locks numbers.all numbers.workers numbers.max_leases [] []) }
    ensures { IfOk result (λ all. IsOpened numbers.workers numbers.max_leases numbers.locks numbers.all (map (λ w. w.value.pass) all.items)) }
{
    let book = book_of(alloc, graph)?;
    let (slot, passes) = Slot::opening(alloc, book)?;
    let service = Arc::new(alloc, slot)?;
    workers_of(alloc, &service, passes, numbers)
}

/// The workers of a new service.
fn open_workers(alloc: Global, numbers: Numbers) -> Result<Vec<Box<Worker, Global>>, Answer>
    ensures opened { IfOk result (λ all. IsOpened numbers.workers numbers.max_leases numbers.locks numbers.all (map (λ w. w.value.pass) all.items)) }
    ensures err { IfErr result (WhyUnopened numbers.workers numbers.max_leases numbers.locks numbers.all) }
{
    let Some(graph) = graph_of(alloc, numbers) else {
        return Err(Answer::BadNumber);
    };
    match workers_over(alloc, graph, numbers) {
        Ok(all) => Ok(all),
        Err(AllocError) => Err(Answer::NoMemory),
    }
}

/// Fills the handles with these workers, in order. There is room for as many beside them.
fn fill(handles: &mut [Handle], workers: Vec<Box<Worker, Global>>, mut filled: Vec<Handle>)
    requires len { length workers.items ≡ length handles.old }
    requires empty { filled.items ≡ [] }
    requires room { length workers.items ≤ vec_capacity filled }
    ensures full { All (λ h. h.full ≡ true) handles.new }
    ensures workers { map (λ h. h.held.worker.pass) handles.new ≡ map (λ w. w.value.pass) workers.items }
{
    for worker in workers {
        filled.push_reserved(Handle::of(worker));
    }
    handles.swap_with_slice(&mut filled);
}

/// Whether one of the handles is full.
fn some_full(handles: &[Handle]) -> bool
    ensures { result ≡ list_any (λ h. h.full) handles.now }
{
    handles.iter().any(|handle| handle.full)
}

/// Opens a service for as many workers as there are handles. The handles are empty before.
fn open(
    alloc: Global,
    max_leases: u32,
    locks: u32,
    all: Option<LockId>,
    handles: &mut [Handle],
) -> Answer
    ensures full { result ≡ answers.Done → All (λ h. h.full ≡ true) handles.new }
    ensures opened { result ≡ answers.Done
        → IsOpened (length handles.old) max_leases locks all (map (λ h. h.held.worker.pass) handles.new) }
    ensures full_handle { result ≡ answers.Full → list_any (λ h. h.full) handles.old ≡ true }
    ensures no_full_handle { result ≢ answers.Full → list_any (λ h. h.full) handles.old ≡ false }
    ensures why { result ≢ answers.Done → result ≢ answers.Full → WhyUnopened (length handles.old) max_leases locks all result }
    ensures kept { result ≢ answers.Done → handles.new ≡ handles.old }
{
    if some_full(handles) {
        return Answer::Full;
    }
    if handles.len() > MAX_WORKERS as usize {
        return Answer::BadNumber;
    }
    let Ok(room) = Vec::with_capacity(alloc, handles.len()) else {
        return Answer::NoMemory;
    };
    let numbers = Numbers {
        workers: handles.len() as u32,
        max_leases,
        locks,
        all,
    };
    match open_workers(alloc, numbers) {
        Ok(workers) => {
            fill(handles, workers, room);
            Answer::Done
        }
        Err(answer) => answer,
    }
}

/// The last of so many locks, if so.
fn last_if(all_projects: bool, locks: u32) -> Option<LockId>
    ensures { result ≡ last_if all_projects locks }
{
    if all_projects {
        Some(LockId(locks.saturating_sub(1)))
    } else {
        None
    }
}

/// Opens a service for as many workers as there are handles, of whom `max_leases` may have a lease at once, with so many project
/// locks. Where `all_projects` says so the last of these is the all-projects lock: while a worker owns it, no other worker owns a lock.
/// `BadNumber` comes also where there is none that could be it. The handles are empty before.
#[unsafe(no_mangle)]
pub extern "C" fn wakhurmi_c_open(
    alloc: Global,
    max_leases: u32,
    locks: u32,
    all_projects: bool,
    handles: &mut [Handle],
) -> u32
    ensures full { answer_of result ≡ answers.Done → All (λ h. h.full ≡ true) handles.new }
    ensures opened { answer_of result ≡ answers.Done
        → IsOpened (length handles.old) max_leases locks (last_if all_projects locks) (map (λ h. h.held.worker.pass) handles.new) }
    ensures full_handle { answer_of result ≡ answers.Full → list_any (λ h. h.full) handles.old ≡ true }
    ensures no_full_handle { answer_of result ≢ answers.Full → list_any (λ h. h.full) handles.old ≡ false }
    ensures why { answer_of result ≢ answers.Done → answer_of result ≢ answers.Full
        → WhyUnopened (length handles.old) max_leases locks (last_if all_projects locks) (answer_of result) }
    ensures kept { answer_of result ≢ answers.Done → handles.new ≡ handles.old }
{
    let all = last_if(all_projects, locks);
    open(alloc, max_leases, locks, all, handles).number()
}
