//! Lines that no run prints: of a fetch without memory, of blocks without a unit, and of failed entries.
ghost use Rattle.std.specs.Prelude.{◌≡◌, IfOk, true};
ghost use Rattle.plan_reader.specs.Graph.{graph_of};

use file_access::Page;
use history_text::{write_history, write_results};
use item_actions::Outcome;
use lock_journal::{Book, every_run_comes_to_its_plan};
use lock_transforms::kinds::{
    Acquire, Block, Claim, Close, End, HandBack, Park, Resume, Shortage, Start, Submit, Unblock,
};
use lock_transforms::{Closed, Disposition, Transform};
use memory_files::MemorySink;
use plan_reader::{Plan, read_plan};
use resource_lock::{LockId, WorkerId};
use std::alloc::{AllocError, Global};
use std::test::Fail;
use worker_choices::all_ended;

/// A task with a fetch and an item.
pub(crate) static PLAN: &[u8] = b"[[project]]\nname = \"p\"\n\n\
    [[task]]\nname = \"t\"\nproject = \"p\"\n\n\
    [[task.action]]\nwait = \"retain\"\nfetch = \"a.txt\"\n\n\
    [[task.action.item]]\ndo = \"lines\"\nfile = \"b.txt\"\n";

/// A sink of so much room.
pub(crate) fn sink(alloc: Global, room: u64) -> Result<Box<MemorySink>, AllocError> {
    Ok(Box::new(alloc, MemorySink::new(alloc, room, Vec::new(alloc))?)?)
}

// A book of the plan's graph, for 32 workers and 4 leases.
pub(crate) fn open(alloc: Global, plan: &Plan) -> Result<Box<Book>, AllocError>
    ensures { IfOk result (λ book. book.value.graph ≡ graph_of plan.now 32 4 true) }
{
    let graph = plan.graph(alloc, 32, 4, true)?;
    Ok(Box::new(alloc, Book::opening(alloc, graph, 0, 0)?)?)
}

// Whether the worker's transform finishes.
fn finishes<T: Transform>(book: &mut Book, worker: u32, transform: &T) -> bool
    ensures { book.new.graph ≡ book.old.graph }
{
    worker < book.graph().workers()
        && matches!(
            book.run(WorkerId(worker), &[], transform),
            Ok(Disposition::Finished)
        )
}

// Has worker 1 take the lock twice, worker 31 fail to, and worker 1 step aside without a unit.
pub(crate) fn steps_aside(book: &mut Book) -> bool
    ensures { book.new.graph ≡ book.old.graph }
{
    let acquire = Acquire {
        locks: &[LockId(0)],
        shortage: Shortage::Fails,
    };
    let taken = finishes(book, 1, &acquire) && finishes(book, 1, &acquire);
    let failed = !finishes(book, 31, &acquire);
    let blocked = finishes(book, 1, &Block { unit: None });
    let unblocked = finishes(book, 1, &Unblock { closed: None });
    taken && failed && blocked && unblocked && finishes(book, 1, &HandBack)
}

// Has worker 1 run the task's fetch, for which there is no memory.
pub(crate) fn fetches(book: &mut Book) -> bool
    ensures { book.new.graph ≡ book.old.graph }
{
    let closed = Closed {
        unit: 0,
        outcome: Outcome::NoMemory,
    };
    let unblock = Unblock {
        closed: Some(closed),
    };
    finishes(book, 1, &Start { task: 0 })
        && finishes(book, 1, &Block { unit: Some(0) })
        && finishes(book, 1, &unblock)
}

// Has worker 1 run the task's item, whose file is too long, and end the task.
pub(crate) fn ends(book: &mut Book) -> bool
    ensures { book.new.graph ≡ book.old.graph }
{
    let closed = Closed {
        unit: 1,
        outcome: Outcome::TooLong,
    };
    finishes(book, 1, &Submit { action: 0 })
        && finishes(book, 1, &Park { action: 0 })
        && finishes(book, 1, &Claim { unit: 1 })
        && finishes(book, 1, &Close { closed })
        && finishes(book, 1, &Resume { action: 0 })
        && finishes(book, 1, &End { task: 0 })
}

// Writes results and history of a run that has ended.
fn write(plan: &Plan, book: &Book, sink: &mut MemorySink) -> bool
    requires { book.now.graph ≡ graph_of plan.now 32 4 true }
{
    every_run_comes_to_its_plan();
    let _state = book.state();
    if book.given() > 0 || !all_ended(book) || book.graph().tasks().len() != plan.tasks().len() {
        return false;
    }
    let mut page = Page::new();
    write_results(plan, book, false, &mut page, sink);
    write_history(book, true, &mut page, sink);
    page.end(sink).is_ok()
}

static TEXT: &[u8] = b"task t failed\n\
    \x20 fetch a.txt no memory\n\
    \x20 lines b.txt too long\n\
    tasks: 0 passed, 1 failed, 0 skipped\n\
    units: 0 passed, 2 failed, 0 skipped\n\
    total: 0\n\
    history 2\n\
    workers 32 max 4 parallel yes locks 2\n\
    1 w1 acquire | lock 0, take\n\
    2 w1 acquire | nothing\n\
    3 w31 acquire | failed\n\
    4 w1 block - | give, unlock 0, park 0, enter\n\
    5 w1 unblock - | leave, unpark 0, lock 0, take\n\
    6 w1 handback | unlock 0, give\n\
    7 w1 start 0 | lock 0, take, task 0 waiting running\n\
    8 w1 block 0 | unit 0 waiting running, give, unlock 0, park 0, enter\n\
    9 w1 unblock 0 no-memory | leave, unpark 0, lock 0, take, unit 0 running failed\n\
    10 w1 submit 0 | action 0 waiting queued, unit 1 waiting queued\n\
    11 w1 park 0 | give, action 0 queued running\n\
    12 w1 claim 1 | take, unit 1 queued running\n\
    13 w1 close 1 too-long | unit 1 running failed, give\n\
    14 w1 resume 0 | take, action 0 running passed\n\
    15 w1 end 0 | task 0 running failed, unlock 0, give\n\
    end 15\n";

// Whether a run of the plan that ends is printed as this text.
fn is_printed(alloc: Global, plan: &Plan, text: &[u8]) -> Result<bool, AllocError> {
    let mut book = open(alloc, plan)?;
    let is_printed = runs_and_prints(alloc, plan, &mut book, text);
    drop(book);
    is_printed
}

// Whether the book comes to the end of the run, and is printed as this text then.
fn runs_and_prints(
    alloc: Global,
    plan: &Plan,
    book: &mut Book,
    text: &[u8],
) -> Result<bool, AllocError>
    requires { book.old.graph ≡ graph_of plan.now 32 4 true }
{
    if !steps_aside(book) || !fetches(book) || !ends(book) {
        return Ok(false);
    }
    prints(alloc, plan, book, text)
}

// Whether the book is printed as this text.
fn prints(alloc: Global, plan: &Plan, book: &Book, text: &[u8]) -> Result<bool, AllocError>
    requires { book.now.graph ≡ graph_of plan.now 32 4 true }
{
    let mut sink = sink(alloc, 2000)?;
    Ok(write(plan, book, &mut sink) && sink.taken() == text)
}

#[test]
fn fetches_blocks_and_failed_entries(rt: HostRuntime) -> Result<(), Fail> {
    let plan = read_plan(rt.alloc(), PLAN)?;
    let is_printed = is_printed(rt.alloc(), &plan, TEXT);
    drop(plan);
    assert!(rt; is_printed?);
    Ok(())
}
