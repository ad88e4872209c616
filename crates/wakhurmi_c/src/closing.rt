//! The end of a service.
ghost use Rattle.std.specs.Prelude.{◌≡◌, ◌≢◌, ◌<◌, ◌≤◌, ℕ, [], All, IfNone, IfSome, false, length, map, not, true, vec_capacity};
ghost use Rattle.std.specs.Arc.{arc_value};
ghost use Rattle.std.specs.List.{list_any};
ghost use Rattle.atomic_table.specs.Seated.{TableId};
ghost use Rattle.resource_lock.specs.GraphView.{GraphView};
ghost use Rattle.coordination.specs.Closings.{IsClosedBy};
ghost use Rattle.coordination.specs.Sights.{workers_from};
ghost use Rattle.wakhurmi_c.specs.Closed.{AreWhole, WhyUnfinished};
ghost use Rattle.wakhurmi_c.specs.Numbers.{answer_of};
ghost use Rattle.wakhurmi_c.specs.declared.answers.Answer.TheVariants as answers;

use crate::answers::Answer;
use crate::book_handles::BookHandle;
use crate::handles::Handle;
use crate::workers::Worker;
use coordination::{BoxedBook, Pass, Slot};
use lock_journal::Book;
use resource_lock::{Graph, GraphTasks};
use std::alloc::{AllocError, Global};
use std::sync::Arc;

/// The passes of workers, which are taken out of their handles, and the service that they share.
#[derive(Drop)]
struct Gathered {
    passes: Vec<Pass>,
    service: Option<Arc<Slot, Global>>,
}

/// Whether full handles are those of all workers of a service, in order. They stay full, with the same workers: each is taken out, tested
/// and put back, so that the service can still be ended.
fn are_whole(alloc: Global, handles: &mut [Handle]) -> bool
    requires { All (λ h. h.full ≡ true) handles.old }
    ensures full { All (λ h. h.full ≡ true) handles.new }
    ensures workers { map (λ h. h.held.worker) handles.new ≡ map (λ h. h.held.worker) handles.old }
    ensures are { result ≡ true → AreWhole handles.old }
    ensures are_not { result ≡ false → AreWhole handles.old → ⊥ }
{
    let count = handles.len();
    let mut whole = count > 0;
    let mut number = 0;
    for handle in handles.iter_mut() {
        let worker = handle.take(alloc);
        if worker.pass.worker().0 as usize != number || worker.workers as usize != count {
            whole = false;
        }
        *handle = Handle::of(worker);
        number += 1;
    }
    whole
}

/// Takes the workers out of full handles. There is room for their passes.
fn gather(alloc: Global, handles: &mut [Handle], mut passes: Vec<Pass>) -> Gathered
    requires full { All (λ h. h.full ≡ true) handles.old }
    requires service { (id : TableId) × All (λ h. h.held.worker.pass.service.table ≡ id) handles.old }
    requires empty { passes.items ≡ [] }
    requires room { length handles.old ≤ vec_capacity passes }
    ensures emptied { All (λ h. h.full ≡ false) handles.new }
    ensures passes { result.passes.items ≡ map (λ h. h.held.worker.pass) handles.old }
    ensures service { IfSome result.service (λ s. All (λ p. p.service.table ≡ (arc_value s).table.shared.table_id) result.passes.items) }
    ensures workers { IfSome result.service (λ s. (n : ℕ) → All (λ h. h.held.worker.workers ≡ n) handles.old
        → (arc_value s).table.shared.key.kept.value.book.graph.workers ≡ n) }
    ensures none { IfNone result.service (length handles.old ≡ 0) }
{
    let mut shared = None;
    for handle in handles.iter_mut() {
        let Worker {
            service,
            pass,
            workers: _,
            locks: _,
            all: _,
            max_leases: _,
            asked: _,
            sleepers: _,
        } = Box::into_inner(handle.take(alloc));
        passes.push_reserved(pass);
        shared = Some(service);
    }
    Gathered {
        passes,
        service: shared,
    }
}

/// A book of the least size, for the slot whose own book is taken out. It fails for want of memory alone.
fn spare_book(alloc: Global) -> Result<Box<Book>, AllocError> {
    let graph = Graph::new(0, None, 1, 1, GraphTasks::none(alloc), Vec::new(alloc));
    let book = Book::opening(alloc, graph, 0, 0)?;
    Ok(Box::new(alloc, book)?)
}

/// Takes the book out of a service, by the passes of all its workers. The spare one lies there instead.
fn close_by(gathered: Gathered, spare: Box<Book>) -> Box<Book>
    requires some { 0 < length gathered.passes.items }
    requires none { IfNone gathered.service (length gathered.passes.items ≡ 0) }
    requires service { IfSome gathered.service (λ s. All (λ p. p.service.table ≡ (arc_value s).table.shared.table_id) gathered.passes.items) }
    requires all { IfSome gathered.service (λ s. map (λ p. p.sight.worker.0) gathered.passes.items
        ≡ workers_from 0 (arc_value s).table.shared.key.kept.value.book.graph.workers) }
    ensures { IsClosedBy gathered.passes.items result.value.graph result.value }
{
    let Gathered { passes, service } = gathered;
    let Some(service) = service else {
        unreachable!()
    };
    service.take_away(passes, BoxedBook { inner: spare })
}

/// Whether one of the handles is empty.
fn some_empty(handles: &[Handle]) -> bool
    ensures { result ≡ list_any (λ h. not h.full) handles.now }
{
    handles.iter().any(|handle| !handle.full)
}

/// Ends a service whose workers' handles these are, all of them and in order: the book is taken out of it for good. Where they
/// aren't that, it answers `BadNumber`, and they stay full, with the same workers. `Full` and `Empty` speak of the book's handle
/// and of these. It takes memory for a small book, and answers `NoMemory` where there is none.
#[unsafe(no_mangle)]
pub extern "C" fn wakhurmi_c_finish(
    alloc: Global,
    handles: &mut [Handle],
    book: &mut BookHandle,
) -> u32
    requires service { (id : TableId) × All (λ h. h.held.worker.pass.service.table ≡ id) handles.old }
    ensures done { answer_of result ≡ answers.Done → book.new.full ≡ true }
    ensures whole { answer_of result ≡ answers.Done → AreWhole handles.old }
    ensures closed { answer_of result ≡ answers.Done
        → (g : GraphView) × IsClosedBy (map (λ h. h.held.worker.pass) handles.old) g book.new.held.book }
    ensures emptied { answer_of result ≡ answers.Done → All (λ h. h.full ≡ false) handles.new }
    ensures why { answer_of result ≢ answers.Done → WhyUnfinished handles.old book.old.full (answer_of result) }
    ensures full_book { answer_of result ≢ answers.Full → book.old.full ≡ false }
    ensures full_handles { answer_of result ≢ answers.Full → answer_of result ≢ answers.Empty → list_any (λ h. not h.full) handles.old ≡ false }
    ensures kept { answer_of result ≢ answers.Done → answer_of result ≢ answers.BadNumber → handles.new ≡ handles.old }
    ensures full { answer_of result ≡ answers.BadNumber → All (λ h. h.full ≡ true) handles.new }
    ensures workers { answer_of result ≡ answers.BadNumber → map (λ h. h.held.worker) handles.new ≡ map (λ h. h.held.worker) handles.old }
    ensures book_kept { answer_of result ≢ answers.Done → book.new ≡ book.old }
{
    if book.full {
        return Answer::Full.number();
    }
    if some_empty(handles) {
        return Answer::Empty.number();
    }
    let Ok(passes) = Vec::with_capacity(alloc, handles.len()) else {
        return Answer::NoMemory.number();
    };
    let Ok(spare) = spare_book(alloc) else {
        return Answer::NoMemory.number();
    };
    if !are_whole(alloc, handles) {
        return Answer::BadNumber.number();
    }
    *book = BookHandle::of(close_by(gather(alloc, handles, passes), spare));
    Answer::Done.number()
}

/// Closes the book of a finished service.
#[unsafe(no_mangle)]
pub extern "C" fn wakhurmi_c_close_book(alloc: Global, book: &mut BookHandle) -> u32
    ensures empty { book.old.full ≡ false → answer_of result ≡ answers.Empty }
    ensures closed { book.old.full ≡ true → answer_of result ≡ answers.Done }
    ensures emptied { book.new.full ≡ false }
{
    if !book.full {
        return Answer::Empty.number();
    }
    drop(book.take(alloc));
    Answer::Done.number()
}
