//! The end of a service over a plan.
ghost use Rattle.std.specs.Prelude.{◌≡◌, ◌≢◌, ◌<◌, ◌≤◌, ℕ, [], All, Any, IfNone, IfSome, false, length, map, not, true, vec_capacity};
ghost use Rattle.std.specs.Arc.{arc_value};
ghost use Rattle.std.specs.List.{list_any};
ghost use Rattle.atomic_table.specs.Seated.{TableId};
ghost use Rattle.coordination.specs.Closings.{IsClosedBy};
ghost use Rattle.coordination.specs.Sights.{workers_from};
ghost use Rattle.planned_work.specs.PlanRun.{HasSeenTheEnd, IsPlanRun};
ghost use Rattle.planned_work.specs.Ranks.{HasRanks};
ghost use Rattle.wakhurmi_c.specs.PlanNumbers.{plan_answer_of};
ghost use Rattle.wakhurmi_c.specs.PlannedOpening.{AreWhole, WhyUnfinished};
ghost use Rattle.wakhurmi_c.specs.declared.plan_answers.PlanAnswer.TheVariants as answers;

use crate::book_handles::BookHandle;
use crate::plan_answers::PlanAnswer;
use crate::planned_handles::PlannedHandle;
use coordination::{Pass, Planned, Slot};
use lock_journal::Book;
use planned_work::{PlanWorker, close_plan, spare_book};
use std::alloc::Global;
use std::sync::Arc;

/// The passes of workers, which are taken out of their handles, and the service that they share.
#[derive(Drop)]
struct Gathered {
    passes: Vec<Pass>,
    service: Option<Arc<Slot<Planned>, Global>>,
}

/// Whether full handles are those of all workers of a service, in order. They stay full, with the same workers.
fn are_whole(alloc: Global, handles: &mut [PlannedHandle]) -> bool
    requires { All (λ h. h.full ≡ true) handles.old }
    ensures full { All (λ h. h.full ≡ true) handles.new }
    ensures workers { map (λ h. h.held.worker) handles.new ≡ map (λ h. h.held.worker) handles.old }
    ensures are { result ≡ true → AreWhole handles.old }
    ensures are_not { result ≡ false → AreWhole handles.old → ⊥ }
{
    let count = handles.len();
    let mut whole = count > 0;
    let mut number = 0;
    for handle in handles.iter_mut() {
        let worker = handle.take(alloc);
        if worker.pass.worker().0 as usize != number || worker.workers as usize != count {
            whole = false;
        }
        *handle = PlannedHandle::of(worker);
        number += 1;
    }
    whole
}

/// Takes the workers out of full handles. There is room for their passes.
fn gather(alloc: Global, handles: &mut [PlannedHandle], mut passes: Vec<Pass>) -> Gathered
    requires full { All (λ h. h.full ≡ true) handles.old }
    requires service { (id : TableId) × All (λ h. h.held.worker.pass.service.table ≡ id) handles.old }
    requires empty { passes.items ≡ [] }
    requires room { length handles.old ≤ vec_capacity passes }
    ensures emptied { All (λ h. h.full ≡ false) handles.new }
    ensures passes { result.passes.items ≡ map (λ h. h.held.worker.pass) handles.old }
    ensures ranked { All (λ p. HasRanks p.sight.seen.graph) result.passes.items }
    ensures service { IfSome result.service (λ s. All (λ p. p.service.table ≡ (arc_value s).table.shared.table_id) result.passes.items) }
    ensures workers { IfSome result.service (λ s. (n : ℕ) → All (λ h. h.held.worker.workers ≡ n) handles.old
        → (arc_value s).table.shared.key.kept.value.book.graph.workers ≡ n) }
    ensures none { IfNone result.service (length handles.old ≡ 0) }
{
    let mut shared = None;
    for handle in handles.iter_mut() {
        let PlanWorker {
            service,
            pass,
            workers: _,
            numbers: _,
        } = Box::into_inner(handle.take(alloc));
        passes.push_reserved(pass);
        shared = Some(service);
    }
    Gathered {
        passes,
        service: shared,
    }
}

/// Takes the book out of a service, by the passes of all its workers. The spare one lies there instead.
fn close_by(gathered: Gathered, spare: Planned) -> Box<Book>
    requires some { 0 < length gathered.passes.items }
    requires none { IfNone gathered.service (length gathered.passes.items ≡ 0) }
    requires service { IfSome gathered.service (λ s. All (λ p. p.service.table ≡ (arc_value s).table.shared.table_id) gathered.passes.items) }
    requires all { IfSome gathered.service (λ s. map (λ p. p.sight.worker.0) gathered.passes.items
        ≡ workers_from 0 (arc_value s).table.shared.key.kept.value.book.graph.workers) }
    requires ranked { All (λ p. HasRanks p.sight.seen.graph) gathered.passes.items }
    ensures closed { IsClosedBy gathered.passes.items result.value.graph result.value }
    ensures run { Any (λ p. HasSeenTheEnd p.sight) gathered.passes.items → IsPlanRun result.value.graph result.value }
{
    let Gathered { passes, service } = gathered;
    let Some(service) = service else {
        unreachable!()
    };
    close_plan(&service, passes, spare)
}

// Whether one of the handles is empty.
fn some_empty(handles: &[PlannedHandle]) -> bool
    ensures { result ≡ list_any (λ h. not h.full) handles.now }
{
    handles.iter().any(|handle| !handle.full)
}

/// Ends a service over a plan whose workers' handles these are, all of them and in order: the book is taken out of it for good. Where they
/// aren't that, it answers `BadNumber`, and they stay full, with the same workers. `Full` and `Empty` speak of the book's handle and of
/// these.
///
/// Where a worker was told that all tasks have ended, the book is a lawful run of the plan, in which each unit has one outcome.
#[unsafe(no_mangle)]
pub extern "C" fn wakhurmi_c_plan_finish(
    alloc: Global,
    handles: &mut [PlannedHandle],
    book: &mut BookHandle,
) -> u32
    requires service { (id : TableId) × All (λ h. h.held.worker.pass.service.table ≡ id) handles.old }
    ensures done { plan_answer_of result ≡ answers.Done → book.new.full ≡ true }
    ensures whole { plan_answer_of result ≡ answers.Done → AreWhole handles.old }
    ensures closed { plan_answer_of result ≡ answers.Done
        → IsClosedBy (map (λ h. h.held.worker.pass) handles.old) book.new.held.book.graph book.new.held.book }
    ensures run { plan_answer_of result ≡ answers.Done → Any (λ h. HasSeenTheEnd h.held.worker.pass.sight) handles.old
        → IsPlanRun book.new.held.book.graph book.new.held.book }
    ensures emptied { plan_answer_of result ≡ answers.Done → All (λ h. h.full ≡ false) handles.new }
    ensures why { plan_answer_of result ≢ answers.Done → WhyUnfinished handles.old book.old.full (plan_answer_of result) }
    ensures kept { plan_answer_of result ≢ answers.Done → plan_answer_of result ≢ answers.BadNumber → handles.new ≡ handles.old }
    ensures full { plan_answer_of result ≡ answers.BadNumber → All (λ h. h.full ≡ true) handles.new }
    ensures workers { plan_answer_of result ≡ answers.BadNumber
        → map (λ h. h.held.worker) handles.new ≡ map (λ h. h.held.worker) handles.old }
    ensures book_kept { plan_answer_of result ≢ answers.Done → book.new ≡ book.old }
{
    if book.full {
        return PlanAnswer::Full.number();
    }
    if some_empty(handles) {
        return PlanAnswer::Empty.number();
    }
    let Ok(passes) = Vec::with_capacity(alloc, handles.len()) else {
        return PlanAnswer::NoMemory.number();
    };
    let Ok(spare) = spare_book(alloc) else {
        return PlanAnswer::NoMemory.number();
    };
    if !are_whole(alloc, handles) {
        return PlanAnswer::BadNumber.number();
    }
    *book = BookHandle::of(close_by(gather(alloc, handles, passes), spare));
    PlanAnswer::Done.number()
}
