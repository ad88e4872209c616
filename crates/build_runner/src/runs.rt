//! A whole run of a plan.
ghost use Rattle.std.specs.Prelude.{◌≡◌, ◌+◌, ◌++◌, ◌<◌, ◌≤◌, ℕ, All, IfOk, OnErr, drop, get_or, length, map, sum_by};
ghost use Rattle.std.specs.Prelude.{Option, true, vec_capacity, vec_len};
ghost use Rattle.daemon_manager.specs.Asking.{AreAskedFor};
ghost use Rattle.daemon_manager.specs.Counts.{failures, reservations};
ghost use Rattle.daemon_manager.specs.Events.{NoneIdle, IsLegal};
ghost use Rattle.lock_journal.specs.ClosedBy.{closed_by};
ghost use Rattle.history_views.specs.Growing.{IsLater};
ghost use Rattle.coordination.specs.Passes.{PassView};
ghost use Rattle.coordination.specs.Sights.{workers_from};
ghost use Rattle.plan_reader.specs.Graph.{graph_of};
ghost use Rattle.plan_reader.specs.declared.limits.TheConstants.{MAX_LEASES, MAX_WORKERS};
ghost use Rattle.plan_reader.specs.Units.{plan_units};
ghost use Rattle.build_runner.specs.Books.{AreBack, GivesBook, GivesEnd, IsClosedBook, Leaves};
ghost use Rattle.build_workers.specs.RunDesks.{AreAlike, desks_view, known_by};
ghost use Rattle.build_workers.specs.Desks.{DeskView, desk_view};
ghost use Rattle.build_workers.specs.RunFailing.{unreal_of};
ghost use Rattle.build_runner.specs.Failing.{unreal_seen};
ghost use Rattle.build_runner.specs.Rooms.{IsEmptyFor};
ghost use Rattle.build_workers.specs.Run.{IsRunOf, WasBrokenOff};
ghost use Rattle.build_workers.specs.Units.{AllMayAsk, AsksFor};
ghost use Rattle.build_workers.specs.Worked.{CanWork};
ghost use Rattle.build_runner.specs.Watching.{HasRoomToLook, IsBoardFor, IsWatched};
ghost use Rattle.build_workers.specs.RunWatching.{IsWatchedRun};
ghost use Rattle.build_runner.specs.Worked.{HasComeToTheEnd, TookPart, WasThere};

use crate::daemons::close_pool;
use crate::prepared::{OpenedRun, Prepared};
use crate::room::TeamRoom;
use crate::team::{all_ended, part, seat, work};
use crate::watching::{board_of, watches_of};
use build_workers::{Kit, RunEnd, RunOptions, RunTypes, Site, Types};
use coordination::Pass;
use daemon_desk::Desk;
use daemon_manager::{CountedPool, Pool, ReservationLedger, Tallies};
use file_access::Gate;
use item_work::PoolLock;
use lock_journal::{
    Book, every_run_comes_to_its_plan, histories_go_on, honest_workers_give_the_answers,
    lawful_histories_lead_to_good_states,
};
use plan_reader::Plan;
use ready_work::ranks_give_a_numbering;
use run_watch::{Board, Watch};
use std::alloc::{AllocError, Global};
use std::marker::Brand;
use std::mem;
use std::sync::ledger::{Blank, Ledger};
use std::sync::{Mutex, Wait};
use std::thread::Threads;

// What a run is given, beside its desks.
#[derive(Drop)]
struct RunInput<'a, R, G> {
    rt: &'a R,
    alloc: Global,
    plan: &'a Plan,
    options: &'a RunOptions,
    gate: &'a G,
}

// Takes the book out of the service for good.
fn close_service<R: Wait>(
    opened: Box<OpenedRun<'_, R>>,
    plan: &Plan,
    options: &RunOptions,
) -> Box<Book>
    requires service { All (λ p. p.service ≡ opened.value.service.service) opened.value.passes.items }
    requires workers { map (λ p. p.sight.worker.0) opened.value.passes.items ≡ workers_from 0 options.now.workers }
    requires some { 1 ≤ options.now.workers }
    requires graph { opened.value.service.book.graph ≡ graph_of plan.now options.now.workers options.now.max_leases options.now.parallel }
    ensures run { (before after : ℕ → DeskView)
        → ((i : ℕ) (p : PassView) → i < options.now.workers
        → HasComeToTheEnd (known_by options.now.workers before) (plan_units plan.now) (before i) (after i) (get_or opened.entry.value.passes.items i p))
        → IsRunOf plan.now options.now before after result.value }
    ensures broken_off { (before after : ℕ → DeskView)
        → ((i : ℕ) (p : PassView) → i < options.now.workers
        → WasThere (plan_units plan.now) (before i) (after i) (get_or opened.entry.value.passes.items i p))
        → WasBrokenOff plan.now options.now before after }
    ensures graph { result.value.graph ≡ graph_of plan.now options.now.workers options.now.max_leases options.now.parallel }
    ensures whole { result.value.given ≡ 0 }
    ensures later { All (λ p. IsLater p.sight.seen result.value) opened.entry.value.passes.items }
    ensures closings { (i : ℕ) (p : PassView) → i < options.now.workers
        → closed_by (record { 0 = i }) result.value.history
        ≡ closed_by (get_or opened.entry.value.passes.items i p).sight.worker (get_or opened.entry.value.passes.items i p).sight.seen.history }
{
    // Where each task has a rank, they can be numbered so that each stands behind those that it
    // comes after. What is said of the whole run follows from these laws of every lawful history.
    ranks_give_a_numbering();
    histories_go_on();
    every_run_comes_to_its_plan();
    honest_workers_give_the_answers();
    lawful_histories_lead_to_good_states();
    // Of the plan, that its units' files have their form.
    let _ = plan.tasks();
    let OpenedRun { service, passes } = Box::into_inner(opened);
    let book = service.finish(passes);
    // Of the book, that its graph fits and that its state is good.
    let _ = book.graph();
    let _ = book.state();
    book
}

// Has each worker work with its pass, its desk and a tally, and says whether each came to the end. The passes and the desks
// then lie in their places again.
fn run_team<T: RunTypes>(
    site: &Site<'_, '_, T>,
    passes: &mut Vec<Pass>,
    desks: &mut Vec<T::Desk>,
    tallies: &mut Tallies<T::Reserved, T::Failed>,
    kits: &mut Vec<Kit>,
    room: Box<TeamRoom<T>>,
) -> bool
    requires same { vec_len passes.old ≡ vec_len desks.old }
    requires kits { length kits.old.items ≡ vec_len desks.old }
    requires watched { All (IsWatched site.now) kits.old.items }
    requires team { IsEmptyFor (vec_len desks.old) room.value.team }
    requires left { IsEmptyFor (vec_len desks.old) room.value.passes }
    requires back { IsEmptyFor (vec_len desks.old) room.value.desks }
    requires used { IsEmptyFor (vec_len desks.old) room.value.kits }
    requires parts { vec_len desks.old < tallies.old.parts }
    requires ready { All (CanWork site.now.service site.now.graph) passes.old.items }
    ensures watched { All (IsWatched site.now) kits.new.items }
    ensures passes { length passes.new.items ≡ vec_len desks.old }
    ensures desks { length desks.new.items ≡ vec_len desks.old }
    ensures capacity { vec_capacity desks.new ≡ vec_capacity room.value.desks }
    ensures worked { (i : ℕ) (p : PassView) (d : T.Desk) → i < vec_len desks.old → TookPart site.now
        (desk_view T.Desk.files T.Desk.faults T.Desk.sends T.Desk.sent (get_or desks.old.items i d))
        (desk_view T.Desk.files T.Desk.faults T.Desk.sends T.Desk.sent (get_or desks.new.items i d))
        (get_or passes.old.items i p) (get_or passes.new.items i p) result }
    ensures parts { tallies.new.parts ≡ tallies.old.parts }
    ensures reserved { sum_by T.Desk.sends desks.new.items + tallies.old.reserved ≤ sum_by T.Desk.sends desks.old.items + tallies.new.reserved }
    ensures failed { result ≡ true → tallies.new.failed + sum_by unreal_seen passes.old.items ≤ tallies.old.failed + sum_by unreal_seen passes.new.items }
{
    let TeamRoom {
        mut team,
        passes: left,
        desks: back,
        kits: used,
    } = Box::into_inner(room);
    seat(
        mem::replace(passes, left),
        mem::replace(desks, back),
        mem::replace(kits, used),
        tallies,
        &mut team,
    );
    work(site, team.as_mut_slice());
    let ended = all_ended(team.as_slice());
    part(team, passes, desks, kits, tallies);
    ended
}

// Puts the other desks behind those that worked, where there is room for them.
fn put_behind<D: Drop>(desks: &mut Vec<D>, mut rest: Vec<D>)
    requires { vec_len desks.old + vec_len rest ≤ vec_capacity desks.old }
    ensures { desks.new.items ≡ desks.old.items ++ rest.items }
{
    // There is room, so this takes no memory.
    let _ = desks.append(&mut rest);
}

// Takes the book out of the service for good, and what was seen of it. It fails where a worker hasn't come to the end.
fn close_run<R: Wait>(
    alloc: Global,
    plan: &Plan,
    options: &RunOptions,
    opened: Box<OpenedRun<'_, R>>,
    board: Option<Board>,
    ended: bool,
) -> Result<(Box<Book>, Vec<Watch>), AllocError>
    requires service { All (λ p. p.service ≡ opened.value.service.service) opened.value.passes.items }
    requires workers { map (λ p. p.sight.worker.0) opened.value.passes.items ≡ workers_from 0 options.now.workers }
    requires some { 1 ≤ options.now.workers }
    requires graph { opened.value.service.book.graph ≡ graph_of plan.now options.now.workers options.now.max_leases options.now.parallel }
    requires watched { (looks : Option ℕ) × HasRoomToLook options.now.watch opened.value.service.book.graph.units looks
        × IsBoardFor opened.value.passes.items looks board }
    ensures whole { IfOk result (λ ran. ran.0.value.given ≡ 0) }
    ensures run { IfOk result (λ ran. IsClosedBook plan.now options.now ended opened.entry.value.passes.items ran.0.value ran.1.items) }
    ensures broken_off { (before after : ℕ → DeskView)
        → ((i : ℕ) (p : PassView) → i < options.now.workers
        → WasThere (plan_units plan.now) (before i) (after i) (get_or opened.entry.value.passes.items i p))
        → WasBrokenOff plan.now options.now before after }
{
    let book = close_service(opened, plan, options);
    if ended {
        let watch = watches_of(alloc, board, &book);
        Ok((book, watch))
    } else {
        Err(AllocError)
    }
}

// Runs a plan, and leaves the daemons that are idle then in the pool.
//
// Of its book, its desks and its error holds what `run_plan` says.
fn run_book<T: RunTypes>(
    input: &RunInput<'_, T::Runtime, T::Gate>,
    pool: &PoolLock<<T::Desk as Desk>::Link, T::Reserved, T::Failed>,
    tallies: &mut Tallies<T::Reserved, T::Failed>,
    desks: &mut Vec<T::Desk>,
) -> Result<(Box<Book>, Vec<Watch>), AllocError>
    requires some_worker { 1 ≤ input.now.options.now.workers }
    requires few_workers { input.now.options.now.workers ≤ MAX_WORKERS }
    requires some_lease { 1 ≤ input.now.options.now.max_leases }
    requires few_leases { input.now.options.now.max_leases ≤ MAX_LEASES }
    requires enough { input.now.options.now.workers ≤ length desks.old.items }
    requires alike { (d : T.Desk)
        → AreAlike input.now.options.now.workers (desks_view (desk_view T.Desk.files T.Desk.faults T.Desk.sends T.Desk.sent) desks.old.items d) }
    requires parts { input.now.options.now.workers < tallies.old.parts }
    requires asks { AllMayAsk T.Reserved.asks (plan_units input.now.plan.now) }
    ensures leaves { Leaves (desk_view T.Desk.files T.Desk.faults T.Desk.sends T.Desk.sent) input.now.options.now.workers desks.old.items desks.new.items
        tallies.old tallies.new }
    ensures whole { IfOk result (λ ran. ran.0.value.given ≡ 0) }
    ensures run { IfOk result (λ ran. GivesBook (desk_view T.Desk.files T.Desk.faults T.Desk.sends T.Desk.sent) input.now.plan.now input.now.options.now
        desks.old.items desks.new.items tallies.old tallies.new ran.0.value ran.1.items) }
    ensures broken_off { (d : T.Desk) → OnErr result (WasBrokenOff input.now.plan.now input.now.options.now
        (desks_view (desk_view T.Desk.files T.Desk.faults T.Desk.sends T.Desk.sent) desks.old.items d)
        (desks_view (desk_view T.Desk.files T.Desk.faults T.Desk.sends T.Desk.sent) desks.new.items d)) }
{
    let RunInput {
        rt,
        alloc,
        plan,
        options,
        gate,
    } = *input;
    let room = TeamRoom::<T>::new(alloc, options.workers as usize, desks.len())?;
    let prepared = Prepared::new(rt, alloc, plan, options)?;
    let rest = desks.split_off(options.workers as usize)?;
    let Prepared {
        graph,
        units,
        mut opened,
        mut kits,
        looks,
    } = prepared;
    // That the units' files have their form and that the graph fits, their types say.
    let _ = plan.tasks();
    let _ = graph.tasks();
    let parts: &mut OpenedRun<'_, T::Runtime> = &mut opened;
    let site = Site {
        rt,
        service: &parts.service,
        graph: &graph,
        units: &units,
        pool,
        gate,
        alloc,
    };
    let ended = run_team(&site, &mut parts.passes, desks, tallies, &mut kits, room);
    put_behind(desks, rest);
    let board = board_of(&parts.passes, kits, looks);
    close_run(alloc, plan, options, opened, board, ended)
}

// Runs a plan, and counts what happens to the daemons in these ledgers, which have a part for each worker and one more.
//
// Of what it gives holds what `run_plan` says.
fn run_counted<
    R: Threads + Wait + Sync,
    D: Desk + Send + Drop,
    G: Gate + Sync,
    U: ReservationLedger + Send + Sync,
    F: Ledger + Send + Sync,
>(
    input: &RunInput<'_, R, G>,
    desks: &mut Vec<D>,
    reserved: Blank,
    failed: Blank,
) -> Result<RunEnd, AllocError>
    requires some_worker { 1 ≤ input.now.options.now.workers }
    requires few_workers { input.now.options.now.workers ≤ MAX_WORKERS }
    requires some_lease { 1 ≤ input.now.options.now.max_leases }
    requires few_leases { input.now.options.now.max_leases ≤ MAX_LEASES }
    requires enough { input.now.options.now.workers ≤ length desks.old.items }
    requires alike { (d : D) → AreAlike input.now.options.now.workers (desks_view (desk_view D.files D.faults D.sends D.sent) desks.old.items d) }
    requires reserved { (reserved.name ≡ U.name) × (reserved.parts ≡ U.parts) × (U.parts ≡ input.now.options.now.workers + 1) }
    requires failed { (failed.name ≡ F.name) × (failed.parts ≡ F.parts) × (F.parts ≡ input.now.options.now.workers + 1) }
    requires asks { AllMayAsk U.asks (plan_units input.now.plan.now) }
    ensures back { AreBack (desk_view D.files D.faults D.sends D.sent) input.now.options.now.workers desks.old.items desks.new.items }
    ensures run { IfOk result (λ end. GivesEnd (desk_view D.files D.faults D.sends D.sent) input.now.plan.now input.now.options.now
        desks.old.items desks.new.items end.book.value end.watch.items end.events.items) }
    ensures units { IfOk result (λ end. AreAskedFor U.asks end.events.items) }
    ensures broken_off { (d : D) → OnErr result (WasBrokenOff input.now.plan.now input.now.options.now
        (desks_view (desk_view D.files D.faults D.sends D.sent) desks.old.items d)
        (desks_view (desk_view D.files D.faults D.sends D.sent) desks.new.items d)) }
{
    let pool = Pool::new(input.alloc)?;
    let (pool, mut tallies) = CountedPool::<D::Link, U, F>::new(pool, reserved, failed);
    let pool = Mutex::new(pool);
    let ran = run_book::<Types<'_, R, D, G, U, F>>(input, &pool, &mut tallies, desks);
    let events = close_pool(pool, tallies, desks);
    let (book, watch) = ran?;
    Ok(RunEnd {
        book,
        events,
        watch,
    })
}

/// Runs a plan on as many threads as the options say: each worker has a pass and a desk of its own,
/// worker i the desk with number i, and all share one book and one pool of daemons.
///
/// Of the desks that it uses, those that know their files know the same.
///
/// The book that it gives has ended: no lock has an owner, each mark has ended, and each unit was
/// skipped, or is closed with what its worker's desk gave: where all desks that it uses know their files,
/// the value of the unit's file, or `Fault` or `NoMemory`. Each desk counts its faults, until its count
/// stands at its end. The desks are in their places again, also after an error.
///
/// Where a book is given, desk i sent the requests of the units that worker i closed, in this order, and
/// no other: none for a fetch or an item in the thread; for an item in a process at most one, with its
/// unit, action and file, over a link made for requirements that cover those asked, and one where its
/// outcome is neither `Fault` nor `NoMemory`.
///
/// Beside the book it gives all that happened to daemons. Those that are idle when the workers have
/// ended are stopped through the first desk, also after an error, so none is idle then. Each reservation names
/// an item of the plan that runs in a process, and its daemon covers what the item asks for. At least as many
/// daemons were reserved as requests were sent: each request had its reservation. No more daemons failed
/// than its workers closed units with `Fault` or `NoMemory`.
///
/// Where the options say so, each worker has a view of the history. It looks after each item that it has closed, having learnt from
/// its pass. Beside the book stands what was seen then, by rising unit, one for each item that was closed: so many entries of the
/// book, the one that closed the item among them, and the leases that were out after them. Else nothing is seen.
///
/// It fails for want of memory alone, of the run or of any of its entries. The desks have then read some
/// of the files, and what had run is lost. Each desk sent the requests of the units that its worker closed,
/// and of at most one more.
pub fn run_plan<R: Threads + Wait + Sync, D: Desk + Send + Drop, G: Gate + Sync>(
    rt: &R,
    alloc: Global,
    plan: &Plan,
    options: &RunOptions,
    desks: &mut Vec<D>,
    gate: &G,
) -> Result<RunEnd, AllocError>
    requires some_worker { 1 ≤ options.now.workers }
    requires few_workers { options.now.workers ≤ MAX_WORKERS }
    requires some_lease { 1 ≤ options.now.max_leases }
    requires few_leases { options.now.max_leases ≤ MAX_LEASES }
    requires enough { options.now.workers ≤ length desks.old.items }
    requires alike { (d : D) → AreAlike options.now.workers (desks_view (desk_view D.files D.faults D.sends D.sent) desks.old.items d) }
    ensures places { length desks.new.items ≡ length desks.old.items }
    ensures files { (i : ℕ) (d : D) → D.files (get_or desks.new.items i d) ≡ D.files (get_or desks.old.items i d) }
    ensures counts { (i : ℕ) (d : D) → D.faults (get_or desks.old.items i d) ≤ D.faults (get_or desks.new.items i d) }
    ensures rest { drop options.now.workers desks.new.items ≡ drop options.now.workers desks.old.items }
    ensures run { (d : D) → IfOk result (λ end. IsRunOf plan.now options.now
        (desks_view (desk_view D.files D.faults D.sends D.sent) desks.old.items d)
        (desks_view (desk_view D.files D.faults D.sends D.sent) desks.new.items d) end.book.value) }
    ensures broken_off { (d : D) → OnErr result (WasBrokenOff plan.now options.now
        (desks_view (desk_view D.files D.faults D.sends D.sent) desks.old.items d)
        (desks_view (desk_view D.files D.faults D.sends D.sent) desks.new.items d)) }
    ensures watch { IfOk result (λ end. IsWatchedRun options.now end.book.value end.watch.items) }
    ensures legal { IfOk result (λ end. IsLegal end.events.items) }
    ensures none_idle { IfOk result (λ end. NoneIdle end.events.items) }
    ensures reserved { IfOk result (λ end. sum_by D.sends desks.new.items ≤ sum_by D.sends desks.old.items + reservations end.events.items) }
    ensures failed { IfOk result (λ end. failures end.events.items ≤ unreal_of options.now.workers end.book.value.history) }
    ensures units { IfOk result (λ end. AreAskedFor (AsksFor (plan_units plan.now)) end.events.items) }
{
    let parts = u64::from(options.workers) + 1;
    let reserved = Blank::new(parts);
    let failed = Blank::new(parts);
    let input = RunInput {
        rt,
        alloc,
        plan,
        options,
        gate,
    };
    run_counted::<R, D, G, Brand, Brand>(&input, desks, reserved, failed)
}
