//! The workers of a run, each with its pass and its desk.
ghost use Rattle.std.specs.Prelude.{◌≡◌, ◌<◌, ◌≤◌, ◌+◌, ℕ, [], All, get_or, length, map, sum_by, true, vec_capacity, vec_len};
ghost use Rattle.build_workers.specs.Desks.{desk_view};
ghost use Rattle.build_workers.specs.Looking.{LooksAt};
ghost use Rattle.build_workers.specs.Worked.{CanWork, HasWorked};
ghost use Rattle.build_workers.specs.WorkerView.{WorkerView};

use build_workers::{Kit, RunTypes, Site, Worker, work_alone};
use coordination::Pass;
use daemon_manager::Tallies;
use std::thread;

/// Gives each worker its pass, its desk, its kit and a tally.
pub(crate) fn seat<T: RunTypes>(
    passes: Vec<Pass>,
    desks: Vec<T::Desk>,
    kits: Vec<Kit>,
    tallies: &mut Tallies<T::Reserved, T::Failed>,
    team: &mut Vec<Worker<T>>,
)
    requires same { vec_len passes ≡ vec_len desks }
    requires kits { length kits.items ≡ vec_len passes }
    requires empty { team.old.items ≡ [] }
    requires room { vec_len passes ≤ vec_capacity team.old }
    requires parts { vec_len passes < tallies.old.parts }
    ensures passes { map (λ w. w.pass) team.new.items ≡ passes.items }
    ensures watchers { map (λ w. w.watcher) team.new.items ≡ map (λ k. k.watcher) kits.items }
    ensures desks { map (λ w. w.desk) team.new.items ≡ map (desk_view T.Desk.files T.Desk.faults T.Desk.sends T.Desk.sent) desks.items }
    ensures parts { tallies.new.parts + vec_len passes ≡ tallies.old.parts }
    ensures reserved { sum_by (λ w. w.tally.reserved) team.new.items + tallies.new.reserved ≡ tallies.old.reserved }
    ensures failed { sum_by (λ w. w.tally.failed) team.new.items + tallies.new.failed ≡ tallies.old.failed }
{
    let mut rest = desks.into_iter();
    let mut rest_of_kits = kits.into_iter();
    for pass in passes {
        let Some(desk) = rest.next() else {
            unreachable!()
        };
        let Some(kit) = rest_of_kits.next() else {
            unreachable!()
        };
        team.push_reserved(Worker {
            pass,
            desk,
            tally: tallies.split_off(),
            kit,
            ended: false,
        });
    }
}

/// Has each worker work in a thread of its own, and waits for all of them.
pub(crate) fn work<T: RunTypes>(site: &Site<'_, '_, T>, team: &mut [Worker<T>])
    requires ready { All (λ w. CanWork site.now.service site.now.graph w.pass) team.old }
    requires watched { All (λ w. LooksAt site.now.service.service w.watcher) team.old }
    ensures len { length team.new ≡ length team.old }
    ensures worked { (i : ℕ) (d : WorkerView) → i < length team.old → HasWorked site.now (get_or team.old i d) (get_or team.new i d) }
{
    let threads = team.len().max(1);
    thread::for_each_mut(
        site.rt,
        team,
        threads,
        &|_: usize, worker: &mut Worker<T>|
            requires can { CanWork site.now.service site.now.graph worker.old.pass }
            requires looks { LooksAt site.now.service.service worker.old.watcher }
            ensures { HasWorked site.entry.now worker.old worker.new }
        { work_alone(site, worker) },
    );
}

/// Whether each worker saw that all tasks have ended.
pub(crate) fn all_ended<T: RunTypes>(team: &[Worker<T>]) -> bool
    ensures { result ≡ true → All (λ w. w.ended ≡ true) team.now }
{
    team.iter().all(|worker| worker.ended)
}

/// Takes the passes, the desks, the kits and the tallies of the workers again.
pub(crate) fn part<T: RunTypes>(
    team: Vec<Worker<T>>,
    passes: &mut Vec<Pass>,
    desks: &mut Vec<T::Desk>,
    kits: &mut Vec<Kit>,
    tallies: &mut Tallies<T::Reserved, T::Failed>,
)
    requires empty { (passes.old.items ≡ []) × (desks.old.items ≡ []) × (kits.old.items ≡ []) }
    requires room { (vec_len team ≤ vec_capacity passes.old) × (vec_len team ≤ vec_capacity desks.old) × (vec_len team ≤ vec_capacity kits.old) }
    ensures passes { passes.new.items ≡ map (λ w. w.pass) team.items }
    ensures desks { map (desk_view T.Desk.files T.Desk.faults T.Desk.sends T.Desk.sent) desks.new.items ≡ map (λ w. w.desk) team.items }
    ensures watchers { map (λ k. k.watcher) kits.new.items ≡ map (λ w. w.watcher) team.items }
    ensures capacity { vec_capacity desks.new ≡ vec_capacity desks.old }
    ensures parts { tallies.new.parts ≡ tallies.old.parts + vec_len team }
    ensures reserved { tallies.new.reserved ≡ tallies.old.reserved + sum_by (λ w. w.tally.reserved) team.items }
    ensures failed { tallies.new.failed ≡ tallies.old.failed + sum_by (λ w. w.tally.failed) team.items }
{
    for worker in team {
        passes.push_reserved(worker.pass);
        desks.push_reserved(worker.desk);
        kits.push_reserved(worker.kit);
        tallies.merge(worker.tally);
    }
}
