//! What each worker does in its thread.
ghost use Rattle.std.specs.Prelude.{◌≡◌, [], All, false, map, true};
ghost use Rattle.item_actions.specs.Forms.{is_file_name};
ghost use Rattle.coordination.specs.Shown.{blocked_shown, claimed_shown, parked_shown};
ghost use Rattle.memory_budget.specs.Waiting.{AsksProcess};

use crate::asked::work;
use crate::{WORKERS, desk};
use coordination::{Coordination, Halt, Pass, used_passes_have_their_numbers};
use daemon_desk::{Desk, FolderLink};
use daemon_manager::Tally;
use daemon_requirements::{Linked, Work};
use item_actions::Outcome;
use lease_service::{current_lease, hand_back, run_as_worker};
use memory_budget::{
    BudgetLedger, BudgetLock, Budgeted, BudgetedRun, SharedBudget, run_in_budget, stop_daemon,
};
use std::sync::ledger::Ledger;
use std::sync::{Mutex, Wait};
use std::thread;
use std::thread::Threads;

/// How many items there are. Each worker runs those that leave its number over when divided by the number of workers.
const ITEMS: u32 = 200;

/// How many items came out as they should, and how many otherwise.
#[derive(Clone, Copy)]
pub(crate) struct OutcomeCounts {
    pub(crate) right: u32,
    pub(crate) wrong: u32,
}

impl OutcomeCounts {
    pub(crate) fn new() -> OutcomeCounts {
        OutcomeCounts { right: 0, wrong: 0 }
    }

    // Counts an item. The file has three lines.
    fn count(&mut self, ran: Budgeted) {
        match ran {
            Budgeted::Done(Outcome::Number(3)) => self.right = self.right.saturating_add(1),
            _ => self.wrong = self.wrong.saturating_add(1),
        }
    }
}

// What the workers share.
#[derive(Drop)]
struct Site<'a, R, L: Linked, U: BudgetLedger, F: Ledger> {
    service: &'a Coordination,
    pool: SharedBudget<'a, R, L, U, F>,
}

// Takes a lease, has a daemon work the item out once there is room for it, and gives the lease back. The daemon that is one too
// many is stopped behind that, so the wait for its end keeps no lease.
fn run_leased<R: Wait, D: Desk, U: BudgetLedger, F: Ledger>(
    site: &Site<'_, R, D::Link, U, F>,
    pass: &mut Pass,
    desk: &mut D,
    mine: &mut Tally<U, F>,
    unit: u32,
    work: &Work,
) -> Result<Budgeted, Halt>
    requires service { pass.old.service ≡ site.now.service.now.service }
    requires claimed { claimed_shown pass.old.sight ≡ [] }
    requires parked { parked_shown pass.old.sight ≡ [] }
    requires blocked { blocked_shown pass.old.sight ≡ false }
    requires process { AsksProcess work.now.isolation }
    requires form { is_file_name work.now.file ≡ true }
    ensures service { pass.new.service ≡ pass.old.service }
    ensures worker { pass.new.sight.worker ≡ pass.old.sight.worker }
{
    let Site { service, pool } = site;
    run_as_worker(pool.rt, service, pass)?;
    let BudgetedRun { budgeted, spare } = match current_lease(pass) {
        Some(lease) => run_in_budget(pool, &lease, desk, mine, unit, work),
        None => unreachable!(),
    };
    let handed_back = hand_back(pool.rt, service, pass);
    if let Some(link) = spare {
        stop_daemon(pool, desk, link);
    }
    match handed_back {
        Ok(()) => Ok(budgeted),
        Err(_) => Err(Halt::NoMemory),
    }
}

// Runs an item where the worker can take a lease. None where it can't, or where there is no memory.
fn run_item<R: Wait, D: Desk, U: BudgetLedger, F: Ledger>(
    site: &Site<'_, R, D::Link, U, F>,
    pass: &mut Pass,
    desk: &mut D,
    mine: &mut Tally<U, F>,
    unit: u32,
) -> Option<Budgeted>
    requires { pass.old.service ≡ site.now.service.now.service }
    ensures service { pass.new.service ≡ pass.old.service }
    ensures worker { pass.new.sight.worker ≡ pass.old.sight.worker }
{
    let work = work(site.pool.alloc, unit).ok()?;
    let is_idle = pass.claimed().is_empty() && pass.parked().is_empty() && !pass.blocked();
    if !is_idle {
        return None;
    }
    run_leased(site, pass, desk, mine, unit, &work).ok()
}

// Runs the worker's items. Whoever can't go on stops the others, so that none waits for it.
fn run_share<R: Wait, U: BudgetLedger, F: Ledger>(
    host: &HostRuntime,
    site: &Site<'_, R, FolderLink, U, F>,
    counts: &Mutex<OutcomeCounts>,
    pass: &mut Pass,
    mine: &mut Tally<U, F>,
)
    requires { pass.old.service ≡ site.now.service.now.service }
    ensures service { pass.new.service ≡ pass.old.service }
    ensures worker { pass.new.sight.worker ≡ pass.old.sight.worker }
{
    let Ok(mut desk) = desk(host) else {
        return;
    };
    let rt = site.pool.rt;
    let worker = pass.worker().0;
    for unit in 0..ITEMS {
        if unit % WORKERS == worker {
            match run_item(site, pass, &mut desk, mine, unit) {
                Some(ran) => counts.lock(rt).count(ran),
                None => {
                    site.service.stop_all(rt, pass);
                    return;
                }
            }
        }
    }
}

/// What the workers work with: how they wait, the service, the daemons, and what they count in, each its own tally of the daemons.
#[derive(Drop)]
pub(crate) struct Shared<'a, R, U: BudgetLedger, F: Ledger> {
    pub(crate) threads: &'a R,
    pub(crate) service: &'a Coordination,
    pub(crate) pool: &'a BudgetLock<FolderLink, U, F>,
    pub(crate) counts: &'a Mutex<OutcomeCounts>,
    pub(crate) tallies: &'a [Mutex<Tally<U, F>>],
}

/// Has each worker work in a thread of its own, and waits for all of them.
pub(crate) fn work_in_threads<
    R: Threads + Wait + Sync,
    U: BudgetLedger + Send + Sync,
    F: Ledger + Send + Sync,
>(host: &HostRuntime, shared: &Shared<'_, R, U, F>, passes: &mut [Pass])
    requires service { All (λ p. p.service ≡ shared.now.service.now.service) passes.old }
    ensures service { All (λ p. p.service ≡ shared.now.service.now.service) passes.new }
    ensures workers { map (λ p. p.sight.worker.0) passes.new ≡ map (λ p. p.sight.worker.0) passes.old }
{
    used_passes_have_their_numbers();
    let threads = passes.len().max(1);
    let service = shared.service;
    let site = &Site {
        service,
        pool: SharedBudget {
            rt: shared.threads,
            alloc: host.alloc(),
            pool: shared.pool,
        },
    };
    thread::for_each_mut(
        shared.threads,
        passes,
        threads,
        &|i: usize, pass: &mut Pass|
            requires { pass.old.service ≡ site.now.service.now.service }
            ensures service { pass.new.service ≡ pass.old.service }
            ensures worker { pass.new.sight.worker ≡ pass.old.sight.worker }
        {
            if let Some(mine) = shared.tallies.get(i) {
                run_share(
                    host,
                    site,
                    shared.counts,
                    pass,
                    &mut *mine.lock(shared.threads),
                );
            }
        },
    );
}
