//! A view that is looked at while other threads take leases and hand them back.
ghost use Rattle.std.specs.Prelude.{◌≡◌, All, IfOk, Some, true, false, []};
ghost use Rattle.coordination.specs.Shown.{blocked_shown, claimed_shown};

use crate::services::{Limits, open};
use coordination::{OpenedWithViews, Pass, ShownService};
use history_views::{Extent, View};
use lease_service::{hand_back, run_as_worker};
use std::alloc::{AllocError, Global};
use std::process::Abort;
use std::sync::Wait;
use std::thread;
use std::thread::Threads;

/// Eight workers take and hand back three leases, and a ninth looks.
const LIMITS: Limits = Limits {
    locks: 1,
    workers: 9,
    max_leases: 3,
};

/// The worker that looks.
const LOOKER: u32 = 8;

/// How often each of the others takes and hands back.
const ROUNDS: u32 = 500;

/// How often the looker looks.
const LOOKS: u32 = 1_000_000;

/// A worker of the service, with a view of its history.
#[derive(Drop)]
struct Player<'a, R: Wait + Drop> {
    service: &'a ShownService<(), R>,
    pass: Pass,
    view: View,
    ghost own: { pass.service ≡ service.now.service },
    ghost known: { service.now.service.ledger ≡ Some view.ledger },
}

impl<'a, R: Wait + Drop> Player<'a, R> {
    // Plays its part to the end.
    fn play<W: Wait + Abort>(&mut self, rt: &W) {
        if self.pass.worker().0 == LOOKER {
            self.look_often(rt);
            return;
        }
        for _ in 0..ROUNDS {
            self.take_and_hand_back(rt);
        }
    }

    // Takes a lease and hands it back. The view shows each entry at once.
    fn take_and_hand_back<W: Wait + Abort>(&mut self, rt: &W) {
        assert!(rt; is_free(&self.pass) && !self.pass.has_lease());
        let taken = run_as_worker(rt, self.service, &mut self.pass).is_ok()
            && self.sees_own_entry();
        assert!(rt; taken && is_free(&self.pass) && self.pass.has_lease());
        let back = hand_back(rt, self.service, &mut self.pass).is_ok() && self.sees_own_entry();
        assert!(rt; back);
    }

    // Learns from the pass, and looks. Whether what is seen has the own entry and is never too much.
    fn sees_own_entry(&mut self) -> bool {
        self.pass.teach(&mut self.view);
        let seen = self.view.look();
        seen.entries >= self.pass.last() && seen.leases <= LIMITS.max_leases
    }

    // Looks over and over. What is seen never goes back, and is never too much.
    fn look_often<W: Abort>(&mut self, rt: &W) {
        let mut last = self.view.look();
        for _ in 0..LOOKS {
            let seen = self.view.look();
            let goes_on = seen.entries > last.entries || seen == last;
            assert!(rt; goes_on && seen.leases <= LIMITS.max_leases);
            last = seen;
        }
    }
}

// Whether the worker runs nothing, has parked nothing and isn't blocked.
fn is_free(pass: &Pass) -> bool
    ensures claimed { result ≡ true → claimed_shown pass.now.sight ≡ [] }
    ensures blocked { result ≡ true → blocked_shown pass.now.sight ≡ false }
{
    pass.claimed().is_empty() && !pass.blocked()
}

// A player with the last pass and the last view, where there are both.
fn last_player<'a, R: Wait + Drop>(
    service: &'a ShownService<(), R>,
    passes: &mut Vec<Pass>,
    views: &mut Vec<View>,
) -> Option<Player<'a, R>>
    requires passes { All (λ p. p.service ≡ service.now.service) passes.old.items }
    requires views { All (λ v. service.now.service.ledger ≡ Some v.ledger) views.old.items }
    ensures passes { All (λ p. p.service ≡ service.now.service) passes.new.items }
    ensures views { All (λ v. service.now.service.ledger ≡ Some v.ledger) views.new.items }
{
    let pass = passes.pop()?;
    let view = views.pop()?;
    Some(Player {
        service,
        pass,
        view,
    })
}

// A player for each pass, with a view.
fn players<'a, R: Wait + Drop>(
    alloc: Global,
    service: &'a ShownService<(), R>,
    mut passes: Vec<Pass>,
    mut views: Vec<View>,
) -> Result<Vec<Player<'a, R>>, AllocError>
    requires passes { All (λ p. p.service ≡ service.now.service) passes.items }
    requires views { All (λ v. service.now.service.ledger ≡ Some v.ledger) views.items }
{
    let mut players = Vec::new(alloc);
    for _ in 0..passes.len() {
        if let Some(player) = last_player(service, &mut passes, &mut views) {
            players.push(player)?;
        }
    }
    Ok(players)
}

// Has each play in a thread of its own.
fn play_in_threads<R: Threads + Wait + Abort + Sync>(rt: &R, players: &mut [Player<'_, &R>]) {
    thread::for_each_mut(
        rt,
        players,
        players.len().max(1),
        &|_, player: &mut Player<'_, &R>| { player.play(rt) },
    );
}

#[test]
fn a_view_never_goes_back_while_eight_workers_take_and_hand_back(
    rt: HostRuntime,
) -> Result<(), AllocError> {
    let opened = open(&rt, rt.alloc(), &rt, &LIMITS, LIMITS.workers)?;
    let OpenedWithViews {
        service,
        passes,
        views,
    } = Box::into_inner(opened);
    let mut players = players(rt.alloc(), &service, passes, views)?;
    play_in_threads(&rt, &mut players);
    assert!(rt; players.len() == 9);
    let entries = u64::from(2 * 8 * ROUNDS);
    let last = Extent { entries, leases: 0 };
    for player in &mut players {
        assert!(rt; player.view.look() == last);
    }
    Ok(())
}
