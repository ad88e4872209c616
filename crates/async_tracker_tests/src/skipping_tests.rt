//! A task that comes after another one, skipped once that one has failed.
ghost use Rattle.std.specs.Prelude.{◌≡◌, All, length};
ghost use Rattle.coordination.specs.Holds.{HoldsNothing};
ghost use Rattle.async_tracker_tests.specs.TwoItems.{HasTwoItems};

use crate::async_tracker_tests::{open_task, run_task};
use coordination::{Coordination, Opened, Pass};
use coordination_tests::services::let_go;
use item_actions::Outcome;
use resource_lock::Retention;
use single_steps::skip_task;
use std::alloc::AllocError;
use std::process::Abort;
use std::sync::Wait;

/// The task that comes after the one with two items.
const DEPENDENT: u32 = 1;

// Whether worker 1 skips the dependent task, just once, when worker 0 has failed the other one, whose files aren't there.
fn is_skipped_once<R: Wait + Abort>(rt: &R, service: &Coordination, passes: &mut [Pass]) -> bool
    requires service { All (λ p. p.service ≡ service.now.service) passes.old }
    requires graph { All (λ p. HasTwoItems p.sight.seen.graph) passes.old }
    requires rests { All (λ p. HoldsNothing p.sight) passes.old }
    requires two { length passes.old ≡ 2 }
{
    let early = skip_task(rt, service, &mut passes[1], DEPENDENT);
    let fails = run_task(
        rt,
        service,
        &mut passes[0],
        Outcome::NotThere,
        Outcome::NotThere,
    );
    let late = skip_task(rt, service, &mut passes[1], DEPENDENT);
    let again = skip_task(rt, service, &mut passes[1], DEPENDENT);
    matches!(fails, Ok(true)) && matches!((early, late, again), (Ok(false), Ok(true), Ok(false)))
}

#[test]
fn a_task_is_skipped_once_what_it_comes_after_has_failed(
    rt: HostRuntime,
) -> Result<(), AllocError> {
    let mut opened = open_task(&rt, rt.alloc(), Retention::Retain)?;
    let Opened { service, passes } = &mut *opened;
    let is_skipped = is_skipped_once(&rt, service, passes);
    let_go(opened);
    assert!(rt; is_skipped);
    Ok(())
}
