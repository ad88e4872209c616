//! Uses of two services, tried for by the passes of two workers.
ghost use Rattle.std.specs.Prelude.{◌≡◌, All, false};
ghost use Rattle.coordination.specs.Holds.{HoldsNothing};
ghost use Rattle.shared_services.specs.Shows.{MayTakeUses};
ghost use Rattle.shared_services.specs.Takings.{HasTheLocks};

use crate::books::{TWO_SERVICES, book_of, table_of};
use coordination::{Coordination, Opened, Pass, openings_are_at_rest};
use lease_service::Tried;
use shared_services::{ServiceTable, try_take_uses};
use std::process::Abort;
use std::sync::Wait;
use std::test::Fail;

// Whether the worker gets one use of each of these services at once. Where it doesn't, it has nothing.
fn gets<R: Wait>(
    rt: &R,
    service: &Coordination,
    table: &ServiceTable,
    pass: &mut Pass,
    asked: &[u32],
) -> bool
    requires service { pass.old.service ≡ service.now.service }
    requires may { MayTakeUses table.now asked.now pass.old.sight }
    ensures service { pass.new.service ≡ pass.old.service }
    ensures locks { HasTheLocks table.now pass.new.sight.seen.graph }
    ensures rests { result ≡ false → HoldsNothing pass.new.sight }
{
    matches!(
        try_take_uses(rt, service, table, pass, asked),
        Ok(Tried::Got)
    )
}

// Whether one worker gets uses of both services at once, and another one only of that which has uses left.
fn share<R: Wait>(rt: &R, service: &Coordination, table: &ServiceTable, passes: &mut [Pass]) -> bool
    requires service { All (λ p. p.service ≡ service.now.service) passes.old }
    requires locks { All (λ p. HasTheLocks table.now p.sight.seen.graph) passes.old }
    requires rests { All (λ p. HoldsNothing p.sight) passes.old }
{
    let [first, second, both] = [&[0][..], &[1], &[0, 1]];
    if passes.len() < 2
        || !table.are_services(first)
        || !table.are_services(second)
        || !table.are_services(both)
    {
        return false;
    }
    let got = gets(rt, service, table, &mut passes[0], both);
    if gets(rt, service, table, &mut passes[1], second) {
        return false;
    }
    got && gets(rt, service, table, &mut passes[1], first)
}

#[test]
fn who_gets_no_use_of_one_service_gets_one_of_another(rt: HostRuntime) -> Result<(), Fail> {
    let table = table_of(&rt, rt.alloc(), &TWO_SERVICES)?;
    openings_are_at_rest();
    let book = book_of(&rt, rt.alloc(), &table, 2)?;
    let mut opened = Box::new(rt.alloc(), Coordination::open(rt.alloc(), book)?)?;
    let Opened { service, passes } = &mut *opened;
    assert!(rt; share(&rt, service, &table, passes));
    Ok(())
}
