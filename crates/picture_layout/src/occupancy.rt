//! After which entries a worker has a lease, and after which it has one, or is parked or blocked.
ghost use Rattle.std.specs.Prelude.{◌≡◌, ◌<◌, ◌^◌, IfOk};
ghost use Rattle.picture_layout.specs.Panels.{Rising};
ghost use Rattle.picture_layout.specs.Occupancy.{tells, is_of, standing, reach_over};

use crate::panels::split_begun;
use resource_lock::MarkId;
use run_spans::{Span, Subject};
use std::alloc::{AllocError, Global};

/// What the overview tells of a worker.
#[derive(Clone, Copy)]
pub(crate) enum Occupancy {
    /// It has a lease.
    Leased,
    /// It has a lease, or is parked or blocked.
    Engaged,
}

fn tells(occupancy: Occupancy, subject: Subject) -> bool
    ensures { result ≡ tells occupancy subject }
{
    match subject {
        Subject::Lease(_) => true,
        Subject::Blocked(_) | Subject::Running(MarkId::Action(_)) => {
            matches!(occupancy, Occupancy::Engaged)
        }
        _ => false,
    }
}

/// Whether a span tells it of a worker.
fn is_of(occupancy: Occupancy, worker: u32, span: &Span) -> bool
    ensures { result ≡ is_of occupancy worker span.now }
{
    span.worker.0 == worker && tells(occupancy, span.subject)
}

/// Behind which entry the last of these spans ends that tell it of a worker, or a later entry.
fn reach_over(occupancy: Occupancy, worker: u32, reach: u64, spans: &[Span]) -> u64
    ensures { result ≡ reach_over occupancy worker reach spans.now }
{
    let mut reach = reach;
    for span in spans {
        if is_of(occupancy, worker, span) {
            reach = span.until.max(reach);
        }
    }
    reach
}

/// Whether it stands so with a worker, after each of the first entries.
#[tactic(auto, using(crate::proofs::Swept::swept_none))]
pub(crate) fn standing(
    alloc: Global,
    occupancy: Occupancy,
    worker: u32,
    spans: &[Span],
    count: u32,
) -> Result<Vec<bool>, AllocError>
    requires rising { Rising 1 spans.now }
    requires few { count < 2 ^ 30 }
    ensures { IfOk result (λ held. held.items ≡ standing occupancy worker spans.now count) }
{
    let mut held = Vec::with_capacity(alloc, count as usize)?;
    let mut reach = 0;
    let mut rest = spans;
    for before in 0..count {
        let entry = before + 1;
        let (begun, later) = split_begun(rest, entry + 1);
        reach = reach_over(occupancy, worker, reach, begun);
        rest = later;
        held.push(u64::from(entry) < reach)?;
    }
    Ok(held)
}
