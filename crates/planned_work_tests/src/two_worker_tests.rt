//! What two workers of a service over a plan come to.
use crate::driving::open;
use crate::misuse::{gives_its_lease_back, has_no_work_behind_a_stop, refuses_what_does_not_fit};
use crate::plans::three_tasks;
use crate::two_workers::{end_in_turn, wakes, wakes_all_at_the_end};
use planned_work::PlanWorker;
use resource_lock::WorkerId;
use std::alloc::{AllocError, Global};

/// What two workers do.
#[derive(Clone, Copy)]
enum Play {
    /// The first makes calls that don't fit its place.
    Misuse,
    /// Both stop the service.
    Stop,
    /// The first is in a blocking section.
    Section,
    /// They take turns.
    InTurn,
    /// The second sleeps, or goes away.
    Sleeper {
        sleeps: bool,
        woken: Option<WorkerId>,
    },
    /// They come to the end.
    End,
}

impl Play {
    // How many leases may be out.
    fn leases(self) -> u32 {
        match self {
            Play::Misuse | Play::Stop | Play::Section => 1,
            Play::InTurn | Play::Sleeper { .. } | Play::End => 2,
        }
    }

    // Whether it comes to what it has to.
    fn goes(self, first: &mut PlanWorker, second: &mut PlanWorker) -> bool {
        match self {
            Play::Misuse => refuses_what_does_not_fit(first, second),
            Play::Stop => has_no_work_behind_a_stop(first, second),
            Play::Section => gives_its_lease_back(first, second),
            Play::InTurn => end_in_turn(first, second),
            Play::Sleeper { sleeps, woken } => wakes(first, second, sleeps, woken),
            Play::End => wakes_all_at_the_end(first, second),
        }
    }
}

// Whether a play of two workers comes to what it has to.
fn goes_with(play: Play, workers: &mut [Box<PlanWorker>]) -> bool {
    if workers.len() != 2 {
        return false;
    }
    let (first, second) = workers.split_at_mut(1);
    play.goes(&mut first[0], &mut second[0])
}

// The same on a new service.
fn plays_out(alloc: Global, play: Play) -> Result<bool, AllocError> {
    let mut workers = open(alloc, three_tasks(alloc), 2, play.leases())?;
    Ok(goes_with(play, &mut workers))
}

static PLAYS: [Play; 7] = [
    Play::Misuse,
    Play::Stop,
    Play::Section,
    Play::InTurn,
    Play::Sleeper {
        sleeps: true,
        woken: Some(WorkerId(1)),
    },
    Play::Sleeper {
        sleeps: false,
        woken: None,
    },
    Play::End,
];

#[test]
fn two_workers_come_to_what_they_have_to(rt: HostRuntime) -> Result<(), AllocError> {
    for play in &PLAYS {
        let comes_so = plays_out(rt.alloc(), *play)?;
        assert!(rt; comes_so);
    }
    Ok(())
}
