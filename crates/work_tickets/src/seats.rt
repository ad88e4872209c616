//! Seats at a queue of tickets.
use crate::rule::PassView;
use crossbeam_queue::Pass;
use std::marker::Model;

/// A worker's seat at a queue of tickets. It takes no bytes: what it shows is for contracts alone.
#[derive(Drop)]
pub struct TicketSeat {
    pub(crate) pass: Pass<u32, PassView>,
}

impl Model for TicketSeat {
    ghost use Rattle.crossbeam_queue.specs.Passes.{view as view_of};
    ghost use Rattle.work_tickets.specs.Sights.{sight_of};
    ghost use Rattle.work_tickets.specs.TicketSeatView.{TicketSeatView, IsSeat};

    ghost Value = { TicketSeatView };

    ghost view = { λ s. record { queue = record { table = s.pass.table_id; seats = (sight_of (view_of s.pass)).seats }; sight = sight_of (view_of s.pass) } };

    ghost invariant = { λ s. IsSeat s.pass };
}
