//! The seats of a new queue.
ghost use Rattle.std.specs.Prelude.{◌≡◌, ◌≤◌, ◌<◌, [], All, length, vec_capacity};
ghost use Rattle.crossbeam_queue.specs.Passes.{IsPassOf, view};
ghost use Rattle.work_tickets.specs.Sights.{first_keeper, fresh, keeper};

use crate::rule::{OneMore, OneSeat, PassView};
use crate::seats::TicketSeat;
use crate::tickets::RuledQueue;
use crossbeam_queue::Pass;

/// Has the keeper of one seat be that of so many.
pub fn make_room(queue: &RuledQueue, pass: &mut Pass<u32, PassView>, seats: u32)
    requires queue { IsPassOf queue.now pass.old }
    requires view { view pass.old ≡ first_keeper }
    requires seats { 0 < seats }
    ensures queue { IsPassOf queue.now pass.new }
    ensures view { view pass.new ≡ keeper seats seats }
{
    for _ in 1..seats {
        let _ = queue.another::<OneMore>(pass);
    }
}

/// Cuts all seats off the keeper. There is room for them.
pub fn cut_seats(
    queue: &RuledQueue,
    pass: &mut Pass<u32, PassView>,
    seats: u32,
    mut room: Vec<TicketSeat>,
) -> Vec<TicketSeat>
    requires queue { IsPassOf queue.now pass.old }
    requires view { view pass.old ≡ keeper seats seats }
    requires empty { room.items ≡ [] }
    requires room { seats ≤ vec_capacity room }
    ensures queue { IsPassOf queue.now pass.new }
    ensures view { view pass.new ≡ keeper seats 0 }
    ensures len { length result.items ≡ seats }
    ensures queues { All (λ s. s.queue ≡ record { table = queue.now.table.shared.table_id; seats = seats }) result.items }
    ensures fresh { All (λ s. s.sight ≡ fresh seats) result.items }
{
    for _ in 0..seats {
        let own = queue.another::<OneSeat>(pass);
        room.push_reserved(TicketSeat { pass: own });
    }
    room
}
