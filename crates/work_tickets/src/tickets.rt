//! A queue of tickets.
ghost use Rattle.std.specs.Prelude.{◌≡◌, ◌<◌, ◌∷◌, All, IfNone, IfOk, IfSome, length, map, true, false};
ghost use Rattle.std.specs.Vec.Iter.{into_iter_items};
ghost use Rattle.crossbeam_queue.specs.Fifo.{Held};
ghost use Rattle.crossbeam_queue.specs.Passes.{IsPassOf, IsSamePass, ruled_capacity, view};
ghost use Rattle.work_tickets.specs.Calls.{HasPopped, HasPushed, WasEmpty, WasFull};
ghost use Rattle.work_tickets.specs.Rule.{finds, has_popped, has_pushed};
ghost use Rattle.work_tickets.specs.Sights.{all_of, fresh, one, sight_of};
ghost use Rattle.work_tickets.specs.Together.{ComeTo};

use crate::opening::{cut_seats, make_room};
use crate::rule::{Capacity, End, FirstInFirstOut, OneSeat, PassView, Pop, Push};
use crate::seats::TicketSeat;
use crossbeam_queue::{Pass, RuledArrayQueue};
use std::alloc::{AllocError, Global};
use std::marker::{Brand, Model};
use std::sync::Wait;
use std::vec::IntoIter;

/// A queue that keeps the rule.
pub type RuledQueue = RuledArrayQueue<u32, PassView, FirstInFirstOut>;

/// A queue of work tickets, each with the number of a unit of work. It gives them out first in, first out, each at most
/// once. Threads share it by `&`, each with a seat of its own.
// A line is two lists, popped and queued, in place of one list and a number: a pop takes a head, a push adds an end. `finish` takes as
// many seats as there are, in any order: a seat can't be copied, so as many are all of them.
#[derive(Drop)]
pub struct Tickets {
    queue: RuledQueue,
    seats: u32,
}

impl Model for Tickets {
    ghost use Rattle.std.specs.Prelude.{◌<◌};
    ghost use Rattle.work_tickets.specs.TicketsView.{TicketsView};

    ghost Value = { TicketsView };

    ghost view = { λ t. record { queue = record { table = t.queue.table.shared.table_id; seats = t.seats }; capacity = t.queue.cap } };

    ghost invariant = { λ t. 0 < t.seats };
}

/// A queue that was opened, and its seats.
#[derive(Drop)]
pub struct TicketsOpened {
    /// The queue.
    pub tickets: Tickets,
    /// The seats.
    pub seats: Vec<TicketSeat>,
}

impl Tickets {
    /// An empty queue with room for so many tickets, and as many seats. It fails for want of memory alone.
    pub fn open(alloc: Global, capacity: u32, seats: u32) -> Result<TicketsOpened, AllocError>
        requires capacity { 0 < capacity }
        requires seats { 0 < seats }
        ensures capacity { IfOk result (λ opened. opened.tickets.capacity ≡ capacity) }
        ensures seats { IfOk result (λ opened. opened.tickets.queue.seats ≡ seats) }
        ensures len { IfOk result (λ opened. length opened.seats.items ≡ seats) }
        ensures queue { IfOk result (λ opened. All (λ s. s.queue ≡ opened.tickets.queue) opened.seats.items) }
        ensures fresh { IfOk result (λ opened. All (λ s. s.sight ≡ fresh seats) opened.seats.items) }
    {
        let room = Vec::with_capacity(alloc, seats as usize)?;
        let (queue, mut keeper) = RuledQueue::ruled(alloc, capacity as usize)?;
        make_room(&queue, &mut keeper, seats);
        let places = cut_seats(&queue, &mut keeper, seats, room);
        Ok(TicketsOpened {
            tickets: Tickets { queue, seats },
            seats: places,
        })
    }

    /// Puts a ticket at the end of the line, unless that is full.
    ///
    /// False means that as many tickets as there is room for were queued at a moment of the call. Then nothing was pushed. Contracts
    /// say so of a line that goes on from the one that the seat saw. A seat that is alone knows that line.
    pub fn push<R: Wait>(&self, rt: &R, seat: &mut TicketSeat, unit: u32) -> bool
        requires { seat.old.queue ≡ self.now.queue }
        ensures queue { seat.new.queue ≡ seat.old.queue }
        ensures pushed { result ≡ true → HasPushed self.now.capacity unit seat.old.sight seat.new.sight }
        ensures full { result ≡ false → WasFull self.now.capacity seat.old.sight }
        ensures same { result ≡ false → seat.new.sight ≡ seat.old.sight }
    {
        push_within::<Brand, R>(rt, &self.queue, &mut seat.pass, unit)
    }

    /// Takes the first ticket off the line, if there is one. None means that no ticket was queued at a moment of the call, of which
    /// contracts say what they say of a full line.
    pub fn pop<R: Wait>(&self, rt: &R, seat: &mut TicketSeat) -> Option<u32>
        requires { seat.old.queue ≡ self.now.queue }
        ensures queue { seat.new.queue ≡ seat.old.queue }
        ensures popped { IfSome result (λ unit. HasPopped unit seat.old.sight seat.new.sight) }
        ensures empty { IfNone result (WasEmpty seat.old.sight) }
        ensures same { IfNone result (seat.new.sight ≡ seat.old.sight) }
    {
        take_first(rt, &self.queue, &mut seat.pass)
    }

    /// Whether no ticket is queued. It doesn't wait.
    ///
    /// True means that none was queued at a moment of the call. Of false contracts say nothing.
    pub fn is_empty(&self, seat: &mut TicketSeat) -> bool
        requires { seat.old.queue ≡ self.now.queue }
        ensures same { seat.new ≡ seat.old }
        ensures empty { result ≡ true → WasEmpty seat.old.sight }
    {
        finds_none(&self.queue, &mut seat.pass)
    }

    /// Ends the queue, with all its seats in any order. Tickets that are queued are let go.
    ///
    /// There is one line that every seat has seen a beginning of. Each place of it was pushed by one seat, once, and each
    /// place that was popped was popped by one seat, once.
    pub fn finish(self, seats: Vec<TicketSeat>)
        requires queue { All (λ s. s.queue ≡ self.queue) seats.items }
        requires all { length seats.items ≡ self.queue.seats }
        ensures { ComeTo (map (λ s. s.sight) seats.items) }
    {
        let Tickets { queue, seats: _ } = self;
        let mut rest = seats.into_iter();
        let Some(first) = rest.next() else {
            unreachable!()
        };
        let mut pass = join(&queue, first, rest);
        queue.learn_as::<End>(&mut pass);
    }
}

// Joins the first seat and the others.
fn join(queue: &RuledQueue, first: TicketSeat, rest: IntoIter<TicketSeat>) -> Pass<u32, PassView>
    requires first { first.queue.table ≡ queue.now.table.shared.table_id }
    requires rest { All (λ s. s.queue.table ≡ queue.now.table.shared.table_id) (into_iter_items rest) }
    ensures seats { first.queue.seats ≡ first.sight.seats }
    ensures queue { IsPassOf queue.now result }
    ensures view { view result ≡ all_of (first.sight ∷ map (λ s. s.sight) (into_iter_items rest)) }
{
    let TicketSeat { mut pass } = first;
    for seat in rest {
        queue.absorb::<OneSeat>(&mut pass, seat.pass);
    }
    pass
}

// Puts a ticket at the end of the line, in a queue with room for so many.
fn push_within<C: Capacity, R: Wait>(
    rt: &R,
    queue: &RuledQueue,
    pass: &mut Pass<u32, PassView>,
    unit: u32,
) -> bool
    requires queue { IsPassOf queue.now pass.old }
    requires lone { view pass.old ≡ one (sight_of (view pass.old)) }
    requires room { ruled_capacity queue.now ≡ C.capacity }
    ensures queue { IsSamePass pass.old pass.new }
    ensures pushed { result ≡ true → has_pushed C.capacity (view pass.old) unit (view pass.new) }
    ensures full { result ≡ false → Held C.capacity (finds (view pass.old)) }
    ensures same { result ≡ false → view pass.new ≡ view pass.old }
{
    queue.push_as::<Push<C>, R>(rt, pass, unit).is_ok()
}

// Takes the first ticket off the line, if there is one.
fn take_first<R: Wait>(rt: &R, queue: &RuledQueue, pass: &mut Pass<u32, PassView>) -> Option<u32>
    requires queue { IsPassOf queue.now pass.old }
    requires lone { view pass.old ≡ one (sight_of (view pass.old)) }
    ensures queue { IsSamePass pass.old pass.new }
    ensures popped { IfSome result (λ unit. has_popped (view pass.old) unit (view pass.new)) }
    ensures empty { IfNone result (Held 0 (finds (view pass.old))) }
    ensures same { IfNone result (view pass.new ≡ view pass.old) }
{
    queue.pop_as::<Pop, R>(rt, pass)
}

// Whether no ticket is queued.
fn finds_none(queue: &RuledQueue, pass: &mut Pass<u32, PassView>) -> bool
    requires queue { IsPassOf queue.now pass.old }
    requires lone { view pass.old ≡ one (sight_of (view pass.old)) }
    ensures queue { IsSamePass pass.old pass.new }
    ensures same { view pass.new ≡ view pass.old }
    ensures empty { result ≡ true → Held 0 (finds (view pass.old)) }
{
    queue.is_empty_as::<Pop>(pass)
}
