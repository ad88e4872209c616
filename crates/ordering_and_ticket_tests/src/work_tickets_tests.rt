//! Tickets of work: what a caller alone can prove, and eight seats in threads of their own.
ghost use Rattle.std.specs.Prelude.{◌≡◌, ◌<◌, ℕ, List, [], ◌∷◌, ◌++◌, All, IfOk, IfSome, None, Some, length, map, true, false};
ghost use Rattle.work_tickets.specs.Sights.{fresh};

use std::alloc::{AllocError, Global};
use std::process::Abort;
use std::sync::Wait;
use std::thread;
use std::thread::Threads;
use work_tickets::{TicketSeat, Tickets, TicketsOpened};

/// A push by the only seat. It is true exactly where there is room.
fn push_alone<R: Wait>(rt: &R, tickets: &Tickets, seat: &mut TicketSeat, unit: u32) -> bool
    requires queue { seat.old.queue ≡ tickets.now.queue }
    requires alone { seat.old.sight.seats ≡ 1 }
    ensures queue { seat.new.queue ≡ tickets.now.queue }
    ensures alone { seat.new.sight.seats ≡ 1 }
    ensures room { length seat.old.sight.line.queued < tickets.now.capacity
        → (result ≡ true) × (seat.new.sight.line.queued ≡ seat.old.sight.line.queued ++ unit ∷ []) }
    ensures full { length seat.old.sight.line.queued ≡ tickets.now.capacity
        → (result ≡ false) × (seat.new.sight.line.queued ≡ seat.old.sight.line.queued) }
{
    tickets.push(rt, seat, unit)
}

/// A pop by the only seat. It gives the first ticket exactly where there is one.
fn pop_alone<R: Wait>(rt: &R, tickets: &Tickets, seat: &mut TicketSeat) -> Option<u32>
    requires queue { seat.old.queue ≡ tickets.now.queue }
    requires alone { seat.old.sight.seats ≡ 1 }
    ensures queue { seat.new.queue ≡ tickets.now.queue }
    ensures alone { seat.new.sight.seats ≡ 1 }
    ensures first { (unit : ℕ) (rest : List ℕ) → seat.old.sight.line.queued ≡ unit ∷ rest
        → (result ≡ Some unit) × (seat.new.sight.line.queued ≡ rest) }
    ensures empty { seat.old.sight.line.queued ≡ [] → (result ≡ None) × (seat.new.sight.line.queued ≡ []) }
{
    tickets.pop(rt, seat)
}

/// With room for two tickets, two are pushed and a third isn't, until one has been popped.
fn play_alone<R: Wait>(
    rt: &R,
    tickets: &Tickets,
    seat: &mut TicketSeat,
) -> ([bool; 4], [Option<u32>; 4])
    requires queue { seat.old.queue ≡ tickets.now.queue }
    requires fresh { seat.old.sight ≡ fresh 1 }
    requires two { tickets.now.capacity ≡ 2 }
    ensures queue { seat.new.queue ≡ tickets.now.queue }
    ensures pushed { result.0 ≡ true ∷ true ∷ false ∷ true ∷ [] }
    ensures popped { result.1 ≡ Some 5 ∷ Some 6 ∷ Some 7 ∷ None ∷ [] }
{
    let first = push_alone(rt, tickets, seat, 5);
    let second = push_alone(rt, tickets, seat, 6);
    let refused = push_alone(rt, tickets, seat, 7);
    let oldest = pop_alone(rt, tickets, seat);
    let third = push_alone(rt, tickets, seat, 7);
    let next = pop_alone(rt, tickets, seat);
    let last = pop_alone(rt, tickets, seat);
    let nothing = pop_alone(rt, tickets, seat);
    (
        [first, second, refused, third],
        [oldest, next, last, nothing],
    )
}

/// What `play_alone` comes to, with a queue of its own.
fn alone<R: Wait>(rt: &R, alloc: Global) -> Result<([bool; 4], [Option<u32>; 4]), AllocError>
    ensures pushed { IfOk result (λ r. r.0 ≡ true ∷ true ∷ false ∷ true ∷ []) }
    ensures popped { IfOk result (λ r. r.1 ≡ Some 5 ∷ Some 6 ∷ Some 7 ∷ None ∷ []) }
{
    let TicketsOpened { tickets, mut seats } = Tickets::open(alloc, 2, 1)?;
    let Some(mut seat) = seats.pop() else {
        unreachable!()
    };
    Ok(play_alone(rt, &tickets, &mut seat))
}

#[test]
fn a_seat_alone_sees_all(rt: HostRuntime) -> Result<(), AllocError> {
    let (pushed, popped) = alone(&rt, rt.alloc())?;
    assert!(rt; pushed == [true, true, false, true] && popped == [Some(5), Some(6), Some(7), None]);
    Ok(())
}

const WORKERS: u32 = 8;

/// How many tickets each worker pushes.
const EACH: u32 = 100_000;

/// A worker with its seat, the number of its first unit, and the units that it has popped.
#[derive(Drop)]
struct Worker {
    seat: TicketSeat,
    first: u32,
    popped: Vec<u32>,
}

impl Worker {
    /// Takes a ticket off the line, and tells whether there was one.
    fn take<R: Wait + Abort>(&mut self, rt: &R, tickets: &Tickets) -> bool
        requires { self.old.seat.queue ≡ tickets.now.queue }
        ensures { self.new.seat.queue ≡ tickets.now.queue }
    {
        let Some(unit) = tickets.pop(rt, &mut self.seat) else {
            return false;
        };
        assert!(rt; self.popped.push(unit).is_ok());
        true
    }

    /// Puts a ticket at the end of the line, and takes others off it until there is room.
    fn put<R: Wait + Abort>(&mut self, rt: &R, tickets: &Tickets, unit: u32)
        requires { self.old.seat.queue ≡ tickets.now.queue }
        ensures { self.new.seat.queue ≡ tickets.now.queue }
    {
        for _ in rt.forever() {
            if tickets.push(rt, &mut self.seat, unit) {
                break;
            }
            self.take(rt, tickets);
        }
    }

    /// Takes tickets until none is left.
    fn take_rest<R: Wait + Abort>(&mut self, rt: &R, tickets: &Tickets)
        requires { self.old.seat.queue ≡ tickets.now.queue }
        ensures { self.new.seat.queue ≡ tickets.now.queue }
    {
        for _ in rt.forever() {
            if !self.take(rt, tickets) {
                break;
            }
        }
    }

    /// Pushes its own tickets, takes one off the line for every other one, and then those that are left. Whoever is the last
    /// to find the line empty has been behind all pushes.
    fn work<R: Wait + Abort>(&mut self, rt: &R, tickets: &Tickets)
        requires { self.old.seat.queue ≡ tickets.now.queue }
        ensures { self.new.seat.queue ≡ tickets.now.queue }
    {
        for number in 0..EACH {
            self.put(rt, tickets, self.first.wrapping_add(number));
            if number % 2 == 0 {
                self.take(rt, tickets);
            }
        }
        self.take_rest(rt, tickets);
    }
}

/// A worker for each seat.
fn workers_of(
    alloc: Global,
    tickets: &Tickets,
    seats: Vec<TicketSeat>,
) -> Result<Vec<Worker>, AllocError>
    requires { All (λ s. s.queue ≡ tickets.now.queue) seats.items }
    ensures queue { IfOk result (λ workers. All (λ w. w.seat.queue ≡ tickets.now.queue) workers.items) }
    ensures len { IfOk result (λ workers. length workers.items ≡ length seats.items) }
{
    let mut workers = Vec::new(alloc);
    let mut first = 0u32;
    for seat in seats {
        let popped = Vec::new(alloc);
        workers.push(Worker {
            seat,
            first,
            popped,
        })?;
        first = first.wrapping_add(EACH);
    }
    Ok(workers)
}

/// Has each worker work in a thread of its own.
fn work_in_threads<R: Threads + Wait + Abort + Sync>(
    rt: &R,
    tickets: &Tickets,
    workers: &mut [Worker],
)
    requires { All (λ w. w.seat.queue ≡ tickets.now.queue) workers.old }
    ensures queue { All (λ w. w.seat.queue ≡ tickets.now.queue) workers.new }
    ensures len { length workers.new ≡ length workers.old }
{
    let threads = workers.len().max(1);
    thread::for_each_mut(
        rt,
        workers,
        threads,
        &|_, worker: &mut Worker| { worker.work(rt, tickets) },
    );
}

/// Whether a worker has popped the units of each worker in the order of their pushes, and none that was popped before.
fn popped_in_order(popped: &[u32], came: &mut [bool]) -> bool {
    let mut last = [None; WORKERS as usize];
    for unit in popped {
        let place = *unit as usize;
        let pusher = place / EACH as usize;
        if place >= came.len() || pusher >= last.len() || came[place] {
            return false;
        }
        if matches!(last[pusher], Some(before) if *unit <= before) {
            return false;
        }
        came[place] = true;
        last[pusher] = Some(*unit);
    }
    true
}

/// The seats of the workers.
fn seats_of(
    alloc: Global,
    tickets: &Tickets,
    workers: Vec<Worker>,
) -> Result<Vec<TicketSeat>, AllocError>
    requires { All (λ w. w.seat.queue ≡ tickets.now.queue) workers.items }
    ensures queue { IfOk result (λ seats. All (λ s. s.queue ≡ tickets.now.queue) seats.items) }
    ensures len { IfOk result (λ seats. length seats.items ≡ length workers.items) }
{
    let mut seats = Vec::new(alloc);
    for Worker { seat, .. } in workers {
        seats.push(seat)?;
    }
    Ok(seats)
}

/// That none of so many units came. Its contract says nothing, so that no proof writes out so long a list.
fn none_yet(alloc: Global, units: u32) -> Result<Vec<bool>, AllocError> {
    vec![in alloc; false; units as usize]
}

/// Whether each unit came.
fn all_came(came: &[bool]) -> bool {
    for here in came {
        if !*here {
            return false;
        }
    }
    true
}

#[test]
fn each_ticket_of_eight_seats_comes_once(rt: HostRuntime) -> Result<(), AllocError> {
    let TicketsOpened { tickets, seats } = Tickets::open(rt.alloc(), 16, WORKERS)?;
    let mut workers = workers_of(rt.alloc(), &tickets, seats)?;
    work_in_threads(&rt, &tickets, &mut workers);
    let mut came = none_yet(rt.alloc(), WORKERS * EACH)?;
    for worker in &workers {
        assert!(rt; popped_in_order(&worker.popped, &mut came));
    }
    assert!(rt; all_came(&came));
    let seats = seats_of(rt.alloc(), &tickets, workers)?;
    tickets.finish(seats);
    Ok(())
}
