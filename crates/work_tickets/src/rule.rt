//! The rule of the queue, and what it is told in. None of these types has a value: they are for contracts alone.
ghost use Rattle.work_tickets.specs.Sights.{both_views, first_keeper, fresh, keeper, keeper_of_more, keeper_of_rest, nobody, one};
ghost use Rattle.work_tickets.specs.Rule.{Orderly, has_popped, has_pushed, come_to, finds};

use crossbeam_queue::protocol::{Join, Lesson, Outcome, Protocol, Split};
use std::collections::LinkedList;
use std::marker::{Brand, PhantomData};

/// The line of tickets at a moment.
pub struct Line {
    /// The units that were popped, in this order.
    pub popped: LinkedList<u32>,
    /// The units that are queued behind them, the first one first.
    pub queued: LinkedList<u32>,
}

/// What a seat has seen of the line, and what it has done.
pub struct Sight {
    /// How many seats there are.
    pub seats: u32,
    /// The line as the seat's last push or pop left it.
    pub line: Line,
    /// The places of the seat's own pushes among all that were pushed.
    pub pushes: LinkedList<u64>,
    /// The places of the seat's own pops among them.
    pub pops: LinkedList<u64>,
}

/// What a pass of the queue shows: the sights of its seats, and how many more can be cut off it.
pub struct PassView {
    /// How many seats there are to be, where some can be cut off.
    pub seats: u32,
    /// How many can be cut off.
    pub uncut: u32,
    /// The sights.
    pub sights: LinkedList<Sight>,
}

/// The rule of the queue.
pub struct FirstInFirstOut;

impl Protocol<u32, PassView> for FirstInFirstOut {
    ghost holds = { Orderly };

    ghost first = { first_keeper };
}

/// Makes room for one seat more, before the first is cut off.
pub struct OneMore;

impl Split<PassView> for OneMore {
    ghost left = { keeper_of_more };

    ghost right = { λ _. nobody };
}

/// Cuts a seat off, and joins the sights of two passes.
pub struct OneSeat;

impl Split<PassView> for OneSeat {
    ghost left = { keeper_of_rest };

    ghost right = { λ v. one (fresh v.seats) };
}

impl Join<PassView> for OneSeat {
    ghost both = { both_views };

    ghost spent = { nobody };
}

/// How many tickets there is room for. Each push picks it: the rule has no word for it.
pub trait Capacity {
    ghost use Rattle.std.specs.Prelude.{ℕ};

    ghost capacity: { ℕ };
}

impl Capacity for Brand {
    ghost capacity = { 0 };
}

/// A push, or the line that was full.
pub struct Push<C> {
    room: PhantomData<C>,
}

impl<C: Capacity> Outcome<u32, PassView> for Push<C> {
    ghost then = { has_pushed C.capacity };
}

impl<C: Capacity> Lesson<u32, PassView> for Push<C> {
    ghost fact = { finds };
}

/// A pop, or the line that was empty.
pub struct Pop;

impl Outcome<u32, PassView> for Pop {
    ghost then = { has_popped };
}

impl Lesson<u32, PassView> for Pop {
    ghost fact = { finds };
}

/// What all seats come to.
pub struct End;

impl Lesson<u32, PassView> for End {
    ghost fact = { come_to };
}
