//! Where a worker of a plan is, by what its pass shows.
ghost use Rattle.std.specs.Prelude.{◌≡◌};
ghost use Rattle.planned_work.specs.Places.{action_in, closes, has_any, may_next, place_of, task_in, unit_in};

use coordination::Pass;
use resource_lock::MarkId;

/// Where a worker of a plan is.
#[derive(Clone, Copy, PartialEq, Eq)]
pub enum Place {
    /// It has nothing.
    Idle,
    /// It has a lease or locks, and no part in the plan.
    Outside,
    /// It runs this task: it works on it, or has given its lock and its lease back for good.
    InTask(u32),
    /// It runs this fetch of its task, with neither lease nor lock.
    Fetch(u32),
    /// It waits for the items of this action.
    Parked(u32),
    /// It runs this item.
    Item(u32),
    /// It runs this item, while it waits for the items of this action.
    ItemIn(u32, u32),
    /// It is in a blocking section that isn't for a fetch.
    Section,
}

/// Where a worker is.
pub fn place_of(pass: &Pass) -> Place
    ensures { result ≡ place_of pass.now.sight }
{
    let marks = pass.claimed();
    let unit = unit_in(marks);
    if pass.blocked() {
        return match unit {
            Some(unit) => Place::Fetch(unit),
            None => Place::Section,
        };
    }
    match (unit, action_in(marks), task_in(marks)) {
        (Some(unit), Some(action), _) => Place::ItemIn(unit, action),
        (Some(unit), None, _) => Place::Item(unit),
        (None, Some(action), _) => Place::Parked(action),
        (None, None, Some(task)) => Place::InTask(task),
        (None, None, None) if has_any(pass) => Place::Outside,
        (None, None, None) => Place::Idle,
    }
}

impl Place {
    /// Whether a worker may ask there what it does next.
    pub fn may_next(self) -> bool
        ensures { result ≡ may_next self }
    {
        matches!(self, Place::Idle | Place::InTask(_) | Place::Parked(_))
    }

    /// Whether a worker has a unit there that it may close.
    pub fn closes(self) -> bool
        ensures { result ≡ closes self }
    {
        matches!(self, Place::Item(_) | Place::ItemIn(_, _) | Place::Fetch(_))
    }
}

// Whether a worker has a lease or a lock.
fn has_any(pass: &Pass) -> bool
    ensures { result ≡ has_any pass.now.sight }
{
    pass.has_lease() || !pass.locks().is_empty()
}

// The first unit among marks.
fn unit_in(marks: &[MarkId]) -> Option<u32>
    ensures { result ≡ unit_in marks.now }
{
    for mark in marks {
        match *mark {
            MarkId::Unit(unit) => return Some(unit),
            MarkId::Task(_) | MarkId::Action(_) => {}
        }
    }
    None
}

// The first action among marks.
fn action_in(marks: &[MarkId]) -> Option<u32>
    ensures { result ≡ action_in marks.now }
{
    for mark in marks {
        match *mark {
            MarkId::Action(action) => return Some(action),
            MarkId::Task(_) | MarkId::Unit(_) => {}
        }
    }
    None
}

// The first task among marks.
fn task_in(marks: &[MarkId]) -> Option<u32>
    ensures { result ≡ task_in marks.now }
{
    for mark in marks {
        match *mark {
            MarkId::Task(task) => return Some(task),
            MarkId::Action(_) | MarkId::Unit(_) => {}
        }
    }
    None
}
