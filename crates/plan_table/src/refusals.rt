//! Why a text is no plan, and where.
ghost use Rattle.std.specs.Prelude.{◌≡◌};
ghost use Rattle.plan_table.specs.declared.refusals.PlanFail.TheVariants.{NoMemory};

use std::alloc::AllocError;
use thiserror::Error;

/// A part of a plan.
#[derive(Clone, Copy, Debug)]
pub enum Part {
    /// The document itself.
    Plan,
    /// A `[[project]]`.
    Project,
    /// A `[[task]]` with its actions and their items.
    Task,
    /// A `[[requirements]]`.
    Requirements,
}

/// Where a refusal holds.
#[derive(Clone, Copy, Debug)]
pub struct Place {
    /// The part of the plan.
    pub part: Part,
    /// The number among the parts of its sort, from 0, in the order in which they stand. That of the plan is 0.
    pub number: u32,
}

/// What there is too much of.
#[derive(Clone, Copy, Debug)]
pub enum Which {
    /// The projects of a plan.
    Projects,
    /// The tasks of a plan.
    Tasks,
    /// The units of a plan.
    Units,
    /// The requirements of a plan.
    Requirements,
    /// The actions of a task.
    Actions,
    /// The names in a task's `after`.
    After,
    /// The arguments, properties or variables of requirements.
    Lists,
}

/// Why a text is no plan. Of all that holds the answer is the one that stands first here, and of its places the
/// first: the plan, then the projects, the tasks and the requirements, each by number.
#[derive(Clone, Copy, Debug)]
pub enum PlanRefusal {
    /// The text has more than 4,194,304 bytes.
    TooLong,
    /// The text is no TOML document.
    NotToml,
    /// A table has a key that isn't known there, a `needle` where `do` isn't `count`, or `requirements` where
    /// `isolation` isn't `process`.
    UnknownKey(Place),
    /// A value, or a member of a list, has another type, or `wait`, `do`, `isolation` or `keep_alive` is another word.
    WrongType(Place),
    /// A required key isn't there, an action has no item, or an item that counts has no needle.
    Missing(Place),
    /// A text is outside its form.
    BadName(Place),
    /// A project, task or requirements has the name of an earlier one of its sort.
    Twice(Place),
    /// There is no project of the task's `project`.
    NoSuchProject(Place),
    /// There is no task of a name in the task's `after`.
    NoSuchTask(Place),
    /// The task comes after itself, through others or not, or after such a task.
    Cycle(Place),
    /// An action that isn't its task's last has `release`.
    ReleaseNotLast(Place),
    /// An item has `classloader`.
    ClassLoader(Place),
    /// There is more of something than a plan may have.
    TooMany(Which, Place),
    /// The requirements of an item aren't there, or a heap is outside 1 to 65,536 MB.
    BadRequirements(Place),
}

/// Why no plan was read.
#[derive(Clone, Copy, Debug, Error)]
pub enum PlanFail {
    /// The text is no plan.
    #[error("the text is no plan: {0:?}")]
    Refused(PlanRefusal),
    /// There was no memory to read the text, or to keep what was read.
    #[error("out of memory")]
    NoMemory,
}

impl From<AllocError> for PlanFail {
    ghost from_gives = { λ _ e. e ≡ NoMemory };

    fn from(_error: AllocError) -> PlanFail {
        PlanFail::NoMemory
    }
}
