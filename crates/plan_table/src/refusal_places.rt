//! Where a refusal holds.
ghost use Rattle.std.specs.Prelude.{◌≡◌, ◌<◌, ◌^◌};
ghost use Rattle.plan_table.specs.First.{place_of};
ghost use Rattle.plan_table.specs.Search.{place_at};

use crate::refusals::{Part, Place, PlanRefusal};

impl Place {
    /// The place of the part of this number. `read_document` gives documents whose parts have such numbers.
    pub fn new(part: Part, number: usize) -> Place
        requires { number < 2 ^ 32 }
        ensures { result ≡ place_at part number }
    {
        Place {
            part,
            number: number as u32,
        }
    }
}

impl PlanRefusal {
    /// The place at which the refusal holds, and the plan where the whole text is meant.
    pub fn place(&self) -> Place
        ensures { result ≡ place_of self.now }
    {
        match self {
            PlanRefusal::TooLong | PlanRefusal::NotToml => Place {
                part: Part::Plan,
                number: 0,
            },
            PlanRefusal::UnknownKey(place)
            | PlanRefusal::WrongType(place)
            | PlanRefusal::Missing(place)
            | PlanRefusal::BadName(place)
            | PlanRefusal::Twice(place)
            | PlanRefusal::NoSuchProject(place)
            | PlanRefusal::NoSuchTask(place)
            | PlanRefusal::Cycle(place)
            | PlanRefusal::ReleaseNotLast(place)
            | PlanRefusal::ClassLoader(place)
            | PlanRefusal::TooMany(_, place)
            | PlanRefusal::BadRequirements(place) => *place,
        }
    }
}
