//! Requirements, and why fields are none.
ghost use Rattle.std.specs.Prelude.{◌≡◌, ◌↔◌, IsTrue, IfOk, IfErr, MatchOption};
ghost use Rattle.std.specs.Result.{OkIff};
ghost use Rattle.daemon_requirements.specs.RequirementsView.{requirements_view, IsRequirements};
ghost use Rattle.daemon_requirements.specs.Covers.{Covers};
ghost use Rattle.daemon_requirements.specs.Refusals.{IsCauseOf};

use crate::equality::are_same_fields;
use crate::fields::RequirementFields;
use crate::held_fields::HeldFields;
use crate::names::first_twice;
use crate::rules::{Field, REQUIREMENT_TABLE};
use std::alloc::{AllocError, Global};
use std::marker::Model;
use thiserror::Error;

/// The greatest size of a heap, in MB.
pub const MAX_HEAP_MB: u32 = 65_536;

/// A list of pairs in `RequirementFields`.
#[derive(Clone, Copy, Debug, PartialEq, Eq)]
pub enum PairList {
    /// The system properties.
    Properties,
    /// The environment variables.
    Variables,
}

/// Why fields are no requirements.
#[derive(Clone, Copy, Debug, PartialEq, Eq, Error)]
pub enum RequirementRefusal {
    /// The heap is outside 1 to `MAX_HEAP_MB`.
    #[error("the heap is outside 1 to {max} MB", max = MAX_HEAP_MB)]
    HeapRange,
    /// In this list the pair at this position, counted from 0, is the first that has the name of an earlier
    /// one.
    #[error("the pair at place {1} of its list has the name of an earlier one")]
    TwiceNamed(PairList, usize),
}

/// What a daemon is started with, or what an item asks of it: a heap of 1 to `MAX_HEAP_MB`, and
/// properties and variables of distinct names.
pub struct Requirements {
    fields: HeldFields,
}

// By hand, so that crates that let one go call this, in place of proving what it does anew.
impl Drop for Requirements {
    fn drop(self) {
        let Requirements { fields: _ } = self;
    }
}

impl Model for Requirements {
    ghost use Rattle.daemon_requirements.specs.RequirementsView.{RequirementsView, requirements_view, IsRequirements};

    ghost Value = { RequirementsView };

    ghost view = { λ r. requirements_view r.fields };

    ghost invariant = { λ r. IsRequirements (requirements_view r.fields) };
}

impl Requirements {
    /// The requirements with these fields; it takes no memory. HeapRange comes first, exactly where the heap is
    /// outside 1 to `MAX_HEAP_MB`; then TwiceNamed for the properties, and then for the variables. Refused fields
    /// are dropped.
    pub fn of(fields: RequirementFields) -> Result<Requirements, RequirementRefusal>
        ensures made { OkIff result (IsRequirements (requirements_view fields)) (requirements_view fields) }
        ensures refused { IfErr result (λ refusal. IsCauseOf refusal (requirements_view fields)) }
    {
        match refusal_of(&fields) {
            Some(refusal) => Err(refusal),
            None => Ok(Requirements {
                fields: HeldFields::of(fields),
            }),
        }
    }

    /// Whether a daemon that was started with these requirements serves for `asked`: field by field, by the
    /// table of rules. It takes no memory.
    pub fn covers(&self, asked: &Requirements) -> bool
        ensures { IsTrue result ↔ Covers self.now asked.now }
    {
        let daemon = self.fields.get();
        let asked = asked.fields.get();
        // Each field by the rule at its position in the table.
        macro_rules! compare_each {
            ($($field:ident),*) => {
                let [$($field),*] = REQUIREMENT_TABLE.rules;
                $(if !daemon.$field.serves($field, &asked.$field) {
                    return false;
                })*
            };
        }
        compare_each!(
            executable, heap_mb, args, properties, variables, debug, assertions, encoding, keep
        );
        true
    }

    /// Whether the requirements are equal: texts byte for byte, and lists in the same order. It takes no memory.
    pub fn equals(&self, other: &Requirements) -> bool
        ensures { IsTrue result ↔ (self.now ≡ other.now) }
    {
        are_same_fields(self.fields.get(), other.fields.get())
    }

    /// The fields.
    pub fn fields(&self) -> &RequirementFields
        ensures value { requirements_view result.now ≡ self.now }
        ensures requirements { IsRequirements self.now }
    {
        self.fields.get()
    }

    /// Equal requirements. Those that were shared take no memory: the copy shares their texts too. The error is want of memory
    /// alone.
    pub fn copy(&self, alloc: Global) -> Result<Requirements, AllocError>
        ensures { IfOk result (λ copy. copy ≡ self.now) }
    {
        let fields = self.fields.copy(alloc)?;
        Ok(Requirements { fields })
    }

    /// Keeps the requirements in one place for them and all copies that are made of them, also in other threads. The error is want
    /// of memory alone, and the requirements are then dropped.
    pub fn share(self, alloc: Global) -> Result<Requirements, AllocError>
        ensures { IfOk result (λ shared. shared ≡ self) }
    {
        let Requirements { fields } = self;
        let fields = fields.share(alloc)?;
        Ok(Requirements { fields })
    }
}

// Why the fields are no requirements; None where they are.
fn refusal_of(fields: &RequirementFields) -> Option<RequirementRefusal>
    ensures { MatchOption result
        (IsRequirements (requirements_view fields.now))
        (λ refusal. IsCauseOf refusal (requirements_view fields.now)) }
{
    if fields.heap_mb < 1 || fields.heap_mb > MAX_HEAP_MB {
        return Some(RequirementRefusal::HeapRange);
    }
    if let Some(place) = first_twice(&fields.properties) {
        return Some(RequirementRefusal::TwiceNamed(PairList::Properties, place));
    }
    if let Some(place) = first_twice(&fields.variables) {
        return Some(RequirementRefusal::TwiceNamed(PairList::Variables, place));
    }
    None
}
