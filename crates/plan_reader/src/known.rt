//! What the parts of a plan refer to.
ghost use Rattle.std.specs.Prelude.{◌≡◌, None, IfOk, option_map, option_and_then, slice_get, position};
ghost use Rattle.std.specs.Str.{bytes_eq};
ghost use Rattle.plan_reader.specs.Planned.{default_requirements, requirements_named};

use crate::name_table::NameTable;
use daemon_requirements::Requirements;
use std::alloc::{AllocError, Global};

/// The names of a plan's projects and requirements, and the requirements by number.
#[derive(Drop)]
pub(crate) struct Known<'k, 'a> {
    pub projects: &'k NameTable<'a>,
    pub requirements: &'k NameTable<'a>,
    pub profiles: &'k [Requirements],
    /// What an item asks for that names no requirements.
    pub default: &'k Requirements,
}

impl Known<'_, '_> {
    // The requirements of this name, if there are any.
    fn profile(&self, name: &str) -> Option<&Requirements>
        ensures { option_map (λ p. p.now) result ≡ option_and_then (slice_get self.now.profiles.now) (position (bytes_eq name.now) self.now.requirements.now) }
    {
        match self.requirements.place_of(name) {
            Some(number) => self.profiles.get(number),
            None => None,
        }
    }

    /// The requirements of this name, and the default where there is none: a copy, which shares their texts.
    pub(crate) fn copy_of(
        &self,
        alloc: Global,
        name: Option<&str>,
    ) -> Result<Requirements, AllocError>
        requires { self.now.default.now ≡ default_requirements }
        ensures { IfOk result (λ p. p ≡ requirements_named self.now.requirements.now self.now.profiles.now (option_map (λ s. s.now) name.entry)) }
    {
        let named = match name {
            Some(name) => self.profile(name),
            None => None,
        };
        named.unwrap_or(self.default).copy(alloc)
    }
}
