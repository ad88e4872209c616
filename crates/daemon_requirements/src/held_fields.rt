//! Fields that several requirements may share.
ghost use Rattle.std.specs.Prelude.{◌≡◌, IfOk};
ghost use Rattle.daemon_requirements.specs.RequirementsView.{requirements_view};

use crate::copies::copy_fields;
use crate::fields::RequirementFields;
use std::alloc::{AllocError, Global};
use std::marker::Model;
use std::sync::Arc;

/// Where fields lie.
#[derive(Drop)]
pub(crate) enum Held {
    /// With one value alone.
    Own(RequirementFields),
    /// With all values that were copied from one that was shared.
    Shared(Arc<RequirementFields>),
}

/// Fields of one value, or of several that share them.
#[derive(Drop)]
pub(crate) struct HeldFields {
    held: Held,
}

impl Model for HeldFields {
    ghost use Rattle.daemon_requirements.specs.declared.fields.RequirementFields.{RequirementFields};
    ghost use Rattle.daemon_requirements.specs.HeldFieldsView.{fields_in};

    ghost Value = { RequirementFields };

    ghost view = { λ h. fields_in h.held };
}

impl HeldFields {
    /// These fields, which nobody shares; it takes no memory.
    pub(crate) fn of(fields: RequirementFields) -> HeldFields
        ensures { result ≡ fields }
    {
        HeldFields {
            held: Held::Own(fields),
        }
    }

    /// The fields.
    pub(crate) fn get(&self) -> &RequirementFields
        ensures { result.now ≡ self.now }
    {
        match &self.held {
            Held::Own(fields) => fields,
            Held::Shared(fields) => fields,
        }
    }

    /// Keeps the fields so that copies of them take no memory from now on. The error is want of memory alone, and the fields are
    /// then dropped.
    pub(crate) fn share(self, alloc: Global) -> Result<HeldFields, AllocError>
        ensures { IfOk result (λ shared. shared ≡ self) }
    {
        let held = match self.held {
            Held::Own(fields) => Held::Shared(Arc::new(alloc, fields)?),
            Held::Shared(fields) => Held::Shared(fields),
        };
        Ok(HeldFields { held })
    }

    /// Equal fields. Those that are shared take no memory: the copy shares them too. The error is want of memory alone.
    pub(crate) fn copy(&self, alloc: Global) -> Result<HeldFields, AllocError>
        ensures { IfOk result (λ copy. requirements_view copy ≡ requirements_view self.now) }
    {
        let held = match &self.held {
            Held::Own(fields) => Held::Own(copy_fields(alloc, fields)?),
            Held::Shared(fields) => Held::Shared(Arc::try_clone(fields)?),
        };
        Ok(HeldFields { held })
    }
}
