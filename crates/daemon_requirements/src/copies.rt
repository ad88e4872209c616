ghost use Rattle.std.specs.Prelude.{◌≡◌, IfOk};
ghost use Rattle.daemon_requirements.specs.RequirementsView.{requirements_view};

use crate::fields::{Pair, RequirementFields};
use item_actions::Text;
use std::alloc::{AllocError, Global};

/// Fields with the same texts and numbers.
pub(crate) fn copy_fields(
    alloc: Global,
    fields: &RequirementFields,
) -> Result<RequirementFields, AllocError>
    ensures { IfOk result (λ f. requirements_view f ≡ requirements_view fields.now) }
{
    Ok(RequirementFields {
        executable: fields.executable.copy(alloc)?,
        heap_mb: fields.heap_mb,
        args: copy_texts(alloc, &fields.args)?,
        properties: copy_pairs(alloc, &fields.properties)?,
        variables: copy_pairs(alloc, &fields.variables)?,
        debug: fields.debug,
        assertions: fields.assertions,
        encoding: fields.encoding.copy(alloc)?,
        keep: fields.keep,
    })
}

// A copy of each text, in their order.
fn copy_texts(alloc: Global, texts: &[Text]) -> Result<Vec<Text>, AllocError>
    ensures { IfOk result (λ copies. copies.items ≡ texts.now) }
{
    let mut copies = Vec::with_capacity(alloc, texts.len())?;
    for text in texts {
        copies.push(text.copy(alloc)?)?;
    }
    Ok(copies)
}

// A copy of each pair, in their order.
fn copy_pairs(alloc: Global, pairs: &[Pair]) -> Result<Vec<Pair>, AllocError>
    ensures { IfOk result (λ copies. copies.items ≡ pairs.now) }
{
    let mut copies = Vec::with_capacity(alloc, pairs.len())?;
    for pair in pairs {
        copies.push(copy_pair(alloc, pair)?)?;
    }
    Ok(copies)
}

// A copy of a pair.
fn copy_pair(alloc: Global, pair: &Pair) -> Result<Pair, AllocError>
    ensures { IfOk result (λ copy. copy ≡ pair.now) }
{
    Ok(Pair {
        name: pair.name.copy(alloc)?,
        value: pair.value.copy(alloc)?,
    })
}
