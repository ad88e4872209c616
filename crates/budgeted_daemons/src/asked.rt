//! What the items ask for.
ghost use Rattle.std.specs.Prelude.{◌≡◌, IfOk, true};
ghost use Rattle.item_actions.specs.Forms.{is_file_name};
ghost use Rattle.memory_budget.specs.Waiting.{AsksProcess};

use anyhow::{Result, bail};
use daemon_requirements::{Isolation, RequirementFields, Requirements, Work};
use item_actions::{ItemAction, KeepAlive, Text, is_file_name};
use std::alloc::Global;

/// The heaps that items ask for in MB, one after the other. Two of them are within the budget together, and no three.
static HEAPS: [u32; 4] = [550, 600, 700, 800];

// A worker process of this program with this heap. It stands among the words that the process is called with for
// bench/memory_budget.py alone: no process is told its own.
fn requirements(alloc: Global, heap_mb: u32) -> Result<Requirements> {
    let word = format!(in alloc; "-Xmx{heap_mb}m")?;
    let mut args = Vec::new(alloc);
    args.push(Text::from_str(alloc, word.as_str())?)?;
    let fields = RequirementFields {
        executable: Text::from_str(alloc, "self")?,
        heap_mb,
        args,
        properties: Vec::new(alloc),
        variables: Vec::new(alloc),
        debug: false,
        assertions: true,
        encoding: Text::from_str(alloc, "UTF-8")?,
        keep: KeepAlive::Session,
    };
    match Requirements::of(fields) {
        Ok(requirements) => Ok(requirements),
        Err(_) => bail!("the heap is out of range"),
    }
}

/// The item with this number: how many lines a.txt has.
pub(crate) fn work(alloc: Global, unit: u32) -> Result<Work>
    ensures form { IfOk result (λ work. is_file_name work.file ≡ true) }
    ensures process { IfOk result (λ work. AsksProcess work.isolation) }
{
    let file = Text::from_str(alloc, "a.txt")?;
    if !is_file_name(file.bytes()) {
        bail!("the file's name has another form");
    }
    let asked = requirements(alloc, HEAPS[unit as usize % 4])?;
    Ok(Work {
        action: ItemAction::Lines,
        file,
        isolation: Isolation::Process(asked),
    })
}
