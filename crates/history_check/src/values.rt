//! What a unit gives today.
ghost use Rattle.std.specs.Prelude.{◌≡◌, ◌↔◌, IsTrue, IfOk, IfSome, Some};
ghost use Rattle.item_actions.specs.Value.{IsHonest};
ghost use Rattle.plan_reader.specs.Units.{unit_view, value_in};
ghost use Rattle.file_access.specs.ReadView.{IsFaultCounted};

use file_access::{DeskFail, Files};
use item_actions::{ItemAction, Outcome};
use plan_reader::UnitWork;
use std::alloc::Global;

/// What a unit gives by its file, which is read in this thread, also where the item ran in a process.
pub(crate) fn unit_value<F: Files>(
    alloc: Global,
    work: UnitWork<'_>,
    files: &mut F,
) -> Result<Outcome, DeskFail>
    ensures files { F.files files.new ≡ F.files files.old }
    ensures keeps { F.keeps files.old files.new }
    ensures counted { IsFaultCounted (F.faults files.old) (F.faults files.new) result }
    ensures value { IfSome (F.files files.old) (λ known. IfOk result (λ o. o ≡ value_in known (Some (unit_view work.entry)))) }
{
    match work {
        UnitWork::Fetch(file) => files.act_on(alloc, &ItemAction::Bytes, file),
        UnitWork::Item(work) => files.act_on(alloc, &work.action, &work.file),
    }
}

/// Whether a recorded outcome is the value, or says that the outside failed or that there was no memory.
pub(crate) fn is_honest(recorded: Outcome, value: Outcome) -> bool
    ensures { IsTrue result ↔ IsHonest recorded value }
{
    recorded == value || recorded == Outcome::Fault || recorded == Outcome::NoMemory
}
