ghost use Rattle.std.specs.Prelude.{◌≡◌, ◌≢◌, IfSome};
ghost use Rattle.item_actions.specs.Value.{IsHonest, value_on};
ghost use Rattle.item_actions.specs.declared.outcomes.Outcome.TheVariants as outcomes;
ghost use Rattle.file_access.specs.ReadView.{IsOutcomeCounted, and_read};

use crate::files::{DeskFail, Files};
use item_actions::{ItemAction, Outcome, Text};
use std::alloc::Global;

/// The outcome of an action on the file of this name, which is read once.
///
/// Where the files are known it is the action's value on that file, NotThere or TooLong; else Fault, where the files
/// failed, or NoMemory. Their count of faults rises by one at Fault, and at no other outcome.
pub fn work_out<F: Files>(alloc: Global, action: &ItemAction, name: &Text, files: &mut F) -> Outcome
    ensures files { F.files files.new ≡ F.files files.old }
    ensures keeps { F.keeps files.old files.new }
    ensures read { F.reads files.new ≡ and_read (F.reads files.old) }
    ensures ran { result ≢ outcomes.Skipped }
    ensures counted { IsOutcomeCounted (F.faults files.old) (F.faults files.new) result }
    ensures honest { IfSome (F.files files.old) (λ known. IsHonest result (value_on known action.now name.now)) }
{
    match files.act_on(alloc, action, name) {
        Ok(outcome) => outcome,
        Err(DeskFail::Failed) => Outcome::Fault,
        Err(DeskFail::NoMemory) => Outcome::NoMemory,
    }
}
