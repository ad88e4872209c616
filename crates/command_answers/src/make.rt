//! The command `make`.
ghost use Rattle.command_answers.specs.Make.{HasMade};

use crate::status::Status;
use file_access::{Failed, Sink};
use item_actions::Text;

/// Prints the plan that is made from a number, in which each item is of one file. It takes no memory.
///
/// It ends with Passed where `out` took the whole plan, and else with SinkFault, where it took the beginning.
pub fn make_plan<O: Sink>(seed: u64, file: &Text, out: &mut O) -> Status
    ensures { HasMade seed file.now (O.seen out.old) (O.seen out.new) result }
{
    match generated_plan::make_plan(seed, file, out) {
        Ok(()) => Status::Passed,
        Err(Failed) => Status::SinkFault,
    }
}
