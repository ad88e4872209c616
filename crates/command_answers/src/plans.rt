//! Reading a plan by its name.
ghost use Rattle.std.specs.Prelude.{◌≡◌, ◌≤◌, IfErr, IfOk};
ghost use Rattle.command_answers.specs.Causes.{IsFileCause, IsFileOf, OrNoMemory};

use crate::status::Status;
use file_access::{DeskFail, Files, Read};
use item_actions::{MAX_FILE_BYTES, Text};
use plan_reader::{Plan, PlanFail, PlanRefusal, read_plan};
use std::alloc::Global;

/// The plan of this name, or the refusal.
pub(crate) fn read<F: Files>(alloc: Global, name: &Text, desk: &mut F) -> Result<Plan, Status>
    ensures files { F.files desk.new ≡ F.files desk.old }
    ensures keeps { F.keeps desk.old desk.new }
    ensures count { F.faults desk.old ≤ F.faults desk.new }
    ensures plan { IfOk result (λ plan. IsFileOf (F.files desk.old) name.now plan) }
    ensures refused { IfErr result (λ status. OrNoMemory (IsFileCause (F.files desk.old) (F.faults desk.old) (F.faults desk.new) name.now status) status) }
{
    match desk.read(alloc, name, MAX_FILE_BYTES) {
        Ok(Read::Bytes(bytes)) => match read_plan(alloc, bytes.as_bytes()) {
            Ok(plan) => Ok(plan),
            Err(PlanFail::Refused(refusal)) => Err(Status::BadPlan(refusal)),
            Err(PlanFail::NoMemory) => Err(Status::NoMemory),
        },
        Ok(Read::TooLong) => Err(Status::BadPlan(PlanRefusal::TooLong)),
        Ok(Read::NotThere) => Err(Status::NoPlan),
        Err(DeskFail::Failed) => Err(Status::PlanFault),
        Err(DeskFail::NoMemory) => Err(Status::NoMemory),
    }
}
