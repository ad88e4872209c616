//! A recorded run that is driven again.
ghost use Rattle.std.specs.Prelude.{◌≡◌};
ghost use Rattle.history_text.specs.Fitting.{HeadFits};
ghost use Rattle.history_text.specs.HistoryView.{history_view};
ghost use Rattle.history_check.specs.Driving.{IsAgainCounted, IsDrivenAgain, ReadsFor};

use crate::whole::admit;
use file_access::Files;
use history_check::{Again, drive_admitted};
use history_text::History;
use plan_reader::Plan;
use std::alloc::{AllocError, Global};

/// Drives a recorded run of a plan again whose history was read, as `drive_input` does one whose history stands in an input.
///
/// It is for histories of 1 to 32 workers and as many leases, as each one is that was read. An error is want of memory.
pub fn drive_again<F: Files>(
    alloc: Global,
    plan: &Plan,
    history: &History,
    files: &mut F,
) -> Result<Again, AllocError>
    requires { HeadFits history.now.workers history.now.max history.now.locks }
    ensures files { F.files files.new ≡ F.files files.old }
    ensures counted { IsAgainCounted (F.faults files.old) (F.faults files.new) result }
    ensures again { IsDrivenAgain plan.now (history_view history.now) (F.files files.old) (ReadsFor F.keeps files.old files.new) result }
{
    let admitted = admit(alloc, plan, history)?;
    drive_admitted(alloc, plan, admitted, files)
}
