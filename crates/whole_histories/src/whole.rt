ghost use Rattle.std.specs.Prelude.{IfOk};
ghost use Rattle.history_text.specs.Fitting.{HeadFits};
ghost use Rattle.history_text.specs.HistoryView.{history_view};
ghost use Rattle.history_check.specs.Admitting.{IsAdmissionOf};
ghost use Rattle.history_check.specs.CheckView.{IsCheckOf};
ghost use Rattle.history_check.specs.Verdict.{IsAnswerTo};

use history_check::{Admitted, Admitter, Checked, EntryCheck, Reached, WholeBook};
use history_text::History;
use plan_reader::Plan;
use std::alloc::{AllocError, Global};

/// Admits the entries of a whole history one by one, as `HistoryCheck` does. It is for 1 to 32 workers and as
/// many leases, as each history is that was read.
pub fn admit(alloc: Global, plan: &Plan, history: &History) -> Result<Admitted, AllocError>
    requires { HeadFits history.now.workers history.now.max history.now.locks }
    ensures { IfOk result (IsAdmissionOf plan.now (history_view history.now)) }
{
    let check = check_entries::<WholeBook>(alloc, plan, history)?;
    let answer = check.answer();
    Ok(check.finish(answer))
}

/// Checks a whole history against a plan. It is for the same histories.
pub fn check(alloc: Global, plan: &Plan, history: &History) -> Result<Checked, AllocError>
    requires { HeadFits history.now.workers history.now.max history.now.locks }
    ensures { IfOk result (IsAnswerTo plan.now (history_view history.now)) }
{
    let check = check_entries::<Reached>(alloc, plan, history)?;
    Ok(check.answer())
}

// The check of all entries of a history.
fn check_entries<A: Admitter>(
    alloc: Global,
    plan: &Plan,
    history: &History,
) -> Result<EntryCheck<A>, AllocError>
    requires { HeadFits history.now.workers history.now.max history.now.locks }
    ensures { IfOk result (IsCheckOf plan.now (history_view history.now)) }
{
    let mut check = EntryCheck::opening(
        alloc,
        plan,
        history.workers,
        history.max,
        history.parallel,
        history.locks,
    )?;
    for entry in &history.entries {
        check.admit(entry.worker, &entry.kind, entry.changes.as_deref())?;
    }
    Ok(check)
}
