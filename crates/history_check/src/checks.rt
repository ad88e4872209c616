//! The check of a history that comes line by line.
ghost use Rattle.std.specs.Prelude.{◌≡◌, ◌-◌, ◌^◌, ◌<◌, option_map};
ghost use Rattle.plan_reader.specs.PlanView.{PlanView};
ghost use Rattle.history_text.specs.HistoryView.{HistoryView, changes_of};
ghost use Rattle.history_check.specs.CheckView.{IsCheckOf, OpensCheck, CheckGoesOn, IsCounted};
ghost use Rattle.history_check.specs.Admitting.{IsFinish};
ghost use Rattle.history_check.specs.Verdict.{IsVerdict};

use crate::admitted::Admitted;
use crate::admitters::Admitter;
use crate::entry_checks::EntryCheck;
use crate::whole_books::WholeBook;
use history_text::{EntryHead, History, HistoryLine, LineHead, TextFail, Version, read_line_into};
use plan_reader::Plan;
use resource_lock::Change;
use std::alloc::Global;
use std::marker::Model;

/// What the check of a history answers.
#[derive(Clone, Copy, PartialEq, Eq)]
pub enum Checked {
    /// All of so many entries are lawful.
    Lawful(u64),
    /// The entry of this number is the first that isn't allowed after those before it. Of a text that stops
    /// being a history it is the number at which it stops. It is 0 where the history names another number of
    /// locks than the plan's graph has.
    NotLawful(u64),
}

/// A history that comes line by line, and is checked against a plan. A `WholeBook` keeps the entries up to the first that
/// isn't allowed. `Reached` keeps none, and then the check's memory doesn't grow with the history.
#[derive(Drop)]
pub struct HistoryCheck<A: Admitter> {
    entries: EntryCheck<A>,
    // Those of the entry that is looked at.
    changes: Vec<Change>,
}

impl<A: Admitter> Model for HistoryCheck<A> {
    ghost use Rattle.history_check.specs.CheckView.{CheckView};

    ghost Value = { CheckView };

    ghost view = { λ c. c.entries };
}

impl<A: Admitter> HistoryCheck<A> {
    /// A check of a history without entries, by its second line, which comes with its line end. Stops comes exactly
    /// where the line isn't one of this version, at 0.
    pub fn opening(
        alloc: Global,
        plan: &Plan,
        version: Version,
        line: &[u8],
    ) -> Result<HistoryCheck<A>, TextFail>
        ensures { OpensCheck plan.now version line.now result }
    {
        let Some(opened) = History::opening(alloc, version, line) else {
            return Err(TextFail::Stops(0));
        };
        let entries = EntryCheck::opening(
            alloc,
            plan,
            opened.workers,
            opened.max,
            opened.parallel,
            opened.locks,
        )?;
        Ok(HistoryCheck {
            entries,
            changes: Vec::new(alloc),
        })
    }

    /// How many entries came.
    pub fn count(&self) -> u64
        ensures { result ≡ self.now.count }
    {
        self.entries.count()
    }

    /// Takes one more line with its line end. Of an entry it is noted whether it is allowed after those before
    /// it. The end line says that the history ends here. Stops comes where the line is neither, with the number
    /// of the entry that would follow. But for an entry the check is as before.
    pub fn take_line(&mut self, line: &[u8]) -> Result<HistoryLine, TextFail>
        requires { self.old.count < 2 ^ 64 - 1 }
        ensures counted { IsCounted self.old line.now self.new result }
        ensures goes_on { (p : PlanView) (h : HistoryView) → IsCheckOf p h self.old → CheckGoesOn p h line.now self.new result }
    {
        match read_line_into(&mut self.changes, self.entries.count(), line)? {
            LineHead::Entry(head) => {
                let changes = changes_of(&head, &self.changes);
                self.entries.admit(head.worker, &head.kind, changes)?;
                Ok(HistoryLine::Entry)
            }
            LineHead::End => Ok(HistoryLine::End),
        }
    }

    /// What the check answers of the history so far.
    pub fn answer(&self) -> Checked
        ensures { (p : PlanView) (h : HistoryView) → IsCheckOf p h self.now → IsVerdict self.now.graph h.locks h.entries result }
    {
        self.entries.answer()
    }
}

impl HistoryCheck<WholeBook> {
    /// What the history so far comes to by the answer: its book where all entries are lawful.
    pub(crate) fn finish(self, answer: Checked) -> Admitted
        ensures { IsFinish self answer result }
    {
        self.entries.finish(answer)
    }
}

// The changes of an entry that finished.
fn changes_of<'a>(head: &EntryHead, changes: &'a [Change]) -> Option<&'a [Change]>
    ensures { option_map (λ c. c.now) result ≡ changes_of head.now.is_finished changes.now }
{
    if head.is_finished {
        Some(changes)
    } else {
        None
    }
}
