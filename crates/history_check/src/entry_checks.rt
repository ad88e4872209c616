ghost use Rattle.std.specs.Prelude.{◌≡◌, ◌-◌, ◌^◌, ◌<◌, OnOk, OnErr, IfOk, option_map};
ghost use Rattle.lock_transforms.specs.Entry.{entry};
ghost use Rattle.plan_reader.specs.PlanView.{PlanView};
ghost use Rattle.plan_reader.specs.Graph.{graph_of};
ghost use Rattle.history_text.specs.Fitting.{HeadFits};
ghost use Rattle.history_text.specs.HistoryView.{HistoryView};
ghost use Rattle.history_check.specs.CheckView.{IsCheckOf, IsFresh, Adds};
ghost use Rattle.history_check.specs.Admitting.{IsFinish};
ghost use Rattle.history_check.specs.Verdict.{IsVerdict, names_other_locks};

use crate::admitted::Admitted;
use crate::admitters::Admitter;
use crate::checks::Checked;
use crate::whole_books::WholeBook;
use lock_transforms::Kind;
use plan_reader::Plan;
use resource_lock::{Change, Graph, WorkerId};
use std::alloc::{AllocError, Global};
use std::marker::Model;

/// The check of a history's entries, one by one. Those up to the first that isn't allowed are admitted, and all are counted.
#[derive(Drop)]
pub struct EntryCheck<A: Admitter> {
    admitter: A,
    count: u64,
    // Whether the history names another number of locks than the graph has.
    other_locks: bool,
}

impl<A: Admitter> Model for EntryCheck<A> {
    ghost use Rattle.std.specs.Prelude.{◌≤◌};
    ghost use Rattle.history_check.specs.CheckView.{CheckView, check_of};

    ghost Value = { CheckView };

    ghost view = { λ c. check_of (A.seen c.admitter) c.count c.other_locks };

    ghost invariant = { λ c. (A.seen c.admitter).entries ≤ c.count };
}

impl<A: Admitter> EntryCheck<A> {
    /// The check of a history without entries, for so many workers and leases, that names a number of locks or none.
    pub fn opening(
        alloc: Global,
        plan: &Plan,
        workers: u32,
        max: u32,
        parallel: bool,
        locks: Option<u32>,
    ) -> Result<EntryCheck<A>, AllocError>
        requires { HeadFits workers max locks }
        ensures { IfOk result (IsFresh (graph_of plan.now workers max parallel) locks) }
    {
        let graph = plan.graph(alloc, workers, max, parallel)?;
        let other_locks = names_other_locks(locks, &graph);
        let admitter = A::open(alloc, graph)?;
        Ok(EntryCheck {
            admitter,
            count: 0,
            other_locks,
        })
    }

    /// How many entries came.
    pub(crate) fn count(&self) -> u64
        ensures { result ≡ self.now.count }
    {
        self.count
    }

    /// Counts one more entry, and admits it while all before it were allowed and it is too.
    pub fn admit(
        &mut self,
        worker: WorkerId,
        kind: &Kind,
        changes: Option<&[Change]>,
    ) -> Result<(), AllocError>
        requires { self.old.count < 2 ^ 64 - 1 }
        ensures added { OnOk result (Adds self.old self.new (entry worker kind.now (option_map (λ c. c.now) changes.entry))) }
        ensures kept { OnErr result (self.new ≡ self.old) }
    {
        if self.admitter.admitted() == self.count {
            self.admitter.admit_next(worker, kind, changes)?;
        }
        self.count += 1;
        Ok(())
    }

    /// What the check answers of the entries so far.
    pub fn answer(&self) -> Checked
        ensures { (p : PlanView) (h : HistoryView) → IsCheckOf p h self.now → IsVerdict self.now.graph h.locks h.entries result }
    {
        let admitted = self.admitter.admitted();
        if self.other_locks {
            Checked::NotLawful(0)
        } else if admitted == self.count {
            Checked::Lawful(admitted)
        } else {
            Checked::NotLawful(admitted + 1)
        }
    }
}

impl EntryCheck<WholeBook> {
    /// What the entries come to by the answer: their book where all are lawful.
    pub fn finish(self, answer: Checked) -> Admitted
        ensures { IsFinish self answer result }
    {
        match answer {
            Checked::Lawful(_) => Admitted::Lawful(self.admitter.into_book()),
            Checked::NotLawful(number) => {
                // Let go of as a whole: to prove that it ends field by field takes a minute.
                drop(self);
                Admitted::NotLawful(number)
            }
        }
    }
}

// Whether a history that names this number of locks or none names another than the graph has.
fn names_other_locks(locks: Option<u32>, graph: &Graph) -> bool
    ensures { result ≡ names_other_locks locks graph.now }
{
    match locks {
        Some(locks) => locks != graph.locks(),
        None => false,
    }
}
