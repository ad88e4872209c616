ghost use Rattle.std.specs.Prelude.{◌≡◌, ◌<◌, ◌≤◌, ◌-◌, length, take};
ghost use Rattle.lock_journal.specs.Changes.{changes_left};
ghost use Rattle.lock_transforms.specs.Entry.{prefix_state};
ghost use Rattle.lock_transforms.specs.TentativeView.{all_recalled};

use crate::books::Book;
use crate::shown_changes::Changes;
use lock_transforms::Tentative;

impl Book {
    /// Takes the last entry back, which wasn't given away. The history is then the one without it, and the state the one that
    /// this history leads to: the changes of the entry are undone, and a failed entry had none. It
    /// takes no memory, and there is room for no less than before.
    pub fn take_back(&mut self)
        requires { self.old.given < length self.old.history }
        ensures graph { self.new.graph ≡ self.old.graph }
        ensures history { self.new.history ≡ take (length self.old.history - 1) self.old.history }
        ensures given { self.new.given ≡ self.old.given }
        ensures state { self.new.state ≡ prefix_state self.old.graph self.old.history (length self.old.history - 1) }
        ensures spare_entries { self.old.spare_entries ≤ self.new.spare_entries }
        ensures spare_changes { self.old.spare_changes ≤ self.new.spare_changes }
    {
        self.tentative.settle();
        // Of the graph, that it fits: so there is room for the changes of each of its entries.
        let _ = self.tentative.graph();
        let last = self.history.entry(self.history.len() - 1);
        recall(&mut self.tentative, last.changes);
        self.tentative.take_back(last.worker);
        self.ready.follow(
            self.tentative.graph(),
            self.tentative.state(),
            self.tentative.made(),
        );
        self.tentative.settle();
        self.history.pop();
    }
}

// Notes changes that were made before, in order.
fn recall(work: &mut Tentative, changes: Changes<'_>)
    requires { length (changes_left changes) ≤ work.old.room }
    ensures { work.new ≡ all_recalled work.old (changes_left changes.entry) }
{
    for change in changes {
        work.recall(change);
    }
}
