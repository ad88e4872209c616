//! Questions about several tasks.
ghost use Rattle.std.specs.Prelude.{◌≡◌, ◌<◌, All, length};
ghost use Rattle.std.specs.List.{list_all, list_any};
ghost use Rattle.resource_lock.specs.Marks.{has_fallen, has_passed};
ghost use Rattle.resource_lock.specs.StateView.{mark_of};
ghost use Rattle.resource_lock.specs.declared.marks.MarkId.TheVariants as ids;

use super::State;
use crate::marks::MarkId;

impl State {
    /// Whether each of these tasks has passed.
    pub fn all_passed(&self, tasks: &[u32]) -> bool
        requires { All (λ k. k < length self.now.tasks) tasks.now }
        ensures { result ≡ list_all (λ k. has_passed (mark_of self.now (ids.Task k))) tasks.now }
    {
        tasks
            .iter()
            .all(|task| self.mark(MarkId::Task(*task)).has_passed())
    }

    /// Whether one of these tasks has failed or was skipped.
    pub fn some_fallen(&self, tasks: &[u32]) -> bool
        requires { All (λ k. k < length self.now.tasks) tasks.now }
        ensures { result ≡ list_any (λ k. has_fallen (mark_of self.now (ids.Task k))) tasks.now }
    {
        tasks
            .iter()
            .any(|task| self.mark(MarkId::Task(*task)).has_fallen())
    }
}
