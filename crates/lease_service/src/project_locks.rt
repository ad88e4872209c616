//! The lock of each project.
ghost use Rattle.std.specs.Prelude.{◌≡◌, ◌<◌, ◌^◌, IfOk, length};
ghost use Rattle.std.specs.List.{IsDistinct};
ghost use Rattle.std.specs.Str.{bytes_eq};
ghost use Rattle.lease_service.specs.ProjectLocks.{all_lock, lock_count, lock_of};

use indexmap::IndexSet;
use item_actions::Text;
use resource_lock::{LockId, project_lock, project_lock_count};
use std::alloc::{AllocError, Global};
use std::marker::Model;

/// The lock of each project. With parallel execution each project has a lock of its own, so that
/// tasks of different projects run at once. Without it all projects share one lock, after Gradle's
/// registry of project locks.
#[derive(Drop)]
pub struct ProjectLocks {
    names: IndexSet<String>,
    parallel: bool,
}

impl Model for ProjectLocks {
    ghost use Rattle.lease_service.specs.ProjectLocks.{ProjectLocksView, project_locks_view, HasNumbers};

    ghost Value = { ProjectLocksView };

    ghost view = { project_locks_view };

    ghost invariant = { HasNumbers };
}

impl ProjectLocks {
    /// The locks of projects with these names, numbered in this order. It fails for want of memory
    /// alone.
    pub fn new(alloc: Global, projects: &[Text], parallel: bool) -> Result<ProjectLocks, AllocError>
        requires few { length projects.now < 2 ^ 32 }
        requires distinct { IsDistinct bytes_eq projects.now }
        ensures projects { IfOk result (λ locks. locks.projects ≡ projects.now) }
        ensures parallel { IfOk result (λ locks. locks.parallel ≡ parallel) }
    {
        let mut names = IndexSet::with_capacity(alloc, projects.len())?;
        for project in projects {
            names.insert(String::from_str(alloc, project.as_str())?)?;
        }
        Ok(ProjectLocks { names, parallel })
    }

    /// The lock of the project with this name. None exactly where there is no such project.
    pub fn lock_of(&self, project: &Text) -> Option<LockId>
        ensures { result ≡ lock_of self.now project.now }
    {
        let number = self.names.get_index_of(project.as_str())?;
        Some(project_lock(self.parallel, number as u32))
    }

    /// How many locks the projects have: as many as projects, or one for all.
    pub fn count(&self) -> u32
        ensures { result ≡ lock_count self.now }
    {
        project_lock_count(self.parallel, self.names.len() as u32)
    }

    /// The all-projects lock of a graph that has these locks and that one: it stands behind them.
    pub fn all_lock(&self) -> LockId
        ensures { result ≡ all_lock self.now }
    {
        LockId(self.count())
    }
}
