//! The locks of projects. With parallel execution each project has a lock of its own, so that tasks of
//! different projects run at once. Without it all projects share one.
ghost use Rattle.std.specs.Prelude.{◌≡◌};
ghost use Rattle.resource_lock.specs.ProjectLocks.{project_lock, project_lock_count};

use crate::ids::LockId;

/// The lock of a project.
pub fn project_lock(parallel: bool, project: u32) -> LockId
    ensures { result ≡ project_lock parallel project }
{
    LockId(if parallel { project } else { 0 })
}

/// How many locks so many projects have: as many as projects, or one for all.
pub fn project_lock_count(parallel: bool, projects: u32) -> u32
    ensures { result ≡ project_lock_count parallel projects }
{
    if parallel { projects } else { projects.min(1) }
}
