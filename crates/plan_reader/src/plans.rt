//! A plan that was read: its projects, and its tasks with their actions and items.
ghost use Rattle.std.specs.Prelude.{◌≡◌, map};
ghost use Rattle.plan_reader.specs.PlanView.{plan_task_view, plan_view};
ghost use Rattle.plan_reader.specs.IsPlan.{IsPlan};

use daemon_requirements::{Requirements, Work};
use item_actions::Text;
use resource_lock::Retention;
use std::marker::Model;

/// An action of a task: a file that is fetched first, what the worker does with its project lock while
/// the items run, and the items.
#[derive(Drop)]
pub struct PlanAction {
    pub fetch: Option<Text>,
    pub retention: Retention,
    pub items: Vec<Work>,
}

/// A task of a project, after other tasks. It may ask for all projects: while it runs, no other worker
/// owns a project lock.
#[derive(Drop)]
pub struct PlanTask {
    pub name: Text,
    pub project: u32,
    pub after: Vec<u32>,
    pub all_projects: bool,
    pub actions: Vec<PlanAction>,
}

/// The projects, tasks and requirements of a build, in the order in which they stand in the plan file. A plan
/// is made by `read_plan` alone.
#[derive(Drop)]
pub struct Plan {
    projects: Vec<Text>,
    tasks: Vec<PlanTask>,
    requirements: Vec<Requirements>,
}

impl Model for Plan {
    ghost use Rattle.plan_reader.specs.PlanView.{PlanView, plan_view};
    ghost use Rattle.plan_reader.specs.IsPlan.{IsPlan};

    ghost Value = { PlanView };

    ghost view = { λ p. plan_view p.projects.items p.tasks.items p.requirements.items };

    ghost invariant = { λ p. IsPlan (plan_view p.projects.items p.tasks.items p.requirements.items) };
}

impl Plan {
    /// The plan of these parts, which keep all that every plan keeps.
    pub(crate) fn new(
        projects: Vec<Text>,
        tasks: Vec<PlanTask>,
        requirements: Vec<Requirements>,
    ) -> Plan
        requires { IsPlan (plan_view projects.items tasks.items requirements.items) }
        ensures { result ≡ plan_view projects.items tasks.items requirements.items }
    {
        Plan {
            projects,
            tasks,
            requirements,
        }
    }

    /// The projects' names, by number.
    pub fn projects(&self) -> &[Text]
        ensures value { result.now ≡ self.now.projects }
        ensures plan { IsPlan self.now }
    {
        &self.projects
    }

    /// The tasks, by number.
    pub fn tasks(&self) -> &[PlanTask]
        ensures value { map plan_task_view result.now ≡ self.now.tasks }
        ensures plan { IsPlan self.now }
    {
        &self.tasks
    }

    /// The requirements, by number.
    pub fn requirements(&self) -> &[Requirements]
        ensures value { result.now ≡ self.now.requirements }
        ensures plan { IsPlan self.now }
    {
        &self.requirements
    }
}
