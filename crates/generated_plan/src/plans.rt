ghost use Rattle.file_access.specs.PageView.{Adds};
ghost use Rattle.file_access.specs.SinkView.{Prints};
ghost use Rattle.generated_plan.specs.Made.{made, project_text, projects_text, tasks_text};

use crate::draws::Draws;
use crate::tasks::{PROJECTS, write_task};
use file_access::{Failed, Page, Sink};
use item_actions::Text;

/// How many tasks a plan has.
const TASKS: u32 = 400;

// Writes the project of this number.
fn write_project<K: Sink>(project: u64, page: &mut Page, sink: &mut K)
    ensures { Adds (K.seen sink.old) page.old (K.seen sink.new) page.new (project_text project) }
{
    page.text(sink, b"[[project]]\nname = \"p");
    page.number(sink, project);
    page.text(sink, b"\"\n");
}

// Writes all projects.
fn write_projects<K: Sink>(page: &mut Page, sink: &mut K)
    ensures { Adds (K.seen sink.old) page.old (K.seen sink.new) page.new projects_text }
{
    for project in 0..PROJECTS {
        write_project(project, page, sink);
    }
}

// Writes all tasks, drawn from the seed.
fn write_tasks<K: Sink>(seed: u64, file: &Text, page: &mut Page, sink: &mut K)
    ensures { Adds (K.seen sink.old) page.old (K.seen sink.new) page.new (tasks_text seed file.now) }
{
    let mut draws = Draws::from_seed(seed);
    for task in 0..TASKS {
        write_task(task, file, &mut draws, page, sink);
    }
}

// Writes the whole plan.
fn write_plan<K: Sink>(seed: u64, file: &Text, page: &mut Page, sink: &mut K)
    ensures { Adds (K.seen sink.old) page.old (K.seen sink.new) page.new (made seed file.now) }
{
    write_projects(page, sink);
    write_tasks(seed, file, page, sink);
}

/// Prints the plan that is made from a number, in which each item is of one file. It takes no memory.
///
/// It is Failed where the sink failed, which then took a front of the plan.
pub fn make_plan<K: Sink>(seed: u64, file: &Text, sink: &mut K) -> Result<(), Failed>
    ensures { Prints (K.seen sink.old) (K.seen sink.new) (made seed file.now) result }
{
    let mut page = Page::new();
    write_plan(seed, file, &mut page, sink);
    page.end(sink)
}
