ghost use Rattle.std.specs.Prelude.{◌≡◌, ◌+◌, ◌++◌, codes, decimal};
ghost use Rattle.file_access.specs.PageView.{Adds};
ghost use Rattle.generated_plan.specs.Draws.{after_draws};
ghost use Rattle.generated_plan.specs.Made.{after_text, draws_for_after, head_text, task_text};

use crate::actions::{write_first, write_second};
use crate::draws::Draws;
use file_access::{Page, Sink};
use item_actions::Text;

/// How many projects a plan has.
pub(crate) const PROJECTS: u64 = 40;

// The table's first three lines.
fn write_head<K: Sink>(task: u32, project: u64, page: &mut Page, sink: &mut K)
    ensures { Adds (K.seen sink.old) page.old (K.seen sink.new) page.new (head_text task project) }
{
    page.text(sink, b"[[task]]\nname = \"t");
    page.number(sink, u64::from(task));
    page.text(sink, b"\"\nproject = \"p");
    page.number(sink, project);
    page.text(sink, b"\"\n");
}

// The key `after`, which task 0 doesn't have.
fn write_after<K: Sink>(task: u32, draws: &mut Draws, page: &mut Page, sink: &mut K)
    ensures text { Adds (K.seen sink.old) page.old (K.seen sink.new) page.new (after_text task draws.old.number) }
    ensures drawn { draws.new.number ≡ after_draws (draws_for_after task) draws.old.number }
{
    if task != 0 {
        page.text(sink, b"after = [\"t");
        page.number(sink, draws.next() % u64::from(task));
        page.text(sink, b"\"]\n");
    }
}

/// Writes a task, by its number.
pub(crate) fn write_task<K: Sink>(
    task: u32,
    file: &Text,
    draws: &mut Draws,
    page: &mut Page,
    sink: &mut K,
)
    ensures text { Adds (K.seen sink.old) page.old (K.seen sink.new) page.new (task_text file.now task draws.old.number) }
    ensures drawn { draws.new.number ≡ after_draws (11 + draws_for_after task) draws.old.number }
{
    write_head(task, draws.next() % PROJECTS, page, sink);
    write_after(task, draws, page, sink);
    write_first(file, draws, page, sink);
    write_second(file, draws, page, sink);
}
