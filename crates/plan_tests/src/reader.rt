use daemon_requirements::{Isolation, Requirements, Work};
use item_actions::KeepAlive;
use plan_reader::*;
use resource_lock::{Graph, LockId};
use std::alloc::{AllocError, Global};
use std::test::Fail;

/// Two items that run in processes, the second of which names no requirements, and a task that comes after others.
static PLAN: &str = "project = [{ name = \"p\" }]

[[requirements]]
name = \"big\"
executable = \"java\"
heap_mb = 1_024
args = [\"-v\", \"\"]
properties = { b = \"2\", a = \"1\" }
debug = true
keep_alive = \"daemon\"

[[task]]
name = \"a\"
project = \"p\"
after = [\"c\", \"b\", \"c\"]
[[task.action]]
[[task.action.item]]
do = \"words\"
file = \"b.txt\"
isolation = \"process\"
requirements = \"big\"
[[task.action.item]]
do = \"sha256\"
file = \"b.txt\"
isolation = \"process\"

[[task]]
name = \"b\"
project = \"p\"

[[task]]
name = \"c\"
project = \"p\"
";

fn is_big(requirements: &Requirements) -> bool {
    let fields = requirements.fields();
    let (args, properties) = (fields.args.as_slice(), fields.properties.as_slice());
    fields.executable.as_str() == "java"
        && fields.heap_mb == 1_024
        && args.len() == 2
        && args[1].as_str() == ""
        && properties.len() == 2
        && properties[0].name.as_str() == "a"
        && properties[0].value.as_str() == "1"
        && fields.debug
        && fields.keep == KeepAlive::Daemon
}

fn is_default(requirements: &Requirements) -> bool {
    let fields = requirements.fields();
    fields.executable.as_str() == "self"
        && fields.heap_mb == 512
        && fields.args.is_empty()
        && fields.properties.is_empty()
        && fields.variables.is_empty()
        && !fields.debug
        && !fields.assertions
        && fields.encoding.as_str() == "UTF-8"
        && fields.keep == KeepAlive::Session
}

fn asked(item: &Work) -> Option<&Requirements> {
    match &item.isolation {
        Isolation::Process(requirements) => Some(requirements),
        Isolation::InThread => None,
    }
}

fn are_asked(items: &[Work]) -> bool {
    match items {
        [first, second] => {
            matches!(asked(first), Some(requirements) if is_big(requirements))
                && matches!(asked(second), Some(requirements) if is_default(requirements))
        }
        _ => false,
    }
}

fn is_first(task: &PlanTask) -> bool {
    match task.actions.as_slice() {
        [action] => task.after.as_slice() == [2, 1].as_slice() && are_asked(&action.items),
        _ => false,
    }
}

fn has_requirements(plan: &Plan) -> bool {
    match plan.requirements() {
        [requirements] => is_big(requirements),
        _ => false,
    }
}

fn has_tasks(plan: &Plan) -> bool {
    match plan.tasks() {
        [first, _, _] => is_first(first),
        _ => false,
    }
}

#[test]
fn items_have_the_requirements_that_they_name(rt: HostRuntime) -> Result<(), Fail> {
    let plan = read_plan(rt.alloc(), PLAN.as_bytes())?;
    assert!(rt; has_requirements(&plan) && has_tasks(&plan));
    Ok(())
}

/// Three projects, and a task of the second that asks for all, between two that don't.
static ALL_PROJECTS: &str = "
project = [{ name = 'a' }, { name = 'b' }, { name = 'c' }]
task = [
{ name = 'first', project = 'a' },
{ name = 'all', project = 'b', all_projects = true },
{ name = 'last', project = 'c', all_projects = false },
]
";

fn ask_in_turn(plan: &Plan) -> bool {
    match plan.tasks() {
        [first, all, last] => {
            (first.all_projects, all.all_projects, last.all_projects) == (false, true, false)
                && all.project == 1
        }
        _ => false,
    }
}

// Whether the graph of the plan has these locks: so many in all, the last of them that of all projects, and
// each task the lock that is named for it.
fn has_locks(
    alloc: Global,
    plan: &Plan,
    parallel: bool,
    expected: [u32; 4],
) -> Result<bool, AllocError> {
    let graph = plan.graph(alloc, 2, 1, parallel)?;
    let [first, all, last, count] = expected;
    Ok(
        graph.locks() == count
            && graph.all() == Some(LockId(count - 1))
            && has_tasks_of(&graph, &[first, all, last]),
    )
}

fn has_tasks_of(graph: &Graph, locks: &[u32]) -> bool {
    for (task, lock) in graph.tasks().rows().iter().zip(locks) {
        if task.lock.0 != *lock {
            return false;
        }
    }
    graph.tasks().len() == locks.len()
}

#[test]
fn a_task_that_asks_for_all_projects_has_their_lock(rt: HostRuntime) -> Result<(), Fail> {
    let plan = read_plan(rt.alloc(), ALL_PROJECTS.as_bytes())?;
    assert!(rt; ask_in_turn(&plan) && has_locks_of_both(rt.alloc(), &plan)?);
    Ok(())
}

// Whether the graphs of the plan have their locks, where projects have locks of their own and where they don't.
fn has_locks_of_both(alloc: Global, plan: &Plan) -> Result<bool, AllocError> {
    Ok(has_locks(alloc, plan, true, [0, 3, 2, 4])? && has_locks(alloc, plan, false, [0, 1, 0, 2])?)
}
