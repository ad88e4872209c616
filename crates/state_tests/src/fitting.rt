//! Graphs of rows that have to fit.
ghost use Rattle.std.specs.Prelude.{◌≡◌, IfOk};
ghost use Rattle.state_tests.specs.Rows.{graph_of_rows};

use crate::graphs::graph_of;
use crate::rows::{Limits, TaskRow};
use resource_lock::{Graph, GraphAction};
use std::alloc::{AllocError, Global};
use std::process::Abort;

/// The graph of these rows.
pub fn fitting_graph(
    rt: &impl Abort,
    alloc: Global,
    limits: &Limits,
    rows: &[TaskRow],
    actions: &[GraphAction],
) -> Result<Box<Graph>, AllocError>
    ensures { IfOk result (λ graph. graph.value ≡ graph_of_rows limits.now rows.now actions.now) }
{
    let found = graph_of(alloc, limits, rows, actions)?;
    Ok(found.expect(rt, "a graph that fits"))
}
