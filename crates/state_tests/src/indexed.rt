//! A graph, the state that it opens with, and the index of both.
ghost use Rattle.std.specs.Prelude.{◌≡◌, IfOk};
ghost use Rattle.resource_lock.specs.Shape.{BelongsTo};
ghost use Rattle.ready_work.specs.ReadyWork.{IsIndexOf};

use ready_work::ReadyWork;
use resource_lock::{Graph, State};
use std::alloc::{AllocError, Global};

/// A graph, the state that it opens with, and the index of both.
#[derive(Drop)]
pub struct Indexed {
    pub graph: Box<Graph>,
    pub state: State,
    pub ready: ReadyWork,
}

/// The state that a graph opens with, and the index of both.
pub fn open_index(alloc: Global, graph: Box<Graph>) -> Result<Box<Indexed>, AllocError>
    ensures belongs { IfOk result (λ all. BelongsTo all.value.graph.value all.value.state) }
    ensures index { IfOk result (λ all. IsIndexOf all.value.graph.value all.value.state all.value.ready) }
    ensures graph { IfOk result (λ all. all.value.graph.value ≡ graph.value) }
{
    let state = State::opening(alloc, &graph)?;
    let ready = ReadyWork::of(alloc, &graph, &state)?;
    Ok(Box::new(
        alloc,
        Indexed {
            graph,
            state,
            ready,
        },
    )?)
}
