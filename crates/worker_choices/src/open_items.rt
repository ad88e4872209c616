//! Which items of an action haven't ended yet.
ghost use Rattle.std.specs.Prelude.{◌≡◌};
ghost use Rattle.worker_choices.specs.NextSteps.{first_open};

use lock_journal::Book;
use lock_transforms::kinds::action_of;

/// The first item of an action that hasn't ended. An action that the graph doesn't have has no items.
pub fn first_open(book: &Book, action: u32) -> Option<u32>
    ensures { result ≡ first_open book.now.graph book.now.state action }
{
    let graph = book.graph();
    if action as usize >= graph.actions().len() {
        return None;
    }
    let action = action_of(graph, action);
    let first = action.first_unit + u32::from(action.fetch);
    let open = book.first_open_unit(first)?;
    (open < first + action.items).then_some(open)
}
