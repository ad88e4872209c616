//! A text whose entries are checked.
ghost use Rattle.order_check.specs.Answer.{IsAnswerOf};

use crate::read_entries::ReadEntries;
use history_text::TextFail;
use std::alloc::Global;
use task_ordering::{Kept, Ordering};
use whole_histories::read_history;

/// Reads a whole history text, and checks its entries as `Ordering::check` does, lawful or not. Stops comes exactly where the text is no
/// history, with the number that `read_history` gives. NoMemory comes only where there was no memory for the entries or the check.
pub fn check_text(alloc: Global, ordering: &Ordering, text: &[u8]) -> Result<Kept, TextFail>
    ensures { IsAnswerOf ordering.now.befores text.now result }
{
    let history = read_history(alloc, text)?;
    let kept = ordering.check(alloc, &ReadEntries(&history));
    drop(history);
    Ok(kept?)
}
