//! From an input to its picture.
ghost use Rattle.std.specs.Prelude.{◌≡◌};
ghost use Rattle.history_text.specs.HistoryView.{history_view};
ghost use Rattle.history_text.specs.Fitting.{HeadFits};
ghost use Rattle.leases_picture.specs.Pictured.{IsDrawnAs, IsAnswered, HasPictured};

use crate::inputs::find_history;
use crate::reading::{ReadFail, read_all};
use crate::status::{Status, told};
use file_access::{Sink, Source};
use history_text::{History, TextFail};
use run_picture::{DrawFail, draw};
use std::alloc::Global;

fn draw_history<K: Sink>(alloc: Global, history: &History, sink: &mut K) -> Status
    requires { HeadFits history.now.workers history.now.max history.now.locks }
    ensures { IsDrawnAs (history_view history.now) (K.seen sink.old) (K.seen sink.new) result }
{
    match draw(alloc, history, sink) {
        Ok(()) => Status::Drawn,
        Err(DrawFail::SinkFault) => Status::SinkFault,
        Err(DrawFail::TooLarge) => told(Status::TooLarge, sink),
        Err(DrawFail::NoWorker(number)) => told(Status::NoHistory(number), sink),
        Err(DrawFail::NoMemory) => Status::NoMemory,
    }
}

// The text gives its memory back before anything is drawn.
fn draw_text<K: Sink>(alloc: Global, text: Vec<u8>, sink: &mut K) -> Status
    ensures { IsAnswered text.items (K.seen sink.old) (K.seen sink.new) result }
{
    let found = find_history(alloc, &text);
    drop(text);
    match found {
        Ok(history) => draw_history(alloc, &history, sink),
        Err(TextFail::Stops(number)) => told(Status::NoHistory(number), sink),
        Err(TextFail::NoMemory) => Status::NoMemory,
    }
}

/// Draws the history that an input gives. Lines before the first that is `history 1` or `history 2` are passed over,
/// and what stands behind its `end` line is left alone.
///
/// Drawn comes where the picture was written, NoHistory where the text stops being a history or an entry is of a worker
/// that the head doesn't have, TooLarge where the history can't be drawn, SourceFault where the input failed. The last
/// three have a line. At SinkFault the beginning of the picture or of the line was written, and at NoMemory nothing.
pub(crate) fn picture<I: Source, K: Sink>(alloc: Global, input: &mut I, sink: &mut K) -> Status
    ensures { HasPictured (I.seen input.old) (I.seen input.new) (K.seen sink.old) (K.seen sink.new) result }
{
    match read_all(alloc, input) {
        Ok(text) => draw_text(alloc, text, sink),
        Err(ReadFail::SourceFault) => told(Status::SourceFault, sink),
        Err(ReadFail::NoMemory) => Status::NoMemory,
    }
}
