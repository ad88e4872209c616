//! What happened to the daemons of a run.
ghost use Rattle.std.specs.Prelude.{◌++◌, decimal};
ghost use Rattle.file_access.specs.PageView.{Adds};
ghost use Rattle.history_text.specs.Events.{event_text, events_text};

use daemon_manager::Event;
use file_access::{Page, Sink};

// Writes a word, a number and another word.
fn write_between<K: Sink>(word: &[u8], number: u64, behind: &[u8], page: &mut Page, sink: &mut K)
    ensures { Adds (K.seen sink.old) page.old (K.seen sink.new) page.new (word.now ++ decimal number ++ behind.now) }
{
    page.text(sink, word);
    page.number(sink, number);
    page.text(sink, behind);
}

// Writes the line of an event.
fn write_event<K: Sink>(event: &Event, page: &mut Page, sink: &mut K)
    ensures { Adds (K.seen sink.old) page.old (K.seen sink.new) page.new (event_text event.now) }
{
    match event {
        Event::Started(daemon, requirements) => {
            write_between(b"daemon ", *daemon, b" started heap ", page, sink);
            page.number(sink, u64::from(requirements.fields().heap_mb));
            page.text(sink, b"\n");
        }
        Event::Reserved(daemon, unit) => {
            write_between(b"daemon ", *daemon, b" reserved ", page, sink);
            page.number(sink, u64::from(*unit));
            page.text(sink, b"\n");
        }
        Event::Released(daemon) => write_between(b"daemon ", *daemon, b" released\n", page, sink),
        Event::Failed(daemon) => write_between(b"daemon ", *daemon, b" failed\n", page, sink),
        Event::Stopped(daemon) => write_between(b"daemon ", *daemon, b" stopped\n", page, sink),
    }
}

/// Writes how many events there are, and a line for each.
pub fn write_events<K: Sink>(events: &[Event], page: &mut Page, sink: &mut K)
    ensures { Adds (K.seen sink.old) page.old (K.seen sink.new) page.new (events_text events.now) }
{
    write_between(b"daemons ", events.len() as u64, b"\n", page, sink);
    for event in events {
        write_event(event, page, sink);
    }
}
