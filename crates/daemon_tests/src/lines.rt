//! What came of a test, in a line.
use daemon_manager::Event;
use file_access::DeskFail;
use item_actions::Outcome;
use std::alloc::AllocError;
use std::process::Abort;

/// That the line is the expected one; else the test prints it.
pub(crate) fn check(rt: &impl Abort, line: &str, expected: &str) {
    assert!(rt; line == expected, "{line}");
}

/// An outcome in a word. The items of these tests ask for numbers alone.
pub(crate) fn add_outcome(outcome: Outcome, line: &mut String) -> Result<(), AllocError> {
    match outcome {
        Outcome::Number(number) => write!(line, "{number}. "),
        Outcome::Fault => line.push_str("fault. "),
        Outcome::NoMemory => line.push_str("no memory. "),
        _ => line.push_str("another outcome. "),
    }
}

/// That a step failed. Want of memory ends the test.
pub(crate) fn add_failed(step: &str, fail: DeskFail, line: &mut String) -> Result<(), AllocError> {
    match fail {
        DeskFail::Failed => write!(line, "{step} failed. "),
        DeskFail::NoMemory => Err(AllocError),
    }
}

fn word(event: &Event) -> &'static str {
    match event {
        Event::Started(..) => "started",
        Event::Reserved(..) => "reserved",
        Event::Released(_) => "released",
        Event::Failed(_) => "failed",
        Event::Stopped(_) => "stopped",
    }
}

fn add_event(event: &Event, line: &mut String) -> Result<(), AllocError> {
    match event {
        Event::Reserved(daemon, unit) => write!(line, "reserved {daemon} for {unit}. "),
        _ => write!(line, "{} {}. ", word(event), event.daemon()),
    }
}

/// Each event, with the number of its daemon, and a reservation with its unit.
pub(crate) fn add_events(events: &[Event], line: &mut String) -> Result<(), AllocError> {
    for event in events {
        add_event(event, line)?;
    }
    Ok(())
}
