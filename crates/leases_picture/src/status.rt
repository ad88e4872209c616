//! How a call of the program ends.
ghost use Rattle.std.specs.Prelude.{◌≡◌};
ghost use Rattle.file_access.specs.PageView.{Adds};
ghost use Rattle.file_access.specs.SinkView.{Prints};
ghost use Rattle.leases_picture.specs.Ends.{number_of, line_of, IsToldAs};
ghost use Rattle.leases_picture.specs.declared.status.Status.{Status};

use file_access::{Failed, Page, Sink};

/// How a call of the program ended. The numbers and lines are those of the command `check`, which has no TooLarge.
#[derive(Clone, Copy)]
pub(crate) enum Status {
    /// The picture was written.
    Drawn,
    /// There were words, and the program takes none.
    BadWords,
    /// The sink failed. What it had taken by then is the beginning of the picture, or of the line.
    SinkFault,
    /// The input failed.
    SourceFault,
    /// The text stops being a history at this number, or the entry of this number is of a worker that the head doesn't
    /// have.
    NoHistory(u64),
    /// There was no memory. Nothing was written.
    NoMemory,
    /// The history has 2^30 entries or more, or its picture would be 2^32 px high or higher.
    TooLarge,
}

impl Status {
    /// The exit status of the program.
    pub(crate) fn number(&self) -> u8
        ensures { result ≡ number_of self.now }
    {
        match self {
            Status::Drawn => 0,
            Status::BadWords => 2,
            Status::SinkFault => 6,
            Status::SourceFault => 8,
            Status::NoHistory(_) => 9,
            Status::NoMemory => 10,
            Status::TooLarge => 13,
        }
    }
}

fn write_no_history<K: Sink>(number: u64, page: &mut Page, sink: &mut K)
    ensures { Adds (K.seen sink.old) page.old (K.seen sink.new) page.new (line_of (Status.NoHistory number)) }
{
    page.text(sink, b"not lawful at ");
    page.number(sink, number);
    page.text(sink, b"\n");
}

/// Writes the line of a status that has one.
fn write_line<K: Sink>(status: Status, page: &mut Page, sink: &mut K)
    ensures { Adds (K.seen sink.old) page.old (K.seen sink.new) page.new (line_of status) }
{
    match status {
        Status::BadWords => page.text(sink, b"bad words\n"),
        Status::SourceFault => page.text(sink, b"input not read\n"),
        Status::TooLarge => page.text(sink, b"too large\n"),
        Status::NoHistory(number) => write_no_history(number, page, sink),
        Status::Drawn | Status::SinkFault | Status::NoMemory => {}
    }
}

fn print_line<K: Sink>(status: Status, sink: &mut K) -> Result<(), Failed>
    ensures { Prints (K.seen sink.old) (K.seen sink.new) (line_of status) result }
{
    let mut page = Page::new();
    write_line(status, &mut page, sink);
    page.end(sink)
}

/// Writes the line of a status, and says how that ended.
pub(crate) fn told<K: Sink>(status: Status, sink: &mut K) -> Status
    ensures { IsToldAs status (K.seen sink.old) (K.seen sink.new) result }
{
    match print_line(status, sink) {
        Ok(()) => status,
        Err(Failed) => Status::SinkFault,
    }
}
