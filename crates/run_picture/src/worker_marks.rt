//! The second mark of a worker. There are eight hues, and white stripes tell the workers of one hue apart, in grey too.
ghost use Rattle.std.specs.Prelude.{◌≡◌, ◌<◌, ◌^◌, ◌++◌, Bool, [], if◌then◌else◌};
ghost use Rattle.file_access.specs.PageView.{Adds};
ghost use Rattle.run_picture.specs.Shapes.{rect_text};
ghost use Rattle.run_picture.specs.WorkerMarks.{upper_stripe, lower_stripe, stripe_where, marks_text};

use crate::shapes::{Area, write_rect};
use file_access::{Page, Sink};

/// The upper stripe of a bar.
fn upper_stripe(area: Area) -> Area
    requires y { area.y < 2 ^ 63 }
    requires height { area.height < 2 ^ 8 }
    ensures { result ≡ upper_stripe area }
{
    Area {
        y: area.y + area.height / 4,
        height: (area.height / 5).max(1),
        ..area
    }
}

/// The lower stripe of a bar.
fn lower_stripe(area: Area) -> Area
    requires y { area.y < 2 ^ 63 }
    requires height { area.height < 2 ^ 8 }
    ensures { result ≡ lower_stripe area }
{
    Area {
        y: area.y + area.height * 5 / 8,
        height: (area.height / 5).max(1),
        ..area
    }
}

/// Writes a white stripe, if there is one.
fn write_stripe_where<K: Sink>(is: bool, stripe: Area, page: &mut Page, sink: &mut K)
    ensures { Adds (K.seen sink.old) page.old (K.seen sink.new) page.new (stripe_where is stripe) }
{
    if is {
        write_rect(b"z", stripe, page, sink);
    }
}

/// Writes the stripes of a worker over its bar: none for 0 to 7, the upper one for 8 to 15, the lower one for 16 to 23,
/// and both for 24 to 31.
pub(crate) fn write_marks<K: Sink>(worker: u32, area: Area, page: &mut Page, sink: &mut K)
    requires y { area.y < 2 ^ 63 }
    requires height { area.height < 2 ^ 8 }
    ensures { Adds (K.seen sink.old) page.old (K.seen sink.new) page.new (marks_text worker area) }
{
    write_stripe_where(worker / 8 % 2 == 1, upper_stripe(area), page, sink);
    write_stripe_where(worker / 16 % 2 == 1, lower_stripe(area), page, sink);
}
