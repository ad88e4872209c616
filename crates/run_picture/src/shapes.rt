//! Rectangles, lines and words of an SVG.
ghost use Rattle.std.specs.Prelude.{◌++◌, ◌%◌, codes, decimal};
ghost use Rattle.file_access.specs.PageView.{Adds};
ghost use Rattle.run_picture.specs.Shapes.{area_text, rect_begin, rect_text, hued, text_begin, label, label_number, down, across, number_words};

use file_access::{Page, Sink};
use resource_lock::WorkerId;

/// Where a rectangle lies: its left upper corner, and its size, in px.
#[derive(Clone, Copy)]
pub(crate) struct Area {
    pub(crate) x: u64,
    pub(crate) y: u64,
    pub(crate) width: u64,
    pub(crate) height: u64,
}

/// Where words stand, in px: the left end of their foot, or another by their class.
#[derive(Clone, Copy)]
pub(crate) struct Point {
    pub(crate) x: u64,
    pub(crate) y: u64,
}

/// Writes a word and a number.
pub(crate) fn write_number<K: Sink>(word: &[u8], number: u64, page: &mut Page, sink: &mut K)
    ensures { Adds (K.seen sink.old) page.old (K.seen sink.new) page.new (number_words word.now number) }
{
    page.text(sink, word);
    page.number(sink, number);
}

/// Writes a word and a number of 32 bits.
pub(crate) fn write_short<K: Sink>(word: &[u8], number: u32, page: &mut Page, sink: &mut K)
    ensures { Adds (K.seen sink.old) page.old (K.seen sink.new) page.new (number_words word.now number) }
{
    page.text(sink, word);
    page.number(sink, u64::from(number));
}

/// Writes the hue of a worker: there are eight.
pub(crate) fn write_hue<K: Sink>(class: &[u8], worker: u32, page: &mut Page, sink: &mut K)
    ensures { Adds (K.seen sink.old) page.old (K.seen sink.new) page.new (hued class.now worker) }
{
    page.text(sink, class);
    page.number(sink, u64::from(worker % 8));
}

fn write_area<K: Sink>(area: Area, page: &mut Page, sink: &mut K)
    ensures { Adds (K.seen sink.old) page.old (K.seen sink.new) page.new (area_text area) }
{
    write_number(b"\" x=\"", area.x, page, sink);
    write_number(b"\" y=\"", area.y, page, sink);
    write_number(b"\" width=\"", area.width, page, sink);
    write_number(b"\" height=\"", area.height, page, sink);
    page.text(sink, b"\"");
}

/// Begins a rectangle of a class. Its end, or its title, follows.
pub(crate) fn begin_rect<K: Sink>(class: &[u8], area: Area, page: &mut Page, sink: &mut K)
    ensures { Adds (K.seen sink.old) page.old (K.seen sink.new) page.new (rect_begin class.now area) }
{
    page.text(sink, b"<rect class=\"");
    page.text(sink, class);
    write_area(area, page, sink);
}

/// Begins a rectangle of a class in a worker's hue.
pub(crate) fn begin_hued<K: Sink>(
    class: &[u8],
    worker: WorkerId,
    area: Area,
    page: &mut Page,
    sink: &mut K,
)
    ensures { Adds (K.seen sink.old) page.old (K.seen sink.new) page.new (rect_begin (hued class.now worker.0) area) }
{
    page.text(sink, b"<rect class=\"");
    write_hue(class, worker.0, page, sink);
    write_area(area, page, sink);
}

/// Writes a rectangle of a class.
pub(crate) fn write_rect<K: Sink>(class: &[u8], area: Area, page: &mut Page, sink: &mut K)
    ensures { Adds (K.seen sink.old) page.old (K.seen sink.new) page.new (rect_text class.now area) }
{
    begin_rect(class, area, page, sink);
    page.text(sink, b"/>\n");
}

/// Writes a rectangle of a class in a worker's hue.
pub(crate) fn write_hued<K: Sink>(
    class: &[u8],
    worker: WorkerId,
    area: Area,
    page: &mut Page,
    sink: &mut K,
)
    ensures { Adds (K.seen sink.old) page.old (K.seen sink.new) page.new (rect_text (hued class.now worker.0) area) }
{
    begin_hued(class, worker, area, page, sink);
    page.text(sink, b"/>\n");
}

/// Begins words of a class at a place. The words and their end follow.
pub(crate) fn begin_text<K: Sink>(class: &[u8], x: u64, y: u64, page: &mut Page, sink: &mut K)
    ensures { Adds (K.seen sink.old) page.old (K.seen sink.new) page.new (text_begin class.now x y) }
{
    page.text(sink, b"<text class=\"");
    page.text(sink, class);
    write_number(b"\" x=\"", x, page, sink);
    write_number(b"\" y=\"", y, page, sink);
    page.text(sink, b"\">");
}

/// Writes words of a class at a place.
pub(crate) fn write_label<K: Sink>(
    class: &[u8],
    x: u64,
    y: u64,
    words: &[u8],
    page: &mut Page,
    sink: &mut K,
)
    ensures { Adds (K.seen sink.old) page.old (K.seen sink.new) page.new (label class.now x y words.now) }
{
    begin_text(class, x, y, page, sink);
    page.text(sink, words);
    page.text(sink, b"</text>\n");
}

/// Writes a word and a number at a place.
pub(crate) fn write_label_number<K: Sink>(
    class: &[u8],
    at: Point,
    word: &[u8],
    number: u64,
    page: &mut Page,
    sink: &mut K,
)
    ensures { Adds (K.seen sink.old) page.old (K.seen sink.new) page.new (label_number class.now at.x at.y word.now number) }
{
    begin_text(class, at.x, at.y, page, sink);
    write_number(word, number, page, sink);
    page.text(sink, b"</text>\n");
}

/// Writes a line down.
pub(crate) fn write_down<K: Sink>(
    class: &[u8],
    x: u64,
    top: u64,
    bottom: u64,
    page: &mut Page,
    sink: &mut K,
)
    ensures { Adds (K.seen sink.old) page.old (K.seen sink.new) page.new (down class.now x top bottom) }
{
    page.text(sink, b"<path class=\"");
    page.text(sink, class);
    write_number(b"\" d=\"M", x, page, sink);
    write_number(b" ", top, page, sink);
    write_number(b"V", bottom, page, sink);
    page.text(sink, b"\"/>\n");
}

/// Writes a line to the right.
pub(crate) fn write_across<K: Sink>(
    class: &[u8],
    x: u64,
    y: u64,
    right: u64,
    page: &mut Page,
    sink: &mut K,
)
    ensures { Adds (K.seen sink.old) page.old (K.seen sink.new) page.new (across class.now x y right) }
{
    page.text(sink, b"<path class=\"");
    page.text(sink, class);
    write_number(b"\" d=\"M", x, page, sink);
    write_number(b" ", y, page, sink);
    write_number(b"H", right, page, sink);
    page.text(sink, b"\"/>\n");
}
