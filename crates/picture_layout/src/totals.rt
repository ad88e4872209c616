//! What the head of a picture counts.
ghost use Rattle.std.specs.Prelude.{◌≡◌, ◌≤◌, ◌*◌, ◌^◌, length, map, count_by};
ghost use Rattle.resource_lock.specs.declared.marks.Mark.TheVariants.{Failed};
ghost use Rattle.history_text.specs.HistoryView.{entry_read};
ghost use Rattle.picture_layout.specs.Totals.{is_task, is_unit, ended_with, skips, most_queued, most_out, peaks_of, queue_scale, total_out};

use history_text::HistoryEntry;
use lock_transforms::Kind;
use resource_lock::{Mark, MarkId};
use run_spans::{Level, Span, Subject};

/// Whether a span is a task's that ended with this mark.
fn is_task(span: &Span, mark: Mark) -> bool
    ensures { result ≡ is_task span.now mark }
{
    matches!(span.subject, Subject::Running(MarkId::Task(_))) && span.mark == mark
}

/// Whether a span is a unit's.
fn is_unit(span: &Span) -> bool
    ensures { result ≡ is_unit span.now }
{
    matches!(span.subject, Subject::Running(MarkId::Unit(_)))
}

/// Whether an entry skips a task.
fn skips(entry: &HistoryEntry) -> bool
    ensures { result ≡ skips (entry_read entry.now) }
{
    entry.changes.is_some() && matches!(entry.kind, Kind::Skip(_))
}

/// How many tasks ended with a mark.
pub fn count_tasks(spans: &[Span], mark: Mark) -> u64
    ensures { result ≡ count_by (λ s. is_task s mark) spans.now }
{
    spans.iter().filter(|span| is_task(span, mark)).count() as u64
}

/// How many units were worked on.
pub fn count_units(spans: &[Span]) -> u64
    ensures { result ≡ count_by is_unit spans.now }
{
    spans.iter().filter(|span| is_unit(span)).count() as u64
}

/// How many units failed.
pub fn count_failed_units(spans: &[Span]) -> u64
    ensures { result ≡ count_by (λ s. ended_with s Failed) spans.now }
{
    spans
        .iter()
        .filter(|span| is_unit(span) && span.mark == Mark::Failed)
        .count() as u64
}

/// How many tasks were skipped.
pub fn count_skips(entries: &[HistoryEntry]) -> u64
    ensures { result ≡ count_by skips (map entry_read entries.now) }
{
    let mut count = 0;
    for entry in entries {
        if skips(entry) {
            count += 1;
        }
    }
    count
}

/// How many units were queued at most.
pub(crate) fn most_queued(levels: &[Level]) -> u64
    ensures { result ≡ most_queued levels.now }
{
    let mut most = 0;
    for level in levels {
        most = level.queued.max(most);
    }
    most
}

/// How many leases were out at most.
pub(crate) fn most_out(levels: &[Level]) -> u64
    ensures { result ≡ most_out levels.now }
{
    let mut most = 0;
    for level in levels {
        most = level.out.max(most);
    }
    most
}

/// What the scales of the curves reach to.
#[derive(Clone, Copy)]
pub struct Peaks {
    /// The most leases that were out, and 1 at least.
    pub out: u64,
    /// The most units that were queued.
    pub queued: u64,
}

pub fn peaks_of(levels: &[Level]) -> Peaks
    ensures are { result ≡ peaks_of levels.now }
    ensures some { 1 ≤ result.out }
{
    Peaks {
        out: most_out(levels).max(1),
        queued: most_queued(levels),
    }
}

impl Peaks {
    /// The scale of the queued units reaches to that of the leases, or higher.
    pub fn scale(&self) -> u64
        ensures is { result ≡ queue_scale self.now }
        ensures some { 1 ≤ self.now.out → 1 ≤ result }
    {
        self.out.max(self.queued)
    }
}

/// The leases out after all entries together.
pub fn total_out(levels: &[Level]) -> u128
    ensures is { result ≡ total_out levels.now }
    ensures few { result ≤ length levels.now * 2 ^ 64 }
{
    let mut total = 0;
    for level in levels {
        total += u128::from(level.out);
    }
    total
}
