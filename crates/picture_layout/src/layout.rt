//! The scale of the entries, and where the rows of a panel lie.
ghost use Rattle.std.specs.Prelude.{◌≡◌, ◌<◌, ◌≤◌, ◌+◌, ◌^◌};
ghost use Rattle.picture_layout.specs.Layout.{scale_of, rows_of, x_of, right_of, base_of, row_y, rows_bottom, locks_y, lock_height, folded_y};
ghost use Rattle.picture_layout.specs.Layout.{folded_height, ceil_div, run_row_height, curve_height};

/// The width of the labels.
pub const LEFT: u64 = 76;

/// Which locks have no row of their own, but are told by number in one row of their panel.
#[derive(Clone, Copy)]
pub enum Folding {
    /// None.
    Unfolded,
    /// Those that no worker has parked within the panel. So none of them was waited for by a worker that wanted it back, nor
    /// parked beside its owner.
    Unparked,
    /// All.
    All,
}

/// A form that a picture can have: the width of its plots, and which locks are folded.
#[derive(Clone, Copy)]
pub struct Format {
    pub plot: u32,
    pub folding: Folding,
}

/// The format that a picture has where all are too high.
pub(crate) const USUAL: Format = Format {
    plot: 1190,
    folding: Folding::Unfolded,
};

/// The formats that are tried one after another. The picture has the first in which it isn't too high.
pub(crate) const FORMATS: &[Format] = &[
    Format {
        plot: 1190,
        folding: Folding::Unfolded,
    },
    Format {
        plot: 2380,
        folding: Folding::Unfolded,
    },
    Format {
        plot: 4760,
        folding: Folding::Unfolded,
    },
    Format {
        plot: 9520,
        folding: Folding::Unfolded,
    },
    Format {
        plot: 19_040,
        folding: Folding::Unfolded,
    },
    Format {
        plot: 1190,
        folding: Folding::Unparked,
    },
    Format {
        plot: 2380,
        folding: Folding::Unparked,
    },
    Format {
        plot: 4760,
        folding: Folding::Unparked,
    },
    Format {
        plot: 9520,
        folding: Folding::Unparked,
    },
    Format {
        plot: 19_040,
        folding: Folding::Unparked,
    },
    Format {
        plot: 1190,
        folding: Folding::All,
    },
    Format {
        plot: 2380,
        folding: Folding::All,
    },
    Format {
        plot: 4760,
        folding: Folding::All,
    },
    Format {
        plot: 9520,
        folding: Folding::All,
    },
    Format {
        plot: 19_040,
        folding: Folding::All,
    },
];

/// No plot is wider.
pub(crate) const WIDEST: u32 = 19_040;

/// The height of the curve of leases.
pub const CURVE: u64 = 48;

/// The height of the lane of a worker that has parked a lock.
pub const LANE: u64 = 3;

/// Into how many panels the entries are cut, how many entries each has, how many px an entry is wide, and which locks are folded.
#[derive(Clone, Copy)]
pub(crate) struct Scale {
    pub per: u8,
    pub size: u32,
    pub panels: u32,
    pub folding: Folding,
}

/// Where the bars of a worker's row lie in it, in px.
#[derive(Clone, Copy)]
pub struct Rows {
    pub height: u8,
    pub task_y: u8,
    pub task_height: u8,
    pub lane_y: u8,
    pub lane_height: u8,
    pub item_y: u8,
    pub item_height: u8,
    pub item_foot: u8,
    pub tick_y: u8,
    pub tick_height: u8,
    pub label_y: u8,
    /// Whether there is room for words of 9 px.
    pub large: bool,
}

/// The rows of up to 12 workers.
pub(crate) const LARGE: Rows = Rows {
    height: 36,
    task_y: 3,
    task_height: 12,
    lane_y: 16,
    lane_height: 15,
    item_y: 18,
    item_height: 11,
    item_foot: 2,
    tick_y: 32,
    tick_height: 3,
    label_y: 22,
    large: true,
};

/// The rows of more workers.
pub(crate) const SMALL: Rows = Rows {
    height: 20,
    task_y: 2,
    task_height: 4,
    lane_y: 7,
    lane_height: 9,
    item_y: 8,
    item_height: 7,
    item_foot: 1,
    tick_y: 17,
    tick_height: 2,
    label_y: 14,
    large: false,
};

pub(crate) fn rows_of(workers: u32) -> Rows
    ensures { result ≡ rows_of workers }
{
    if workers <= 12 { LARGE } else { SMALL }
}

/// The scale for so many workers and entries in a format. A run that fits into the plot is one panel, with
/// entries as wide as they can be, and 24 px at most.
pub(crate) fn scale_of(format: Format, workers: u32, count: u32) -> Scale
    requires workers { 1 ≤ workers }
    requires few { count < 2 ^ 31 }
    ensures is { result ≡ scale_of format workers count }
    ensures size { result.size ≤ count + 1 }
{
    let per = (40 / workers).min(12).max(1);
    let most = (format.plot / per).max(1);
    if count <= most {
        let size = count.max(1);
        return Scale {
            per: (format.plot / size).min(24) as u8,
            size,
            panels: count.min(1),
            folding: format.folding,
        };
    }
    let size = ceil_div(count, ceil_div(count, most));
    Scale {
        per: per as u8,
        size,
        panels: ceil_div(count, size),
        folding: format.folding,
    }
}

pub(crate) fn ceil_div(number: u32, by: u32) -> u32
    requires some { 1 ≤ by }
    requires number { number < 2 ^ 31 }
    requires by { by < 2 ^ 31 }
    ensures is { result ≡ ceil_div number by }
    ensures some { 1 ≤ number → 1 ≤ result }
    ensures few { result ≤ number }
{
    (number + (by - 1)) / by
}

/// A panel of the picture: its entries, how wide one is, where it begins, and its rows.
#[derive(Clone, Copy)]
pub struct Layout {
    pub first: u32,
    /// The number behind its last entry.
    pub behind: u32,
    pub per: u8,
    pub top: u32,
    pub workers: u32,
    /// How many rows of locks there are.
    pub locks: u32,
    /// How many lanes of workers that have parked a lock there are below these rows.
    pub lanes: u32,
    /// How many locks have no row of their own.
    pub folded: u64,
    pub folding: Folding,
}

impl Layout {
    pub fn rows(&self) -> Rows
        ensures { result ≡ rows_of self.now.workers }
    {
        rows_of(self.workers)
    }

    /// Where an entry begins. Those outside of the plot lie at its edges.
    pub fn x_of(&self, entry: u64) -> u64
        ensures at { result ≡ x_of self.now entry }
        ensures within { result < 2 ^ 23 }
    {
        LEFT + entry
            .saturating_sub(u64::from(self.first))
            .min(u64::from(WIDEST))
            * u64::from(self.per)
    }

    /// Where the panel ends.
    pub fn right(&self) -> u64
        ensures at { result ≡ right_of self.now }
        ensures within { result < 2 ^ 23 }
    {
        self.x_of(u64::from(self.behind))
    }

    /// Where the curve of the leases stands on.
    pub fn base(&self) -> u64
        ensures at { result ≡ base_of self.now }
        ensures within { result < 2 ^ 33 }
    {
        u64::from(self.top) + CURVE
    }

    /// Where the row of a worker begins.
    pub fn row_y(&self, worker: u32) -> u64
        ensures at { result ≡ row_y self.now worker }
        ensures within { result < 2 ^ 39 }
    {
        u64::from(self.top) + 72 + u64::from(worker) * u64::from(self.rows().height)
    }

    /// Where the rows of the locks begin.
    pub fn locks_y(&self) -> u64
        ensures at { result ≡ locks_y self.now }
        ensures within { result < 2 ^ 40 }
    {
        self.row_y(self.workers) + 10
    }

    /// How high the row of a lock is, without its lanes.
    pub fn lock_height(&self) -> u64
        ensures at { result ≡ lock_height self.now }
        ensures within { result ≤ 14 }
    {
        if self.locks <= 20 { 14 } else { 10 }
    }

    /// Where the rows of the locks end, and that of the folded ones begins.
    pub fn folded_y(&self) -> u64
        ensures at { result ≡ folded_y self.now }
        ensures within { result < 2 ^ 41 }
    {
        self.locks_y() + u64::from(self.locks) * self.lock_height() + u64::from(self.lanes) * LANE
    }

    /// How high the row of the folded locks is.
    fn folded_height(&self) -> u64
        ensures at { result ≡ folded_height self.now }
        ensures within { result ≤ 14 }
    {
        if self.folded == 0 { 0 } else { 14 }
    }

    /// Where all rows end.
    pub fn bottom(&self) -> u64
        ensures at { result ≡ rows_bottom self.now }
        ensures within { result < 2 ^ 42 }
    {
        self.folded_y() + self.folded_height()
    }
}

/// How high the row of a worker is in the whole run above the panels.
pub fn run_row_height(workers: u32) -> u8
    ensures is { result ≡ run_row_height workers }
    ensures some { 10 ≤ result }
    ensures few { result ≤ 12 }
{
    if workers <= 16 { 12 } else { 10 }
}

/// How high a curve stands for a value, where the most is at the top.
pub fn curve_height(value: u64, most: u64) -> u64
    requires { 1 ≤ most }
    ensures is { result ≡ curve_height value most }
    ensures within { result ≤ 48 }
{
    let scaled = u128::from(CURVE) * u128::from(value.min(most)) / u128::from(most);
    scaled as u64
}
