//! A walk over the selected rows of a page in which every row has a value.
ghost use Rattle.std.specs.Prelude.{◌≡◌, ◌-◌, ◌<◌, ◌^◌, true, length, List};
ghost use Rattle.parquet_base.specs.Intervals.{is_well_shaped, rows_of};
ghost use Rattle.parquet_base.specs.declared.interval.Interval.{Interval as Rows};

use crate::entries::row_count;
use parquet_base::Interval;

/// Tells a decoder of a page in which every row has a value how many values to skip and how many to read, so that it gives the
/// selected rows. It holds places alone: the selected rows are handed to each call.
#[derive(Clone, Copy)]
pub struct SliceFiltered {
    /// The interval at which it stands.
    interval: usize,
    /// The value at which it stands.
    place: usize,
    /// How many selected rows are still to come.
    left: usize,
}

impl SliceFiltered {
    ghost use Rattle.parquet_page.specs.SliceLeft.{GivesSliceRows, IsWalkOver, rows_left};

    /// Before the first value.
    pub fn new(rows: &[Interval]) -> Self
        requires { is_well_shaped rows.now (2 ^ 64 - 1) ≡ true }
        ensures rows { rows_left result rows.now ≡ rows_of rows.now }
        ensures place { result.place ≡ 0 }
        ensures walk { IsWalkOver result rows.now }
    {
        SliceFiltered {
            interval: 0,
            place: 0,
            left: row_count(rows),
        }
    }

    /// How many values to skip, and how many behind them to read: those of one interval, at most `limit`. The rows are those of `new`.
    pub fn next(&mut self, rows: &[Interval], limit: usize) -> Option<(usize, usize)>
        requires walk { IsWalkOver self.old rows.now }
        requires limit { 0 < limit }
        ensures run { GivesSliceRows limit rows.now self.old self.new result }
        ensures walk { IsWalkOver self.new rows.now }
    {
        let interval = *rows.get(self.interval)?;
        let end = interval.start + interval.length;
        let first = self.place.max(interval.start);
        let passed = first - self.place;
        let taken = limit.min(end - first);
        self.place = first + taken;
        self.left -= taken;
        if self.place == end {
            self.interval += 1;
        }
        Some((passed, taken))
    }

    /// How many selected rows are still to come.
    pub fn len(&self) -> usize
        ensures { (rows : List Rows) →
            IsWalkOver self.now rows → result ≡ length (rows_left self.now rows) }
    {
        self.left
    }
}
