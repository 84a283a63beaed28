//! The rows of pages.
ghost use Rattle.std.specs.Prelude.{◌≡◌, Some, true, IfOk, IfErr};
ghost use Rattle.columns_core.specs.Refusals.{IsDamaged};
ghost use Rattle.parquet_base.specs.Intervals.{AreAdjacent};
ghost use Rattle.parquet_page.specs.Locations.{begin_with_row_0, page_intervals};

use columns_core::Error;
use parquet_base::Interval;
use parquet_meta::PageLocation;
use parquet_page::page_row_intervals;
use std::alloc::Global;

/// The rows of each page of an offset index: from its first row to the first row of the next page, of the last one to `num_rows`.
///
/// `ExternalFormat` where first rows are negative, fall, or pass `num_rows`.
pub fn compute_page_row_intervals(
    alloc: Global,
    locations: &[PageLocation],
    num_rows: usize,
) -> Result<Vec<Interval>, Error>
    ensures rows { IfOk result (λ intervals.
        page_intervals locations.now num_rows ≡ Some intervals.items) }
    // Where the first page begins with row 0, the pages cover all rows, one behind another.
    ensures adjacent { IfOk result (λ intervals.
        begin_with_row_0 (Some intervals.items) ≡ true → AreAdjacent 0 intervals.items num_rows) }
    ensures refusal { IfErr result (IsDamaged (page_intervals locations.now num_rows)) }
{
    page_row_intervals(alloc, locations, num_rows)
}
