//! Located pages with their selected rows.
ghost use Rattle.std.specs.Prelude.{◌≡◌, ◌-◌, ◌+◌, ◌&&◌, nat_le, map, filter, true, [], if◌then◌else◌};
ghost use Rattle.std.specs.List.{list_all};
ghost use Rattle.parquet_base.specs.Intervals.{row_count as row_count_by};
ghost use Rattle.parquet_page.specs.Lent.{are_well_shaped as are_well_shaped_by, first_start as first_start_by, is_wanted as is_wanted_by, lie_within as lie_within_by, selected_count};
ghost use Rattle.parquet_read.specs.Asked as spec;
ghost use Rattle.parquet_read.specs.Opening.{counted_from};

use crate::locations::start_behind;
use columns_core::Seq;
use parquet_base::Interval;
use parquet_meta::ColumnChunkMetaData;
use parquet_page::{FilteredPage, count_selected, is_wanted};
use std::alloc::Global;

/// Whether the selected rows of all pages are well shaped, and can be counted.
pub(crate) fn are_well_shaped(pages: &[FilteredPage]) -> bool
    ensures { result ≡ are_well_shaped_by pages.now }
{
    count_selected(pages).is_some()
}

/// The selected rows of all pages.
pub(crate) fn selected_rows(pages: &[FilteredPage]) -> usize
    requires { are_well_shaped_by pages.now ≡ true }
    ensures { result ≡ selected_count pages.now }
{
    count_selected(pages).unwrap_or(0)
}

/// The pages that hold one of the first selected rows: a later page keeps its place, and loses its rows.
pub(crate) fn pages_within(
    alloc: Global,
    limit: Option<usize>,
    pages: Vec<FilteredPage>,
) -> Vec<FilteredPage>
    ensures { result.items ≡ spec.pages_within limit pages.items }
{
    let mut pages = pages;
    if let Some(limit) = limit {
        cut_pages(alloc, limit, &mut pages);
    }
    pages
}

fn cut_pages(alloc: Global, limit: usize, pages: &mut [FilteredPage])
    ensures { pages.new ≡ spec.pages_up_to limit pages.old }
{
    let mut left = limit;
    for page in pages.iter_mut() {
        let behind = rows_behind(left, page.selected_rows.as_slice());
        cut_page(alloc, page, left == 0);
        left = behind;
    }
}

/// Takes a page's selected rows away, or leaves it as it is.
fn cut_page(alloc: Global, page: &mut FilteredPage, is_behind: bool)
    ensures { page.new ≡ (if is_behind then record page.old { selected_rows = [] } else page.old) }
{
    if is_behind {
        page.selected_rows = Seq::new(Vec::new(alloc));
    }
}

/// How many of so many rows are left behind those of intervals.
fn rows_behind(rows: usize, runs: &[Interval]) -> usize
    ensures { result ≡ rows - row_count_by runs.now }
{
    let mut left = rows;
    for run in runs {
        left = left.saturating_sub(run.length);
    }
    left
}

/// Whether the pages with selected rows, and the part before the first page, lie in a column's chunk.
pub(crate) fn are_in_range(column: &ColumnChunkMetaData, pages: &[FilteredPage]) -> bool
    ensures { result ≡ spec.are_in_range column.now pages.now }
{
    let (start, length) = column.byte_range();
    start_behind(pages, start) && lie_within(start, length, pages)
}

/// Whether these parts lie in so many bytes from a place on.
fn lie_within(start: u64, length: u64, pages: &[FilteredPage]) -> bool
    ensures { result ≡ lie_within_by length (map (counted_from start) pages.now) }
{
    all_lie(start, first_start_from(start, pages), length, pages)
}

/// Whether each page with selected rows lies in so many bytes from a place on, and so does the place where the first page begins.
fn all_lie(start: u64, first: u64, length: u64, pages: &[FilteredPage]) -> bool
    ensures { result
        ≡ list_all (λ page. nat_le (page.start - start + page.length) length && nat_le first length)
        (filter is_wanted_by pages.now) }
{
    pages
        .iter()
        .filter(|page| is_wanted(page))
        .all(|page| lies_within(page, start, first, length))
}

/// Where the first page starts, counted from a place.
pub(crate) fn first_start_from(start: u64, pages: &[FilteredPage]) -> u64
    ensures { result ≡ first_start_by (map (counted_from start) pages.now) }
{
    match pages.first() {
        Some(page) => page.start.saturating_sub(start),
        None => 0,
    }
}

/// Whether a page lies in so many bytes from a place on, and the place where the first page begins.
fn lies_within(page: &FilteredPage, start: u64, first: u64, length: u64) -> bool
    ensures { result ≡ (nat_le (page.now.start - start + page.now.length) length && nat_le first length) }
{
    let place = page.start.saturating_sub(start);
    place <= length && page.length as u64 <= length - place && first <= length
}
