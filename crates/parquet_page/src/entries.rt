//! Pages with their selected rows, as they are handed to a reader.
ghost use Rattle.std.specs.Prelude.{◌≡◌, ◌+◌, ◌^◌, ◌<◌, ◌&&◌, nat_le, filter, length};
ghost use Rattle.parquet_base.specs.Intervals.{is_well_shaped as is_well_shaped_by, row_count as row_count_by};
ghost use Rattle.parquet_base.specs.Reading.{given};
ghost use Rattle.parquet_page.specs.Lent.{are_well_shaped, first_start as first_start_by, is_wanted as is_wanted_by, lie_within as lie_within_by, selected_count};

use crate::page::FilteredPage;
use parquet_base::{Interval, is_well_shaped};

/// Whether some row of a page is selected.
pub fn is_wanted(page: &FilteredPage) -> bool
    ensures { result ≡ is_wanted_by page.now }
{
    !page.selected_rows.as_slice().is_empty()
}

/// The pages with selected rows.
pub(crate) fn wanted(pages: Vec<FilteredPage>) -> Vec<FilteredPage>
    ensures { result.items ≡ filter is_wanted_by pages.items }
{
    let mut pages = pages;
    pages.retain(|page| is_wanted(page));
    pages
}

/// The selected rows of all pages, if these are well shaped.
pub fn count_selected(pages: &[FilteredPage]) -> Option<usize>
    ensures { result ≡ given (are_well_shaped pages.now) (selected_count pages.now) }
{
    let mut count: usize = 0;
    for page in pages {
        let rows = count_rows(page.selected_rows.as_slice(), page.num_rows)?;
        count = count.checked_add(rows)?;
    }
    Some(count)
}

/// The rows of intervals in all, if these are well shaped for a page of so many rows.
fn count_rows(rows: &[Interval], num_rows: usize) -> Option<usize>
    ensures { result ≡ given (is_well_shaped_by rows.now num_rows) (row_count_by rows.now) }
{
    if is_well_shaped(rows, num_rows) {
        Some(row_count(rows))
    } else {
        None
    }
}

/// The rows of intervals in all.
pub(crate) fn row_count(rows: &[Interval]) -> usize
    requires { row_count_by rows.now < 2 ^ 64 }
    ensures { result ≡ row_count_by rows.now }
{
    let mut count = 0;
    for run in rows {
        count += run.length;
    }
    count
}

/// Where the first page starts, and 0 where there is none.
pub fn first_start(pages: &[FilteredPage]) -> u64
    ensures { result ≡ first_start_by pages.now }
{
    match pages.first() {
        Some(page) => page.start,
        None => 0,
    }
}

/// Whether each wanted page, and where there is one the part before the first page, lies in a chunk of so many bytes.
pub(crate) fn lie_within(size: usize, pages: &[FilteredPage]) -> bool
    ensures { result ≡ lie_within_by size pages.now }
{
    let first = first_start(pages) as usize;
    for page in pages {
        if is_wanted(page) && !lies_within(page, first, size) {
            return false;
        }
    }
    true
}

/// Whether a page lies in a chunk of so many bytes, in which the first page begins.
fn lies_within(page: &FilteredPage, first: usize, size: usize) -> bool
    ensures { result ≡ (nat_le (page.now.start + page.now.length) size && nat_le first size) }
{
    let start = page.start as usize;
    start <= size && page.length <= size - start && first <= size
}

/// How many pages have selected rows.
pub(crate) fn count_wanted(pages: &[FilteredPage]) -> usize
    ensures { result ≡ length (filter is_wanted_by pages.now) }
{
    let mut count = 0;
    for page in pages {
        if is_wanted(page) {
            count += 1;
        }
    }
    count
}
