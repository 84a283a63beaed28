//! The rows of pages, and which of them are selected.
ghost use Rattle.std.specs.Prelude.{◌≡◌, ◌-◌, ◌^◌, ◌<◌, ◌==◌, false, is_some, option_and_then, option_map, slice_get, IfOk, IfErr, IfSome, Some, true};
ghost use Rattle.std.specs.List.{list_all};
ghost use Rattle.std.specs.Option.{option_map_or, option_to_list};
ghost use Rattle.parquet_base.specs.Intervals.{end, interval, is_well_shaped as is_well_shaped_by};
ghost use Rattle.parquet_meta.specs.Code.{not_negative};
ghost use Rattle.parquet_page.specs.Locations.{begin_in_time, begin_with_row_0, filtered_page as filtered_page_by, filtered_pages as filtered_pages_by, has_shape as has_shape_by, next_row, page_intervals, part_of, rows_between, selected_pages};
ghost use Rattle.columns_core.specs.Refusals.{IsDamaged, Refuses};

use crate::page::FilteredPage;
use columns_core::{Error, Part, Seq};
use parquet_base::{Interval, is_well_shaped, overlaps};
use parquet_meta::PageLocation;
use std::alloc::Global;

/// The rows of each page: from its first row to the first row of the next page, of the last one to `num_rows`.
pub fn page_row_intervals(
    alloc: Global,
    locations: &[PageLocation],
    num_rows: usize,
) -> Result<Vec<Interval>, Error>
    ensures rows { IfOk result (λ intervals.
        page_intervals locations.now num_rows ≡ Some intervals.items) }
    ensures refusal { IfErr result (IsDamaged (page_intervals locations.now num_rows)) }
{
    let mut intervals = Vec::with_capacity(alloc, locations.len())?;
    for (i, location) in locations.iter().enumerate() {
        let Some(interval) = rows_of_page(*location, &locations[i + 1..], num_rows) else {
            return Err(Error::ExternalFormat(Part::Location));
        };
        intervals.push(interval)?;
    }
    Ok(intervals)
}

/// The rows of a page in front of others.
fn rows_of_page(page: PageLocation, others: &[PageLocation], num_rows: usize) -> Option<Interval>
    ensures rows { result ≡ rows_between page.first_row_index (next_row others.now num_rows) }
    ensures fits { IfSome result (λ rows. end rows < 2 ^ 64) }
{
    let end = match others.first() {
        Some(next) => natural_number(next.first_row_index)?,
        None => num_rows,
    };
    let start = natural_number(page.first_row_index)?;
    if start <= end {
        Some(Interval {
            start,
            length: end - start,
        })
    } else {
        None
    }
}

/// A number that is not negative.
fn natural_number(number: i64) -> Option<usize>
    ensures { result ≡ not_negative number }
{
    if number < 0 {
        None
    } else {
        Some(number as usize)
    }
}

/// Whether locations have their shape: there is at least one, the first has row 0, first rows never fall nor pass the number of rows, and no
/// number is negative.
pub fn has_shape(locations: &[PageLocation], num_rows: usize) -> bool
    ensures { result ≡ has_shape_by locations.now num_rows }
{
    are_in_order(locations, num_rows) && have_parts(locations)
}

/// Whether the first page has row 0, and all have their rows.
fn are_in_order(locations: &[PageLocation], num_rows: usize) -> bool
    ensures { result ≡ begin_with_row_0 (page_intervals locations.now num_rows) }
{
    begin_at_row_0(first_row(locations)) && have_rows(locations, num_rows)
}

/// The first row of the first page, where there is a page and that row is not negative.
fn first_row(locations: &[PageLocation]) -> Option<usize>
    ensures { result
        ≡ option_and_then (λ page. not_negative page.first_row_index) (slice_get locations.now 0) }
{
    natural_number(locations.first()?.first_row_index)
}

/// Whether pages of which the first has this first row begin at row 0.
fn begin_at_row_0(first: Option<usize>) -> bool
    ensures { result ≡ option_map_or (λ row. row == 0) first false }
{
    match first {
        Some(row) => row == 0,
        None => false,
    }
}

/// Whether first rows never fall nor pass the number of rows, and none is negative.
fn have_rows(locations: &[PageLocation], num_rows: usize) -> bool
    ensures { result ≡ is_some (page_intervals locations.now num_rows) }
{
    for (i, location) in locations.iter().enumerate() {
        if rows_of_page(*location, &locations[i + 1..], num_rows).is_none() {
            return false;
        }
    }
    true
}

/// Whether neither the place nor the size of any page is negative.
fn have_parts(locations: &[PageLocation]) -> bool
    ensures { result ≡ list_all (λ location. is_some (part_of location)) locations.now }
{
    locations.iter().all(|location| has_part(location))
}

/// The same of one page.
fn has_part(location: &PageLocation) -> bool
    ensures { result ≡ is_some (part_of location.now) }
{
    location.offset >= 0 && location.compressed_page_size >= 0
}

/// One entry for each page: its part of the file, and the rows of it that lie in the intervals, which may be none.
pub fn select_pages(
    alloc: Global,
    intervals: &[Interval],
    locations: &[PageLocation],
    num_rows: usize,
) -> Result<Vec<FilteredPage>, Error>
    ensures shaped { IfOk result (λ _. is_well_shaped_by intervals.now num_rows ≡ true) }
    ensures pages { IfOk result (λ pages.
        selected_pages intervals.now locations.now num_rows ≡ Some pages.items) }
    ensures refusal { IfErr result
        (Refuses (is_well_shaped_by intervals.now num_rows)
        (selected_pages intervals.now locations.now num_rows)) }
{
    if !is_well_shaped(intervals, num_rows) {
        return Err(Error::InvalidArgumentError(Part::Request));
    }
    if !begins_in_time(first_row(locations), intervals) {
        return Err(Error::ExternalFormat(Part::Location));
    }
    filtered_pages(alloc, intervals, locations, num_rows)
}

/// Whether pages of which the first has this first row begin at or before the first interval. Without such a row they begin before none.
fn begins_in_time(first: Option<usize>, intervals: &[Interval]) -> bool
    ensures { result
        ≡ begin_in_time (option_to_list (option_map (λ row. interval row 0) first)) intervals.now }
{
    match (first, intervals.first()) {
        (_, None) => true,
        (None, Some(_)) => false,
        (Some(row), Some(interval)) => row <= interval.start,
    }
}

/// The entry of each page, where each has its rows and its part of the file.
fn filtered_pages(
    alloc: Global,
    intervals: &[Interval],
    locations: &[PageLocation],
    num_rows: usize,
) -> Result<Vec<FilteredPage>, Error>
    requires shaped { is_well_shaped_by intervals.now (2 ^ 64 - 1) ≡ true }
    ensures pages { IfOk result (λ pages.
        option_and_then (filtered_pages_by intervals.now locations.now)
        (page_intervals locations.now num_rows) ≡ Some pages.items) }
    ensures refusal { IfErr result (IsDamaged
        (option_and_then (filtered_pages_by intervals.now locations.now)
        (page_intervals locations.now num_rows))) }
{
    let mut pages = Vec::with_capacity(alloc, locations.len())?;
    for (i, location) in locations.iter().enumerate() {
        let Some(rows) = rows_of_page(*location, &locations[i + 1..], num_rows) else {
            return Err(Error::ExternalFormat(Part::Location));
        };
        pages.push(filtered_page(alloc, intervals, *location, rows)?)?;
    }
    Ok(pages)
}

/// The entry of a page with these rows.
fn filtered_page(
    alloc: Global,
    intervals: &[Interval],
    location: PageLocation,
    rows: Interval,
) -> Result<FilteredPage, Error>
    requires shaped { is_well_shaped_by intervals.now (2 ^ 64 - 1) ≡ true }
    requires rows { end rows < 2 ^ 64 }
    ensures page { IfOk result (λ page. filtered_page_by intervals.now location rows ≡ Some page) }
    ensures refusal { IfErr result (IsDamaged (filtered_page_by intervals.now location rows)) }
{
    let start = natural_number(location.offset).ok_or(Error::ExternalFormat(Part::Location))?;
    let length = natural_number(location.compressed_page_size as i64).ok_or(Error::ExternalFormat(
        Part::Location,
    ))?;
    let selected_rows = Seq::new(overlaps(alloc, rows, intervals)?);
    Ok(FilteredPage {
        start: start as u64,
        length,
        selected_rows,
        num_rows: rows.length,
    })
}
