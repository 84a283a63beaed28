//! Pages that are located in a chunk.
ghost use Rattle.std.specs.Prelude.{◌≡◌, ◌⊎◌, Some, true, false, map, length, filter, IfOk, IfErr, OnOk};
ghost use Rattle.columns_core.specs.Causes.{IsMisfit, IsWantOfMemory};
ghost use Rattle.parquet_page.specs.Lending.{AreOfType, has_data_behind};
ghost use Rattle.parquet_page.specs.Lent.{are_well_shaped, is_wanted as is_wanted_by, selected_count};
ghost use Rattle.parquet_read.specs.ColumnPages.{column_pages, rows_to_lend};
ghost use Rattle.parquet_read.specs.Opening as spec;

use crate::ColumnPages;
use columns_core::{Error, Part};
use parquet_meta::ColumnChunkMetaData;
use parquet_page::{FilteredPage, IndexedPageReader, is_wanted};
use std::alloc::Global;

/// The located pages of a chunk, whose starts are places in the file.
pub(crate) fn open_located(
    alloc: Global,
    column: &ColumnChunkMetaData,
    bytes: Vec<u8>,
    pages: Vec<FilteredPage>,
) -> Result<ColumnPages, Error>
    ensures { spec.OpensPages false (column.now, bytes.items) (Some pages.items) result }
{
    let (start, _) = column.byte_range();
    if !start_behind(&pages, start) {
        return Err(Error::ExternalFormat(Part::Location));
    }
    let placed = counted_from(pages, start);
    let reader = IndexedPageReader::new(alloc, bytes, column, placed)?;
    Ok(ColumnPages::Located(reader))
}

/// As many nulls as rows are selected. No page is looked at, wherever it lies.
pub(crate) fn open_nulls(
    alloc: Global,
    column: &ColumnChunkMetaData,
    pages: Vec<FilteredPage>,
) -> Result<ColumnPages, Error>
    ensures typed { IfOk result (λ nulls.
        AreOfType column.now.descriptor.primitive_type (column_pages nulls)) }
    ensures ordered { IfOk result (λ nulls. has_data_behind (column_pages nulls) ≡ true) }
    ensures rows { IfOk result (λ nulls. rows_to_lend nulls ≡ selected_count pages.items) }
    ensures shaped { OnOk result (are_well_shaped pages.items ≡ true) }
    ensures err { IfErr result (λ e.
        IsWantOfMemory e ⊎ IsMisfit (are_well_shaped pages.items ≡ true) e) }
{
    let bodies = no_bodies(alloc, &pages)?;
    let reader = IndexedPageReader::from_ranges(alloc, None, bodies, column, pages)?;
    Ok(ColumnPages::Located(reader))
}

/// No bytes for each page with selected rows.
fn no_bodies(alloc: Global, pages: &[FilteredPage]) -> Result<Vec<Vec<u8>>, Error>
    ensures bodies { IfOk result (λ bodies. length bodies.items ≡ length (filter is_wanted_by pages.now)) }
    ensures memory { IfErr result IsWantOfMemory }
{
    let mut bodies = Vec::new(alloc);
    for page in pages {
        if is_wanted(page) {
            bodies.push(Vec::new(alloc))?;
        }
    }
    Ok(bodies)
}

/// Whether each page with selected rows starts at a place or behind it.
pub(crate) fn start_behind(pages: &[FilteredPage], start: u64) -> bool
    ensures { result ≡ spec.start_behind start pages.now }
{
    pages
        .iter()
        .filter(|page| is_wanted(page))
        .all(|page| start <= page.start)
}

/// Pages by their starts from a place on. One that lies before it starts at 0.
pub(crate) fn counted_from(pages: Vec<FilteredPage>, start: u64) -> Vec<FilteredPage>
    ensures { result.items ≡ map (spec.counted_from start) pages.items }
{
    let mut pages = pages;
    count_from(&mut pages, start);
    pages
}

/// Counts the starts of pages from a place on.
fn count_from(pages: &mut [FilteredPage], start: u64)
    ensures { pages.new ≡ map (spec.counted_from start) pages.old }
{
    for page in pages.iter_mut() {
        page.start = page.start.saturating_sub(start);
    }
}
