//! The arrays of a column of which only the parts are read that are needed.
ghost use Rattle.std.specs.Prelude.{◌≡◌, ◌+◌, ◌≤◌, [], Some, List, ℕ, true, map, filter, length, sum_by, IfOk, IfErr, IfSome, OnOk, Option};
ghost use Rattle.columns_core.specs.Causes.{IsWantOfMemory};
ghost use Rattle.parquet_meta.specs.Chunks.{chunk_range};
ghost use Rattle.parquet_meta.specs.Keeps.{Keeps};
ghost use Rattle.parquet_meta.specs.Lists.{all_of};
ghost use Rattle.parquet_meta.specs.Places.{place_end};
ghost use Rattle.parquet_meta.specs.Source.{Finds};
ghost use Rattle.parquet_page.specs.Lending.{AreOfType, has_data_behind};
ghost use Rattle.parquet_page.specs.Lent.{are_well_shaped, is_wanted as is_wanted_by, selected_count};
ghost use Rattle.parquet_page.specs.declared.page.FilteredPage.{FilteredPage as PageValue};
ghost use Rattle.page_decoding.specs.Queue.{IsChunkSize};
ghost use Rattle.parquet_read.specs.Asked as spec;
ghost use Rattle.parquet_read.specs.ColumnPages.{column_count, column_pages, rows_to_lend};
ghost use Rattle.parquet_read.specs.Opening.{chunk_supply, opened_left, opened_outline, opened_supply, outline_of, placed_in as placed_in_by, type_causes};
ghost use Rattle.parquet_read.specs.RowGroup.{iter_left};

use crate::ColumnPages;
use crate::deserializer::size_within;
use crate::locations::counted_from;
use crate::selected::first_start_from;
use columns_core::{DataType, Error};
use flat_binary::{ArrayIter, page_iter_to_arrays};
use parquet_meta::{ColumnChunkMetaData, Place, Source, read_range};
use parquet_page::{FilteredPage, IndexedPageReader, is_wanted};
use std::alloc::Global;

/// The arrays of so many selected rows of a column, of which the pages with selected rows are read and, where there is one, the part before the first page.
pub(crate) fn open_parts<S: Source>(
    alloc: Global,
    source: &mut S,
    column: &ColumnChunkMetaData,
    data_type: DataType,
    rows: usize,
    chunk_size: Option<usize>,
    pages: Vec<FilteredPage>,
) -> Result<ArrayIter<ColumnPages>, Error>
    requires size { IsChunkSize chunk_size }
    requires shaped { are_well_shaped pages.items ≡ true }
    requires carried { type_causes data_type column.now ≡ [] }
    requires range { spec.are_in_range column.now pages.items ≡ true }
    requires there { IfSome (S.told source.old) (λ file.
        place_end (chunk_range column.now) ≤ length file) }
    ensures keeps { Keeps S.Source source.old source.new }
    ensures quiet { OnOk result (S.faults source.new ≡ S.faults source.old) }
    ensures found { Finds iter_left
        (spec.left_in_file data_type chunk_size rows (Some pages.items) column.now)
        (S.told source.old) (S.faults source.old) (S.faults source.new) result }
    ensures outline { rows ≤ selected_count pages.items → IfOk result (λ arrays.
        outline_of (iter_left arrays) ≡ opened_outline data_type chunk_size rows) }
    ensures taken { S.taken source.new ≤ S.taken source.old
        + spec.parts_length (placed_in_by column.now pages.items) }
{
    let bodies = read_bodies(alloc, source, &pages)?;
    let before = read_before(alloc, source, column, &pages, bodies.len())?;
    let placed = placed_in(column, pages);
    let reader = IndexedPageReader::from_ranges(alloc, Some(before), bodies, column, placed)?;
    open_pages(
        alloc,
        column,
        ColumnPages::Located(reader),
        data_type,
        rows,
        chunk_size,
    )
}

/// The pages that have selected rows, one by one.
fn read_bodies<S: Source>(
    alloc: Global,
    source: &mut S,
    pages: &[FilteredPage],
) -> Result<Vec<Vec<u8>>, Error>
    ensures keeps { Keeps S.Source source.old source.new }
    ensures quiet { OnOk result (S.faults source.new ≡ S.faults source.old) }
    ensures found { Finds (λ bodies. map (λ body. body.items) bodies.items)
        (λ file. all_of (spec.page_part file) (filter is_wanted_by pages.now))
        (S.told source.old) (S.faults source.old) (S.faults source.new) result }
    ensures each { IfOk result (λ bodies. length bodies.items ≡ length (filter is_wanted_by pages.now)) }
    ensures taken { S.taken source.new ≤ S.taken source.old
        + sum_by spec.page_length (filter is_wanted_by pages.now) }
{
    let mut bodies = Vec::new(alloc);
    for page in pages {
        if !is_wanted(page) {
            continue;
        }
        let place = Place {
            offset: page.start,
            length: page.length as u64,
        };
        bodies.push(read_range(alloc, source, place)?)?;
    }
    Ok(bodies)
}

/// The part of a chunk before the first page, where any page is read.
fn read_before<S: Source>(
    alloc: Global,
    source: &mut S,
    column: &ColumnChunkMetaData,
    pages: &[FilteredPage],
    read: usize,
) -> Result<Vec<u8>, Error>
    ensures keeps { Keeps S.Source source.old source.new }
    ensures quiet { OnOk result (S.faults source.new ≡ S.faults source.old) }
    ensures found { Finds (λ part. part.items) (λ file. spec.part_in_front file column.now pages.now read)
        (S.told source.old) (S.faults source.old) (S.faults source.new) result }
    ensures taken { S.taken source.new ≤ S.taken source.old + spec.length_before column.now pages.now read }
{
    if read == 0 {
        return Ok(Vec::new(alloc));
    }
    read_range(alloc, source, place_before(column, pages))
}

fn place_before(column: &ColumnChunkMetaData, pages: &[FilteredPage]) -> Place
    ensures { result ≡ spec.place_of_before column.now pages.now }
{
    let (offset, _) = column.byte_range();
    Place {
        offset,
        length: first_start_from(offset, pages),
    }
}

/// Pages by their starts from the start of a column's chunk on.
fn placed_in(column: &ColumnChunkMetaData, pages: Vec<FilteredPage>) -> Vec<FilteredPage>
    ensures { result.items ≡ placed_in_by column.now pages.items }
{
    let (start, _) = column.byte_range();
    counted_from(pages, start)
}

/// The arrays of so many rows of pages.
fn open_pages(
    alloc: Global,
    column: &ColumnChunkMetaData,
    pages: ColumnPages,
    data_type: DataType,
    rows: usize,
    chunk_size: Option<usize>,
) -> Result<ArrayIter<ColumnPages>, Error>
    requires size { IsChunkSize chunk_size }
    requires typed { AreOfType column.now.descriptor.primitive_type (column_pages pages) }
    requires ordered { has_data_behind (column_pages pages) ≡ true }
    requires carried { type_causes data_type column.now ≡ [] }
    ensures begins { (entries : Option (List PageValue)) (bytes : List ℕ)
        → opened_supply pages ≡ chunk_supply (column.now, bytes) entries
        → IfOk result (λ arrays. Some (iter_left arrays)
        ≡ opened_left data_type chunk_size rows entries (column.now, bytes)) }
    ensures outline { rows ≤ rows_to_lend pages → column_count pages ≡ 0 → IfOk result (λ arrays.
        outline_of (iter_left arrays) ≡ opened_outline data_type chunk_size rows) }
    ensures memory { IfErr result IsWantOfMemory }
{
    page_iter_to_arrays(
        alloc,
        pages,
        &column.descriptor.primitive_type,
        data_type,
        size_within(rows, chunk_size),
        rows,
    )
}
