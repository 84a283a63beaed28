//! The arrays of a field, over the column that it has.
ghost use Rattle.std.specs.Prelude.{◌≡◌, [], Bool, None, map, length, IfErr, IfSome, OnOk, option_and_then, option_map};
ghost use Rattle.columns_core.specs.Causes.{ComesOf, IsMisfit};
ghost use Rattle.flat_binary.specs.NullType.{is_null_type};
ghost use Rattle.page_decoding.specs.Queue.{IsChunkSize};
ghost use Rattle.parquet_read.specs.Opening as spec;
ghost use Rattle.parquet_read.specs.RowGroup.{iter_left};

use crate::ColumnPages;
use crate::locations::{open_located, open_nulls};
use columns_core::{DataType, Error, Field, Part};
use flat_binary::{ArrayIter, page_iter_to_arrays};
use parquet_meta::ColumnChunkMetaData;
use parquet_page::{FilteredPage, PageReader};
use std::alloc::Global;

/// The arrays of a field in a group of so many rows, over the only column of the field and the bytes of that column's
/// chunk: of all its rows, or of those that are selected in located pages, whose starts are places in the file.
///
/// `InvalidArgumentError` for a chunk size of 0, for lists of pages that are not one for each column, and for rows that are not
/// well shaped; `NotYetImplemented` where there is not one column, or it is not flat, is compressed or is not read as the
/// field's type; `ExternalFormat` where there are pages with selected rows, and one of them or the part before the first page
/// does not lie in the chunk. Of a field that is read as nulls no place is looked at.
pub fn to_deserializer(
    alloc: Global,
    columns: Vec<(&ColumnChunkMetaData, Vec<u8>)>,
    field: Field,
    num_rows: usize,
    chunk_size: Option<usize>,
    pages: Option<Vec<Vec<FilteredPage>>>,
) -> Result<ArrayIter<ColumnPages>, Error>
    ensures { let lists = option_map (λ all. map (λ entries. entries.items) all.items) pages in
        let chunks = map (λ chunk. (chunk.0.now, chunk.1.items)) columns.entry.items in
        spec.OpensAsked (spec.IsLegalOpening chunk_size (length chunks) lists)
        (spec.opening_causes field.data_type lists chunks) iter_left
        (spec.field_left field.data_type chunk_size num_rows lists chunks) result }
{
    check_request(columns.len(), chunk_size, &pages)?;
    let chunk = lone(columns).ok_or(Error::NotYetImplemented(Part::Schema))?;
    let pages = lone_list(pages);
    open_chunk(
        alloc,
        chunk.0,
        chunk.1,
        field.data_type,
        num_rows,
        chunk_size,
        pages,
    )
}

/// Refuses a chunk size of 0, and lists of pages that are not one for each column.
fn check_request(
    columns: usize,
    chunk_size: Option<usize>,
    pages: &Option<Vec<Vec<FilteredPage>>>,
) -> Result<(), Error>
    ensures ok { OnOk result (IsChunkSize chunk_size ×
        IfSome pages.now (λ all. length all.items ≡ columns)) }
    ensures err { IfErr result (
        IsMisfit (IsChunkSize chunk_size × IfSome pages.now (λ all. length all.items ≡ columns))) }
{
    let lists = match pages {
        Some(lists) => lists.len(),
        None => columns,
    };
    if chunk_size == Some(0) || lists != columns {
        return Err(Error::InvalidArgumentError(Part::Request));
    }
    Ok(())
}

/// The located pages of the only column, where they are told.
fn lone_list(pages: Option<Vec<Vec<FilteredPage>>>) -> Option<Vec<FilteredPage>>
    ensures { result ≡ option_and_then (λ all. spec.lone all.items) pages }
{
    lone(pages?)
}

/// The item of a list that has one.
pub(crate) fn lone<T: Drop>(items: Vec<T>) -> Option<T>
    ensures { result ≡ spec.lone items.items }
{
    let mut items = items;
    let last = items.pop();
    if items.is_empty() { last } else { None }
}

/// The arrays of a column as a type.
fn open_chunk(
    alloc: Global,
    column: &ColumnChunkMetaData,
    bytes: Vec<u8>,
    data_type: DataType,
    num_rows: usize,
    chunk_size: Option<usize>,
    pages: Option<Vec<FilteredPage>>,
) -> Result<ArrayIter<ColumnPages>, Error>
    requires { IsChunkSize chunk_size }
    ensures { let entries = option_map (λ all. all.items) pages in
        let chunk : spec.ChunkBytes = (column.now, bytes.items) in
        spec.OpensAsked (spec.AreShaped entries) (spec.chunk_causes_for data_type entries chunk) iter_left
        (spec.opened_left data_type chunk_size num_rows entries chunk) result }
{
    check_column(column)?;
    let nulls = is_null(&data_type);
    let opened = open_pages(alloc, column, bytes, nulls, pages)?;
    page_iter_to_arrays(
        alloc,
        opened,
        &column.descriptor.primitive_type,
        data_type,
        size_within(num_rows, chunk_size),
        num_rows,
    )
}

/// Refuses a column that is not flat or is compressed.
pub(crate) fn check_column(column: &ColumnChunkMetaData) -> Result<(), Error>
    ensures ok { OnOk result (spec.column_causes_of column.now ≡ []) }
    ensures cause { ComesOf result (spec.column_causes_of column.now) }
{
    if !column.descriptor.flat {
        return Err(Error::NotYetImplemented(Part::Schema));
    }
    if column.codec != 0 {
        return Err(Error::NotYetImplemented(Part::Column));
    }
    Ok(())
}

pub(crate) fn is_null(data_type: &DataType) -> bool
    ensures { result ≡ is_null_type data_type.now }
{
    matches!(data_type, DataType::Null)
}

/// The pages of a chunk: all of them, or those that are located.
fn open_pages(
    alloc: Global,
    column: &ColumnChunkMetaData,
    bytes: Vec<u8>,
    nulls: bool,
    pages: Option<Vec<FilteredPage>>,
) -> Result<ColumnPages, Error>
    ensures { spec.OpensPages nulls (column.now, bytes.items) (option_map (λ all. all.items) pages) result }
{
    match pages {
        None => open_whole(alloc, column, bytes),
        Some(pages) => {
            if nulls {
                open_nulls(alloc, column, pages)
            } else {
                open_located(alloc, column, bytes, pages)
            }
        }
    }
}

/// All pages of a chunk.
fn open_whole(
    alloc: Global,
    column: &ColumnChunkMetaData,
    bytes: Vec<u8>,
) -> Result<ColumnPages, Error>
    ensures { (nulls : Bool) → spec.OpensPages nulls (column.now, bytes.items) None result }
{
    Ok(ColumnPages::Whole(PageReader::new(alloc, bytes, column)?))
}

/// A chunk size of at most so many rows, but at least one.
pub(crate) fn size_within(rows: usize, chunk_size: Option<usize>) -> Option<usize>
    ensures { result ≡ spec.size_within rows chunk_size }
{
    chunk_size.map(|size| size.min(rows.max(1)))
}
