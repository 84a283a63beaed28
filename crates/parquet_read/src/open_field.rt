//! The arrays of a field in a group, of whose column no more than the needed parts are read.
ghost use Rattle.std.specs.Prelude.{◌≡◌, ◌+◌, ◌≤◌, ◌<◌, ◌^◌, [], Some, None, List, ℕ, true, map, length, nat_le, min, IfOk, IfErr, OnOk};
ghost use Rattle.std.specs.List.{list_all};
ghost use Rattle.columns_core.specs.Causes.{IsWantOfMemory};
ghost use Rattle.parquet_base.specs.Reading.{given};
ghost use Rattle.parquet_meta.specs.Chunks.{chunk_range};
ghost use Rattle.parquet_meta.specs.Keeps.{Keeps};
ghost use Rattle.parquet_meta.specs.Places.{place_end};
ghost use Rattle.parquet_meta.specs.Source.{Finds};
ghost use Rattle.parquet_page.specs.Lent.{are_well_shaped};
ghost use Rattle.page_decoding.specs.Queue.{IsChunkSize};
ghost use Rattle.flat_binary.specs.NullType.{is_null_type};
ghost use Rattle.parquet_read.specs.Asked as spec;
ghost use Rattle.parquet_read.specs.Opening.{AreShaped, opened_left, opened_outline, outline_of, rows_there};
ghost use Rattle.parquet_read.specs.RowGroup.{iter_left};
ghost use Rattle.parquet_read.specs.Rows.{limited};

use crate::ColumnPages;
use crate::asked::{AskedField, lone_column};
use crate::deserializer::{is_null, to_deserializer};
use crate::parts::open_parts;
use crate::selected::selected_rows;
use columns_core::{Error, Field, Part, Seq};
use flat_binary::ArrayIter;
use parquet_meta::{ColumnChunkMetaData, Place, RowGroupMetaData, Source, read_range};
use parquet_page::FilteredPage;
use std::alloc::Global;

/// The arrays of each of these fields.
pub(crate) fn open_fields<S: Source>(
    alloc: Global,
    source: &mut S,
    group: &RowGroupMetaData,
    chunk_size: Option<usize>,
    limit: Option<usize>,
    asked: Vec<AskedField>,
) -> Result<Vec<ArrayIter<ColumnPages>>, Error>
    requires size { IsChunkSize chunk_size }
    requires shaped { list_all spec.is_shaped_field asked.items ≡ true }
    requires readable { let reading = spec.group_reading group.now chunk_size limit in
        spec.fields_causes reading asked.items ≡ [] }
    ensures keeps { Keeps S.Source source.old source.new }
    ensures quiet { OnOk result (S.faults source.new ≡ S.faults source.old) }
    ensures found { let reading = spec.group_reading group.now chunk_size limit in
        Finds (λ arrays. map iter_left arrays.items) (spec.fields_left reading asked.items)
        (S.told source.old) (S.faults source.old) (S.faults source.new) result }
    ensures each { IfOk result (λ arrays. length arrays.items ≡ length asked.items) }
    ensures outlines { let reading = spec.group_reading group.now chunk_size limit in
        IfOk result (λ arrays. map (λ own. outline_of (iter_left own)) arrays.items
        ≡ map (spec.asked_outline reading) asked.items) }
    ensures taken { let reading = spec.group_reading group.now chunk_size limit in
        S.taken source.new ≤ S.taken source.old + spec.fields_length reading asked.items }
{
    let mut arrays = Vec::new(alloc);
    'fields: for field in asked {
        arrays.push(open_field(alloc, source, group, chunk_size, limit, field)?)?;
    }
    Ok(arrays)
}

/// The arrays of a field.
fn open_field<S: Source>(
    alloc: Global,
    source: &mut S,
    group: &RowGroupMetaData,
    chunk_size: Option<usize>,
    limit: Option<usize>,
    asked: AskedField,
) -> Result<ArrayIter<ColumnPages>, Error>
    requires size { IsChunkSize chunk_size }
    requires shaped { AreShaped asked.1 }
    requires readable { let reading = spec.group_reading group.now chunk_size limit in
        spec.asked_causes reading asked ≡ [] }
    ensures keeps { Keeps S.Source source.old source.new }
    ensures quiet { OnOk result (S.faults source.new ≡ S.faults source.old) }
    ensures found { let reading = spec.group_reading group.now chunk_size limit in
        Finds iter_left (λ file. spec.asked_left reading file asked)
        (S.told source.old) (S.faults source.old) (S.faults source.new) result }
    ensures outline { let reading = spec.group_reading group.now chunk_size limit in
        IfOk result (λ arrays. outline_of (iter_left arrays) ≡ spec.asked_outline reading asked) }
    ensures taken { let reading = spec.group_reading group.now chunk_size limit in
        S.taken source.new ≤ S.taken source.old + spec.asked_length reading asked }
{
    let (field, pages) = asked;
    let Some(column) = lone_column(alloc, group, &field)? else {
        return Err(Error::NotYetImplemented(Part::Schema));
    };
    let rows = rows_asked(group, limit, &pages);
    open_column(alloc, source, column, field, rows, chunk_size, pages)
}

/// How many rows of a column are asked for.
fn rows_asked(
    group: &RowGroupMetaData,
    limit: Option<usize>,
    pages: &Option<Seq<FilteredPage>>,
) -> usize
    requires { AreShaped pages.now }
    ensures { result ≡ limited limit (spec.selected_rows_of group.now pages.now) }
{
    let rows = match pages {
        Some(pages) => selected_rows(pages.as_slice()),
        None => group.num_rows,
    };
    limit.unwrap_or(rows).min(rows)
}

/// The arrays of so many rows of a column.
fn open_column<S: Source>(
    alloc: Global,
    source: &mut S,
    column: &ColumnChunkMetaData,
    field: Field,
    rows: usize,
    chunk_size: Option<usize>,
    pages: Option<Seq<FilteredPage>>,
) -> Result<ArrayIter<ColumnPages>, Error>
    requires size { IsChunkSize chunk_size }
    requires shaped { AreShaped pages }
    requires form { spec.form_causes field.data_type column.now ≡ [] }
    requires range { spec.range_causes (is_null_type field.data_type) column.now pages ≡ [] }
    ensures keeps { Keeps S.Source source.old source.new }
    ensures quiet { OnOk result (S.faults source.new ≡ S.faults source.old) }
    ensures found { Finds iter_left
        (spec.left_in_file field.data_type chunk_size rows pages column.now)
        (S.told source.old) (S.faults source.old) (S.faults source.new) result }
    ensures outline { rows ≤ rows_there column.now pages → IfOk result (λ arrays.
        outline_of (iter_left arrays) ≡ opened_outline field.data_type chunk_size rows) }
    ensures taken { S.taken source.new ≤ S.taken source.old
        + spec.column_asked_length field.data_type pages column.now }
{
    let range = range_of(source, column)?;
    if is_null(&field.data_type) {
        return open_nulls(alloc, column, field, rows, chunk_size, pages);
    }
    match pages {
        Some(pages) => {
            let data_type = field.data_type;
            open_parts(
                alloc,
                source,
                column,
                data_type,
                rows,
                chunk_size,
                pages.into_vec(),
            )
        }
        None => {
            let bytes = read_range(alloc, source, range)?;
            open_whole(alloc, column, bytes, field, rows, chunk_size)
        }
    }
}

/// Where a column's chunk stands, of which nothing is read.
fn range_of<S: Source>(source: &mut S, column: &ColumnChunkMetaData) -> Result<Place, Error>
    ensures keeps { Keeps S.Source source.old source.new }
    ensures quiet { OnOk result (S.faults source.new ≡ S.faults source.old) }
    ensures found { Finds (λ range. range) (λ file.
        given (nat_le (place_end (chunk_range column.now)) (length file)) (chunk_range column.now))
        (S.told source.old) (S.faults source.old) (S.faults source.new) result }
    ensures range { IfOk result (λ range. range ≡ chunk_range column.now) }
    ensures fits { IfOk result (λ range. place_end range < 2 ^ 64) }
    ensures taken { S.taken source.new ≡ S.taken source.old }
{
    let (offset, length) = column.byte_range();
    let size = source.size().map_err(|_| Error::Io)?;
    if size < offset || size - offset < length {
        return Err(Error::ExternalFormat(Part::Group));
    }
    Ok(Place { offset, length })
}

/// As many nulls as rows are asked for. Nothing is opened.
fn open_nulls(
    alloc: Global,
    column: &ColumnChunkMetaData,
    field: Field,
    rows: usize,
    chunk_size: Option<usize>,
    pages: Option<Seq<FilteredPage>>,
) -> Result<ArrayIter<ColumnPages>, Error>
    requires size { IsChunkSize chunk_size }
    requires shaped { AreShaped pages }
    requires form { spec.form_causes field.data_type column.now ≡ [] }
    requires nulls { is_null_type field.data_type ≡ true }
    ensures begins { (bytes : List ℕ) → IfOk result (λ arrays.
        Some (iter_left arrays)
        ≡ opened_left field.data_type chunk_size rows pages (column.now, bytes)) }
    ensures memory { IfErr result IsWantOfMemory }
{
    match pages {
        Some(pages) => {
            let nothing = Vec::new(alloc);
            open_listed(alloc, column, nothing, field, rows, chunk_size, pages)
        }
        None => open_whole(alloc, column, Vec::new(alloc), field, rows, chunk_size),
    }
}

/// The arrays of a column over the bytes of its chunk.
fn open_whole(
    alloc: Global,
    column: &ColumnChunkMetaData,
    bytes: Vec<u8>,
    field: Field,
    rows: usize,
    chunk_size: Option<usize>,
) -> Result<ArrayIter<ColumnPages>, Error>
    requires size { IsChunkSize chunk_size }
    requires form { spec.form_causes field.data_type column.now ≡ [] }
    ensures begins { IfOk result (λ arrays.
        Some (iter_left arrays)
        ≡ opened_left field.data_type chunk_size rows None (column.now, bytes.items)) }
    ensures memory { IfErr result IsWantOfMemory }
{
    let mut columns = Vec::new(alloc);
    columns.push((column, bytes))?;
    to_deserializer(alloc, columns, field, rows, chunk_size, None)
}

/// The arrays of a column over bytes of its chunk, and located pages in them.
fn open_listed(
    alloc: Global,
    column: &ColumnChunkMetaData,
    bytes: Vec<u8>,
    field: Field,
    rows: usize,
    chunk_size: Option<usize>,
    pages: Seq<FilteredPage>,
) -> Result<ArrayIter<ColumnPages>, Error>
    requires size { IsChunkSize chunk_size }
    requires shaped { are_well_shaped pages ≡ true }
    requires form { spec.form_causes field.data_type column.now ≡ [] }
    requires nulls { is_null_type field.data_type ≡ true }
    ensures begins { IfOk result (λ arrays.
        Some (iter_left arrays)
        ≡ opened_left field.data_type chunk_size rows (Some pages) (column.now, bytes.items)) }
    ensures memory { IfErr result IsWantOfMemory }
{
    let mut columns = Vec::new(alloc);
    columns.push((column, bytes))?;
    let mut lists = Vec::new(alloc);
    lists.push(pages.into_vec())?;
    to_deserializer(alloc, columns, field, rows, chunk_size, Some(lists))
}
