//! The column of a group, in the rows that are given.
ghost use Rattle.std.specs.Prelude.{◌≡◌, ◌+◌, ◌-◌, ◌<◌, ◌^◌, ◌≤◌, [], Some, min, map, length, replicate, true, false, IfOk, IfErr, IfSome, OnOk, All};
ghost use Rattle.columns_core.specs.Array.{cells, column_of, data_type_of};
ghost use Rattle.columns_core.specs.Causes.{IsWantOfMemory};
ghost use Rattle.columns_core.specs.declared.cell.Cell.{Null};
ghost use Rattle.columns_core.specs.declared.data_type.DataType as type;
ghost use Rattle.page_decoding.specs.Queue.{IsChunkSize, first_chunk, later_chunks};
ghost use Rattle.flat_values.specs.Conversion.{Value};
ghost use Rattle.parquet_base.specs.Intervals.{is_well_shaped, rows_of};
ghost use Rattle.parquet_base.specs.Pieces.{cut};
ghost use Rattle.parquet_meta.specs.Chunks.{chunk_range};
ghost use Rattle.parquet_meta.specs.Reads.{ReadsFile};
ghost use Rattle.parquet_scan.specs.Causes.{causes_of_chunk, causes_of_read, chunk_read_causes, pair_causes};
ghost use Rattle.parquet_scan.specs.Cells.{column_cell, is_null_type as is_null_type_by, walked_item};
ghost use Rattle.parquet_scan.specs.Costs.{lent_of_chunk, lent_of_read, taken_of_read};
ghost use Rattle.parquet_scan.specs.Counting.{AreFirst, AreLocationsOf};
ghost use Rattle.parquet_scan.specs.Scan.{RisesBy, RisesJustBy};

use crate::column::{place_of_chunk, read_chunk};
use crate::decode::decode_column;
use crate::given::GivenRows;
use crate::located::{count_of_rows, read_located};
use crate::pairs::{TypedColumn, check_pair, is_null_type};
use crate::request::GroupRequest;
use columns_core::{Array, Error, NullArray};
use parquet_base::Steps;
use parquet_meta::{ColumnChunkMetaData, Source};
use parquet_page::PageReader;
use std::alloc::Global;
use std::collections::VecDeque;
use std::sync::ledger::Ledger;

/// The arrays of a column in the rows of a group that are given, and how many pages were lent.
pub(crate) fn read_column<S: Source, L: Ledger>(
    alloc: Global,
    source: &mut S,
    rows: GivenRows<'_>,
    asked: GroupRequest<'_>,
    typed: TypedColumn<'_>,
    steps: &mut Steps<L>,
) -> Result<(VecDeque<Array>, usize), Error>
    requires shaped { is_well_shaped rows.runs.now rows.group.now.num_rows ≡ true }
    requires some { 0 < length rows.runs.now }
    requires first { AreFirst asked.by_pages rows.runs.now }
    requires size { IsChunkSize asked.chunk_size }
    requires located { asked.by_pages ≡ true
        → AreLocationsOf (S.told source.old) rows.group.now typed.column.now typed.locations.now }
    ensures reads { ReadsFile S.Source source.old source.new (λ bytes.
        causes_of_read asked.entry.by_pages asked.entry.chunk_size bytes rows.entry.group.now
        (rows_of rows.entry.runs.now) typed.entry.data_type.now typed.entry.column.now) result }
    ensures typed { IfOk result (λ found.
        All (λ array. data_type_of array ≡ typed.entry.data_type.now) found.0.items) }
    ensures counts { IfOk result (λ found.
        map (λ array. length (cells array)) found.0.items ≡
        map length (cut asked.entry.chunk_size (rows_of rows.entry.runs.now))) }
    ensures cells { IfOk result (λ found. IfSome (S.told source.old) (λ bytes.
        map (λ array. map Some (cells array)) found.0.items
        ≡ map (map (column_cell asked.entry.by_pages bytes rows.entry.group.now typed.entry.data_type.now
        typed.entry.column.now)) (cut asked.entry.chunk_size (rows_of rows.entry.runs.now)))) }
    ensures ticks { steps.old ≤ steps.new }
    ensures pages { IfOk result (λ found. found.1 ≡ min (steps.new - steps.old) (2 ^ 64 - 1)) }
    ensures lent { OnOk result (RisesJustBy (S.told source.old) steps.old steps.new (λ bytes.
        lent_of_read asked.entry.by_pages bytes rows.entry.group.now (rows_of rows.entry.runs.now)
        typed.entry.data_type.now typed.entry.column.now)) }
    ensures taken { OnOk result (
        RisesBy (S.told source.old) (S.taken source.old) (S.taken source.new) (λ bytes.
        taken_of_read asked.entry.by_pages bytes rows.entry.group.now (rows_of rows.entry.runs.now)
        typed.entry.data_type.now typed.entry.column.now)) }
{
    let (column, chunk_size) = (typed.column, asked.chunk_size);
    check_pair(&column.descriptor.primitive_type, typed.data_type)?;
    if is_null_type(typed.data_type) {
        return read_nulls(alloc, source, rows, chunk_size, column);
    }
    if asked.by_pages {
        return read_located(alloc, source, rows, chunk_size, typed, steps);
    }
    read_first(alloc, source, rows, chunk_size, typed, steps)
}

/// The arrays of a column in the first rows of a group, whose pages are walked over, and how many pages were lent.
fn read_first<S: Source, L: Ledger>(
    alloc: Global,
    source: &mut S,
    rows: GivenRows<'_>,
    chunk_size: Option<usize>,
    typed: TypedColumn<'_>,
    steps: &mut Steps<L>,
) -> Result<(VecDeque<Array>, usize), Error>
    requires shaped { is_well_shaped rows.runs.now rows.group.now.num_rows ≡ true }
    requires some { 0 < length rows.runs.now }
    requires first { AreFirst false rows.runs.now }
    requires size { IsChunkSize chunk_size }
    requires pair { pair_causes typed.column.now.descriptor.primitive_type typed.data_type.now ≡ [] }
    requires not_null { is_null_type_by typed.data_type.now ≡ false }
    ensures reads { ReadsFile S.Source source.old source.new (λ bytes.
        causes_of_chunk false chunk_size bytes rows.entry.group.now (rows_of rows.entry.runs.now)
        typed.entry.data_type.now typed.entry.column.now) result }
    ensures typed { IfOk result (λ found.
        All (λ array. data_type_of array ≡ typed.entry.data_type.now) found.0.items) }
    ensures counts { IfOk result (λ found.
        map (λ array. length (cells array)) found.0.items ≡
        map length (cut chunk_size (rows_of rows.entry.runs.now))) }
    ensures cells { IfOk result (λ found. IfSome (S.told source.old) (λ bytes.
        map (λ array. map (λ cell. Some (Value cell)) (cells array)) found.0.items
        ≡ map (map (walked_item bytes rows.entry.group.now typed.entry.data_type.now
        typed.entry.column.now)) (cut chunk_size (rows_of rows.entry.runs.now)))) }
    ensures ticks { steps.old ≤ steps.new }
    ensures pages { IfOk result (λ found. found.1 ≡ min (steps.new - steps.old) (2 ^ 64 - 1)) }
    ensures lent { OnOk result (RisesJustBy (S.told source.old) steps.old steps.new (λ bytes.
        lent_of_chunk false bytes rows.entry.group.now (rows_of rows.entry.runs.now)
        typed.entry.column.now)) }
    ensures taken { OnOk result (S.taken source.new ≤
        S.taken source.old + (chunk_range typed.entry.column.now).length) }
{
    let (column, data_type) = (typed.column, typed.data_type);
    let count = count_of_rows(rows);
    let bytes = read_chunk(alloc, source, rows.group, column)?;
    let reader = PageReader::new(alloc, bytes, column)?;
    let stored = &column.descriptor.primitive_type;
    decode_column(alloc, reader, stored, data_type, count, chunk_size, steps)
}

/// The nulls of a column that is read as nulls, of which no page is looked at.
fn read_nulls<S: Source>(
    alloc: Global,
    source: &mut S,
    rows: GivenRows<'_>,
    chunk_size: Option<usize>,
    column: &ColumnChunkMetaData,
) -> Result<(VecDeque<Array>, usize), Error>
    requires shaped { is_well_shaped rows.runs.now rows.group.now.num_rows ≡ true }
    requires size { IsChunkSize chunk_size }
    ensures reads { ReadsFile S.Source source.old source.new (λ bytes.
        chunk_read_causes bytes rows.entry.group.now column.now) result }
    ensures nulls { IfOk result (λ found. map column_of found.0.items
        ≡ map (λ nulls. (type.Null, nulls))
        (cut chunk_size (replicate (length (rows_of rows.entry.runs.now)) Null))) }
    ensures pages { IfOk result (λ found. found.1 ≡ 0) }
    ensures taken { S.taken source.new ≡ S.taken source.old }
{
    place_of_chunk(source, rows.group, column)?;
    let nulls = null_arrays(alloc, count_of_rows(rows), chunk_size)?;
    Ok((nulls, 0))
}

/// So many nulls, in arrays of a size.
fn null_arrays(
    alloc: Global,
    rows: usize,
    chunk_size: Option<usize>,
) -> Result<VecDeque<Array>, Error>
    requires { IsChunkSize chunk_size }
    ensures nulls { IfOk result (λ arrays.
        map column_of arrays.items ≡ map
        (λ nulls. (type.Null, nulls)) (cut chunk_size (replicate rows Null))) }
    ensures memory { IfErr result IsWantOfMemory }
{
    let mut arrays = VecDeque::new(alloc);
    let mut left = rows;
    while left > 0 {
        let piece = first_rows(chunk_size, left);
        arrays.push_back(Array::Null(NullArray::new(piece)))?;
        left -= piece;
    }
    Ok(arrays)
}

/// How many rows the first array has.
fn first_rows(chunk_size: Option<usize>, left: usize) -> usize
    requires size { IsChunkSize chunk_size }
    requires some { 0 < left }
    ensures some { 0 < result }
    ensures within { result ≤ left }
    ensures first { first_chunk chunk_size (replicate left Null) ≡ replicate result Null }
    ensures later { later_chunks chunk_size (replicate left Null) ≡ replicate (left - result) Null }
{
    match chunk_size {
        Some(size) => size.min(left),
        None => left,
    }
}
