//! The columns of a group, put together to chunks.
ghost use Rattle.std.specs.Prelude.{◌≡◌, ◌+◌, ◌-◌, ◌^◌, ◌++◌, [], ◌∷◌, min, map, flat_map, take, drop, length, sum_by, IfOk, IfErr, OnOk, All};
ghost use Rattle.columns_core.specs.Causes.{IsWantOfMemory};
ghost use Rattle.columns_core.specs.Chunk.{AreEqualLengths, array_rows as chunk_rows};
ghost use Rattle.parquet_scan.specs.Chunks.{side_by_side};
ghost use Rattle.parquet_scan.specs.Scan.{rows_in};

use columns_core::{Array, Chunk, Error};
use std::alloc::Global;
use std::collections::VecDeque;

/// What was read so far.
#[derive(Drop)]
pub(crate) struct RowsRead {
    pub(crate) chunks: Vec<Chunk>,
    pub(crate) rows: usize,
    pub(crate) pages: usize,
}

/// Adds the chunks of a group, the first of the first arrays of all columns, and so on.
pub(crate) fn add_chunks(
    alloc: Global,
    read: &mut RowsRead,
    columns: &mut [VecDeque<Array>],
) -> Result<(), Error>
    requires { All AreEqualLengths (side_by_side (map (λ column. column.items) columns.old)) }
    ensures chunks { OnOk result (
        read.new.chunks.items ≡ read.old.chunks.items
        ++ side_by_side (map (λ column. column.items) columns.old)) }
    ensures rows { OnOk result (
        let given = side_by_side (map (λ column. column.items) columns.old) in
        read.new.rows ≡ min (read.old.rows + sum_by chunk_rows given) (2 ^ 64 - 1)) }
    ensures own_rows { read.old.rows ≡ rows_in read.old.chunks.items →
        OnOk result (read.new.rows ≡ rows_in read.new.chunks.items) }
    ensures even { OnOk result (All AreEqualLengths read.old.chunks.items
        → All AreEqualLengths read.new.chunks.items) }
    ensures pages { read.new.pages ≡ read.old.pages }
    ensures memory { IfErr result IsWantOfMemory }
{
    let _rows = read.rows;
    let count = chunk_count(columns);
    for i in 0..count {
        let arrays = take_fronts(alloc, columns)?;
        add_chunk(read, arrays)?;
    }
    Ok(())
}

/// How many chunks the columns make.
fn chunk_count(columns: &[VecDeque<Array>]) -> usize
    ensures { result ≡ length (side_by_side (map (λ column. column.items) columns.now)) }
{
    match columns {
        [] => 0,
        [first, ..] => first.len(),
    }
}

/// The first arrays of all columns.
fn take_fronts(alloc: Global, columns: &mut [VecDeque<Array>]) -> Result<Vec<Array>, Error>
    ensures fronts { IfOk result (λ fronts.
        fronts.items ≡ flat_map (take 1) (map (λ column. column.items) columns.old)) }
    ensures rests { OnOk result (
        map (λ column. column.items) columns.new ≡
        map (drop 1) (map (λ column. column.items) columns.old)) }
    ensures memory { IfErr result IsWantOfMemory }
{
    let mut fronts = Vec::new(alloc);
    for column in columns.iter_mut() {
        take_front(column, &mut fronts)?;
    }
    Ok(fronts)
}

/// Moves the first array of a column, if it has one.
fn take_front(column: &mut VecDeque<Array>, fronts: &mut Vec<Array>) -> Result<(), Error>
    ensures front { OnOk result (fronts.new.items ≡ fronts.old.items ++ take 1 column.old.items) }
    ensures rest { column.new.items ≡ drop 1 column.old.items }
    ensures memory { IfErr result IsWantOfMemory }
{
    if let Some(array) = column.pop_front() {
        fronts.push(array)?;
    }
    Ok(())
}

/// Adds a chunk, and how many rows it has.
fn add_chunk(read: &mut RowsRead, arrays: Vec<Array>) -> Result<(), Error>
    requires { AreEqualLengths arrays.items }
    ensures chunks { OnOk result (read.new.chunks.items ≡ read.old.chunks.items ++ arrays.items ∷ []) }
    ensures rows { OnOk result (read.new.rows ≡
        min (read.old.rows + chunk_rows arrays.items) (2 ^ 64 - 1)) }
    ensures own_rows { read.old.rows ≡ rows_in read.old.chunks.items →
        OnOk result (read.new.rows ≡ rows_in read.new.chunks.items) }
    ensures even { OnOk result (All AreEqualLengths read.old.chunks.items
        → All AreEqualLengths read.new.chunks.items) }
    ensures pages { read.new.pages ≡ read.old.pages }
    ensures memory { IfErr result IsWantOfMemory }
{
    let chunk = Chunk::try_new(arrays)?;
    read.rows = read.rows.saturating_add(chunk.len());
    read.chunks.push(chunk)?;
    Ok(())
}
