//! The next arrays of columns, put together to chunks.
ghost use Rattle.std.specs.Prelude.{◌≡◌, map, min, sum_by, ◌-◌, ◌^◌};
ghost use Rattle.flat_values.specs.ColumnLeft.{ColumnLeft};
ghost use Rattle.parquet_read.specs.Rows.{GivesAll, GivesOne, MakesChunk, wanted_behind};

use columns_core::{Array, Chunk, Error, Part};
use flat_values::ColumnArrays;
use parquet_base::Steps;
use std::alloc::Global;
use std::sync::ledger::Ledger;

/// The next arrays of all columns, as a chunk.
pub(crate) fn next_chunk<A: ColumnArrays, L: Ledger>(
    alloc: Global,
    columns: &mut [A],
    steps: &mut Steps<L>,
) -> Result<Chunk, Error>
    ensures { MakesChunk (map A.left columns.old) result (map A.left columns.new) steps.old steps.new }
{
    let arrays = next_arrays(alloc, columns, steps)?;
    Chunk::try_new(arrays).or(Err(Error::ExternalFormat(Part::Chunk)))
}

/// The next array of each column.
fn next_arrays<A: ColumnArrays, L: Ledger>(
    alloc: Global,
    columns: &mut [A],
    steps: &mut Steps<L>,
) -> Result<Vec<Array>, Error>
    ensures { GivesAll (λ arrays. arrays.items)
        (map A.left columns.old) result (map A.left columns.new) steps.old steps.new }
{
    let mut arrays = Vec::with_capacity(alloc, columns.len())?;
    for column in columns.iter_mut() {
        arrays.push(next_array(column, steps)?)?;
    }
    Ok(arrays)
}

/// The next array of a column that is not to end yet.
fn next_array<A: ColumnArrays, L: Ledger>(
    column: &mut A,
    steps: &mut Steps<L>,
) -> Result<Array, Error>
    ensures { GivesOne (A.left column.old) result (A.left column.new) steps.old steps.new }
{
    match column.next_counted(steps) {
        Some(array) => array,
        None => Err(Error::ExternalFormat(Part::Chunk)),
    }
}

/// How many pages were lent for all columns, at most `usize::MAX`.
pub(crate) fn pages_lent<A: ColumnArrays>(columns: &[A]) -> usize
    ensures { let lent = λ (left : ColumnLeft). left.lent in
        result ≡ min (sum_by lent (map A.left columns.now)) (2 ^ 64 - 1) }
{
    let mut lent: usize = 0;
    for column in columns {
        lent = lent.saturating_add(column.lent());
    }
    lent
}

/// How many rows are wanted behind a chunk of them. Behind an error none are.
pub(crate) fn wanted_after(wanted: usize, chunk: &Result<Chunk, Error>) -> usize
    ensures { result ≡ wanted_behind wanted chunk.now }
{
    match chunk {
        Ok(chunk) => wanted.saturating_sub(chunk.len()),
        Err(_) => 0,
    }
}
