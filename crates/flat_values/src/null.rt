//! Columns that are read as nulls.
ghost use Rattle.std.specs.Prelude.{◌≡◌, ◌∷◌, ◌-◌, ◌<◌, ◌≤◌, min, IsTrue, IfOk, IfErr};
ghost use Rattle.columns_core.specs.Causes.{is_invalid_argument};
ghost use Rattle.page_decoding.specs.Queue.{IsChunkSize};
ghost use Rattle.flat_values.specs.NullChunks.{cut_rows, first_nulls};

use crate::ColumnArrays;
use columns_core::{Array, Error, NullArray, Part};
use parquet_base::Steps;
use parquet_page::Pages;
use std::iter::Iterator;
use std::marker::Model;
use std::sync::ledger::Ledger;

/// Arrays of nulls. A contract sees how many nulls are left, and how they are cut.
#[derive(Drop)]
pub struct NullIter {
    left: usize,
    chunk_size: Option<usize>,
}

impl Model for NullIter {
    ghost use Rattle.page_decoding.specs.Queue.{IsChunkSize};
    ghost use Rattle.flat_values.specs.NullChunks.{NullsLeft, nulls_code};

    ghost Value = { NullsLeft };

    ghost coded = { nulls_code };

    ghost view = { λ nulls. record { size = nulls.chunk_size; rows = nulls.left } };

    ghost invariant = { λ nulls. IsChunkSize nulls.chunk_size };
}

/// The nulls of a column's rows, at most so many. No page is lent for them.
pub fn iter_to_arrays<I: Pages>(
    pages: &I,
    chunk_size: Option<usize>,
    num_rows: usize,
) -> Result<NullIter, Error>
    ensures nulls { IfOk result (λ nulls.
        nulls ≡ record { size = chunk_size; rows = min num_rows (I.row_count pages.now) }) }
    ensures ok { IfOk result (λ _. IsChunkSize chunk_size) }
    ensures err { IfErr result (λ e. IsTrue (is_invalid_argument e) × (IsChunkSize chunk_size → ⊥)) }
{
    if chunk_size == Some(0) {
        return Err(Error::InvalidArgumentError(Part::Request));
    }
    Ok(NullIter {
        left: num_rows.min(pages.rows()),
        chunk_size,
    })
}

/// How many rows the first chunk has.
fn first_rows(chunk_size: Option<usize>, left: usize) -> usize
    requires size { IsChunkSize chunk_size }
    requires some { 0 < left }
    ensures rows { result ≡ first_nulls chunk_size left }
    ensures some { 0 < result }
    ensures within { result ≤ left }
    ensures first { cut_rows chunk_size left ≡ result ∷ cut_rows chunk_size (left - result) }
{
    match chunk_size {
        Some(size) => size.min(left),
        None => left,
    }
}

impl NullIter {
    ghost use Rattle.std.specs.Prelude.{◌≡◌};
    ghost use Rattle.std.specs.Iterator.{YieldsFirst};
    ghost use Rattle.flat_values.specs.NullChunks.{TakesRows, null_arrays};

    /// The rows of the next array.
    fn take_rows(&mut self) -> Option<usize>
        ensures { TakesRows self.old result self.new }
    {
        if self.left == 0 {
            return None;
        }
        let rows = first_rows(self.chunk_size, self.left);
        self.left -= rows;
        Some(rows)
    }

    /// The next array. No step is taken for it.
    pub fn next_counted<L: Ledger>(
        &mut self,
        _steps: &mut Steps<L>,
    ) -> Option<Result<NullArray, Error>>
        ensures array { YieldsFirst null_arrays self.old result self.new }
        ensures steps { _steps.new ≡ _steps.old }
    {
        self.next()
    }

    /// How many pages were lent.
    pub fn lent(&self) -> usize
        ensures { result ≡ 0 }
    {
        0
    }
}

impl Iterator for NullIter {
    ghost use Rattle.std.specs.Iterator.{YieldsFirst, item_count};
    ghost use Rattle.flat_values.specs.NullChunks.{null_arrays};

    type Item = Result<NullArray, Error>;

    ghost next_gives = { YieldsFirst null_arrays };

    ghost remaining = { item_count null_arrays };

    fn next(&mut self) -> Option<Result<NullArray, Error>> {
        Some(Ok(NullArray::new(self.take_rows()?)))
    }
}

/// The nulls as the arrays of a column, whose rows wait.
impl ColumnArrays for NullIter {
    ghost use Rattle.columns_core.specs.Array.{cells, data_type_of};
    ghost use Rattle.page_decoding.specs.Chunks.{IfFailed};
    ghost use Rattle.flat_values.specs.ColumnLeft.{GivesColumn};
    ghost use Rattle.flat_values.specs.NullChunks.{nulls_left};

    ghost left = { nulls_left };

    fn next_counted<L: Ledger>(&mut self, _steps: &mut Steps<L>) -> Option<Result<Array, Error>>
        ensures given { GivesColumn data_type_of cells (nulls_left self.old) result (nulls_left self.new)
            _steps.old _steps.new }

        // No array takes memory.
        ensures granted { IfFailed result (λ _. ⊥) }
    {
        Some(Ok(Array::Null(NullArray::new(self.take_rows()?))))
    }

    fn lent(&self) -> usize {
        0
    }
}
