//! The rows of a group, in chunks.
ghost use Rattle.std.specs.Prelude.{◌≡◌, ◌==◌, [], ◌<◌, map, length, IsTrue, IfOk, IfErr};

use crate::ColumnPages;
use crate::rows::{next_chunk, pages_lent, wanted_after};
use columns_core::{Chunk, Error, Part};
use flat_binary::ArrayIter;
use parquet_base::Steps;
use std::alloc::Global;
use std::iter::Iterator;
use std::marker::Brand;
use std::sync::ledger::{Blank, Ledger};

/// The first rows of a group, of all its columns side by side. A chunk has one array of each column.
#[derive(Drop)]
pub struct RowGroupDeserializer {
    alloc: Global,
    columns: Vec<ArrayIter<ColumnPages>>,
    num_rows: usize,
    wanted: usize,
}

impl RowGroupDeserializer {
    ghost use Rattle.columns_core.specs.Causes.{is_invalid_argument};
    ghost use Rattle.parquet_read.specs.Rows.{GivesNextRows, limited};
    ghost use Rattle.parquet_read.specs.RowGroup.{GivesRowsAlone, iter_left, group_left, group_lent};

    /// Over the columns of a group of so many rows. `InvalidArgumentError` exactly where there is no column.
    pub fn new(
        alloc: Global,
        column_chunks: Vec<ArrayIter<ColumnPages>>,
        num_rows: usize,
        limit: Option<usize>,
    ) -> Result<Self, Error>
        ensures group { IfOk result (λ group. group_left group
            ≡ record {
              columns = map iter_left column_chunks.items;
              num_rows = num_rows;
              wanted = limited
                  limit num_rows;
            }) }
        ensures ok { IfOk result (λ _. 0 < length column_chunks.items) }
        ensures err { IfErr result (λ e. IsTrue (is_invalid_argument e) × (column_chunks.items ≡ [])) }
    {
        if column_chunks.is_empty() {
            return Err(Error::InvalidArgumentError(Part::Request));
        }
        Ok(RowGroupDeserializer {
            alloc,
            columns: column_chunks,
            num_rows,
            wanted: limit.unwrap_or(num_rows).min(num_rows),
        })
    }

    /// How many rows the group has, as it was told.
    pub fn num_rows(&self) -> usize
        ensures { result ≡ (group_left self.now).num_rows }
    {
        self.num_rows
    }

    /// Whether none of its rows is wanted any more.
    pub(crate) fn is_over(&self) -> bool
        ensures { result ≡ (self.now.wanted == 0) }
    {
        self.wanted == 0
    }

    /// The next chunk, and a step for each page that is lent for it. After an error there is none.
    pub fn next_counted<L: Ledger>(&mut self, steps: &mut Steps<L>) -> Option<Result<Chunk, Error>>
        ensures { GivesNextRows (group_left self.old) result (group_left self.new) steps.old steps.new }
    {
        if self.wanted == 0 {
            return None;
        }
        let chunk = next_chunk(self.alloc, &mut self.columns, steps);
        self.wanted = wanted_after(self.wanted, &chunk);
        Some(chunk)
    }

    /// How many pages were lent for all columns, at most `usize::MAX`.
    pub fn lent(&self) -> usize
        ensures { result ≡ group_lent self.now }
    {
        pages_lent(&self.columns)
    }

    /// The next chunk, over steps of its own.
    fn next_alone<L: Ledger>(&mut self, blank: Blank) -> Option<Result<Chunk, Error>>
        requires name { blank.name ≡ L.name }
        requires parts { blank.parts ≡ L.parts }
        requires whole { 0 < blank.parts }
        ensures given { GivesRowsAlone self.old result self.new }
    {
        let mut steps = Steps::<L>::new(blank);
        self.next_counted(&mut steps)
    }
}

/// The same, over steps of their own.
impl Iterator for RowGroupDeserializer {
    ghost use Rattle.parquet_read.specs.RowGroup.{GivesRowsAlone, chunks_to_come};

    type Item = Result<Chunk, Error>;

    ghost next_gives = { GivesRowsAlone };

    ghost remaining = { chunks_to_come };

    fn next(&mut self) -> Option<Result<Chunk, Error>> {
        self.next_alone::<Brand>(Blank::new(1))
    }
}
