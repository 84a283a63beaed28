//! Columns of texts and of byte strings.
ghost use Rattle.std.specs.Prelude.{◌≡◌, ◌<◌, ◌||◌, IsTrue, [], None, IfOk, IfErr};
ghost use Rattle.columns_core.specs.Array.{cells, data_type_of};
ghost use Rattle.columns_core.specs.Causes.{is_invalid_argument};
ghost use Rattle.columns_core.specs.Stored.{is_binary, is_sized_text};
ghost use Rattle.page_decoding.specs.Column.{DataPagesAre};
ghost use Rattle.page_decoding.specs.Queue.{IsChunkSize};
ghost use Rattle.flat_values.specs.ColumnLeft.{GivesArray};
ghost use Rattle.parquet_meta.specs.declared.metadata.PhysicalType.TheVariants.{ByteArray};

use crate::ByteValues;
pub use crate::binary_decoder::BinaryDecoder;
use crate::into_array::is_text_type;
use columns_core::{Array, DataType, Error, Offset};
use flat_values::{ColumnArrays, FlatIter, FlatState};
use parquet_base::Steps;
use parquet_encoding::PlainBytes;
use parquet_page::Pages;
use std::alloc::Global;
use std::iter::Iterator;
use std::marker::Brand;
use std::sync::ledger::{Blank, Ledger};

/// A place among the selected rows of a page of plain byte strings, of a required column or an optional one; where none are selected, among all
/// rows.
pub type Required = FlatState<PlainBytes>;

/// The same: a place heeds selected rows wherever a page has them.
pub type FilteredRequired = Required;

/// Arrays of texts or of byte strings.
#[derive(Drop)]
pub struct Iter<O: Offset, I: Pages> {
    arrays: FlatIter<I, ByteValues<O>>,
}

impl<O: Offset, I: Pages> Iter<O, I> {
    /// The rows of these pages, at most so many, as arrays of one of the two types of these offsets.
    pub fn new(
        alloc: Global,
        iter: I,
        data_type: DataType,
        chunk_size: Option<usize>,
        num_rows: usize,
    ) -> Result<Self, Error>
        requires takes { DataPagesAre (λ page. page.type.physical_type ≡ ByteArray) (I.to_come iter) }
        ensures ok { let fits = is_sized_text O.is_large data_type || is_binary O.is_large data_type in
            IfOk result (λ _. IsChunkSize chunk_size × IsTrue fits) }
        ensures err { let fits = is_sized_text O.is_large data_type || is_binary O.is_large data_type in
            IfErr result (λ e. IsTrue (is_invalid_argument e) ×
            (IsChunkSize chunk_size → IsTrue fits → ⊥)) }
        ensures values { IfOk result (λ new.
            new.arrays.chunks.decoder.values.is_text ≡ is_sized_text O.is_large data_type) }
        ensures iter { IfOk result (λ new. new.arrays ≡ record {
          data_type = data_type;
          chunks = record {
            pages = iter;
            decoder = new.arrays.chunks.decoder;
            size = chunk_size;
            waiting = [];
            remaining = num_rows;
            dictionary = None;
          };
        }) }
    {
        let values = ByteValues::new(is_text_type::<O>(&data_type));
        let arrays = FlatIter::of_values(alloc, iter, values, data_type, num_rows, chunk_size)?;
        Ok(Iter { arrays })
    }
}

/// The next array, over steps of its own.
fn next_alone<A: ColumnArrays, L: Ledger>(
    arrays: &mut A,
    blank: Blank,
) -> Option<Result<Array, Error>>
    requires name { blank.name ≡ L.name }
    requires parts { blank.parts ≡ L.parts }
    requires whole { 0 < blank.parts }
    ensures given { GivesArray data_type_of cells (A.left arrays.old) result (A.left arrays.new) }
{
    let mut steps = Steps::<L>::new(blank);
    arrays.next_counted(&mut steps)
}

/// Columns with offsets of 32 bits.
impl<I: Pages> ColumnArrays for Iter<i32, I> {
    ghost use Rattle.binary_values.specs.Iterated.{bytes_left};

    ghost left = { bytes_left 2147483647 I.to_come I.causes I.row_count I.lent_count };

    fn next_counted<L: Ledger>(&mut self, steps: &mut Steps<L>) -> Option<Result<Array, Error>> {
        ColumnArrays::next_counted(&mut self.arrays, steps)
    }

    fn lent(&self) -> usize {
        self.arrays.lent()
    }
}

/// The same, over steps of their own.
impl<I: Pages> Iterator for Iter<i32, I> {
    ghost use Rattle.binary_values.specs.Iterated.{GivesBytes, most_arrays};

    type Item = Result<Array, Error>;

    ghost next_gives = { GivesBytes 2147483647 I.to_come I.causes I.row_count I.lent_count };

    ghost remaining = { most_arrays 2147483647 I.to_come I.causes I.row_count I.lent_count };

    fn next(&mut self) -> Option<Result<Array, Error>> {
        next_alone::<Iter<i32, I>, Brand>(self, Blank::new(1))
    }
}

/// Columns with offsets of 64 bits.
impl<I: Pages> ColumnArrays for Iter<i64, I> {
    ghost use Rattle.binary_values.specs.Iterated.{bytes_left};

    ghost left = { bytes_left 9223372036854775807 I.to_come I.causes I.row_count I.lent_count };

    fn next_counted<L: Ledger>(&mut self, steps: &mut Steps<L>) -> Option<Result<Array, Error>> {
        ColumnArrays::next_counted(&mut self.arrays, steps)
    }

    fn lent(&self) -> usize {
        self.arrays.lent()
    }
}

/// The same, over steps of their own.
impl<I: Pages> Iterator for Iter<i64, I> {
    ghost use Rattle.binary_values.specs.Iterated.{GivesBytes, most_arrays};

    type Item = Result<Array, Error>;

    ghost next_gives = { GivesBytes 9223372036854775807 I.to_come I.causes I.row_count I.lent_count };

    ghost remaining = { most_arrays 9223372036854775807 I.to_come I.causes I.row_count I.lent_count };

    fn next(&mut self) -> Option<Result<Array, Error>> {
        next_alone::<Iter<i64, I>, Brand>(self, Blank::new(1))
    }
}
