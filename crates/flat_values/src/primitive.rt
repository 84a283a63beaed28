//! Columns that are read as numbers.
ghost use Rattle.std.specs.Prelude.{◌≡◌, IsTrue, [], None, IfOk, IfErr};
ghost use Rattle.columns_core.specs.Causes.{is_invalid_argument};
ghost use Rattle.page_decoding.specs.Column.{DataPagesAre};
ghost use Rattle.page_decoding.specs.Queue.{IsChunkSize};

use crate::{
    Convert, FlatDecoder, FlatIter, FlatState, KeyPlace, NumberPlace, NumberValues,
    ParquetNativeType, PlainPlace,
};
use columns_core::{DataType, Error, NativeType};
use parquet_page::Pages;
use std::alloc::Global;

/// Arrays of numbers.
pub type Iter<T, I, P, C> = FlatIter<I, NumberValues<P, T, C>>;

/// Arrays of numbers of a stored type that may be packed as deltas, which each is.
pub type IntegerIter<T, I, P, C> = Iter<T, I, P, C>;

/// A place in a page of numbers, whatever their encoding is.
pub type State = FlatState<NumberPlace>;

/// A place in a page of plain numbers.
pub type Values = FlatState<PlainPlace>;

/// A place among the selected rows of a page of plain numbers.
pub type FilteredRequiredValues = Values;

/// A place in a page of keys.
pub type ValuesDictionary = FlatState<KeyPlace>;

/// Decodes pages of numbers.
pub type PrimitiveDecoder<T, P, C> = FlatDecoder<NumberValues<P, T, C>>;

/// Decodes pages of numbers that may be packed as deltas, which each does.
pub type IntDecoder<T, P, C> = PrimitiveDecoder<T, P, C>;

impl<P: ParquetNativeType, T: NativeType + Default, C: Convert<P, T>> FlatDecoder<
    NumberValues<P, T, C>,
> {
    /// By this conversion.
    pub fn new(op: C) -> Self
        ensures { result.values.rule ≡ op }
    {
        FlatDecoder {
            values: NumberValues::new(op),
        }
    }
}

impl<I: Pages, P: ParquetNativeType, T: NativeType + Default, C: Convert<P, T>> FlatIter<
    I,
    NumberValues<P, T, C>,
> {
    /// The rows of these pages, at most so many.
    pub fn new(
        alloc: Global,
        iter: I,
        data_type: DataType,
        num_rows: usize,
        chunk_size: Option<usize>,
        op: C,
    ) -> Result<Self, Error>
        requires takes { DataPagesAre (λ page. page.type.physical_type ≡ P.physical) (I.to_come iter) }
        ensures ok { IfOk result (λ _. IsChunkSize chunk_size × IsTrue (T.stores data_type)) }
        ensures err { IfErr result (λ e. IsTrue (is_invalid_argument e)
            × (IsChunkSize chunk_size → IsTrue (T.stores data_type) → ⊥)) }
        ensures rule { IfOk result (λ arrays. arrays.chunks.decoder.values.rule ≡ op) }
        ensures iter { IfOk result (λ arrays.
            arrays ≡ record {
              data_type = data_type;
              chunks = record {
                pages = iter;
                decoder = arrays.chunks.decoder;
                size = chunk_size;
                waiting = [];
                remaining = num_rows;
                dictionary = None;
              };
            }) }
    {
        let values = NumberValues::new(op);
        Self::of_values(alloc, iter, values, data_type, num_rows, chunk_size)
    }
}
