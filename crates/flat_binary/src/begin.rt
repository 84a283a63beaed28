//! Iterators before their first array, by a decoder of values.
ghost use Rattle.std.specs.Prelude.{◌≡◌};
ghost use Rattle.page_decoding.specs.Queue.{IsChunkSize};
ghost use Rattle.parquet_page.specs.Lending.{DataPagesAre};
ghost use Rattle.flat_values.specs.Arrays.{ArraysLeft, decoding_by, flat_left};
ghost use Rattle.flat_binary.specs.Left.{decoded_left, supply_of};
ghost use Rattle.flat_binary.specs.Begun.{BeginsColumn};

use columns_core::{DataType, Error};
use flat_values::{FlatIter, IntoArray};
use parquet_page::Pages;
use std::alloc::Global;

/// The rows of these pages, at most so many, as arrays of a type that holds the values.
pub(crate) fn values_iter<I: Pages, V: IntoArray + Drop>(
    alloc: Global,
    pages: I,
    values: V,
    data_type: DataType,
    chunk_size: Option<usize>,
    num_rows: usize,
) -> Result<FlatIter<I, V>, Error>
    requires takes { DataPagesAre (λ page. page.type.physical_type ≡ V.physical values) (I.to_come pages) }
    requires fits { V.is_type values data_type }
    requires size { IsChunkSize chunk_size }
    ensures begins { let supply = supply_of I.to_come I.causes I.row_count I.lent_count pages in
        let decoding = decoding_by (V.most_bytes values) (V.rule values) (V.physical values) in
        let flat = flat_left V.most_bytes V.rule V.physical I.to_come I.causes I.row_count I.lent_count in
        let left = λ (arrays : ArraysLeft I V). flat arrays.data_type arrays.chunks in
        BeginsColumn left (decoded_left decoding data_type chunk_size num_rows supply) result }
{
    FlatIter::of_values(alloc, pages, values, data_type, num_rows, chunk_size)
}

/// Drops an iterator of values.
pub(crate) fn let_go<I: Pages, V: IntoArray + Drop>(arrays: FlatIter<I, V>) {
    drop(arrays);
}
