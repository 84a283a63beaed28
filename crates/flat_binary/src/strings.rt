//! Columns of byte strings, by the type that is asked for.
ghost use Rattle.std.specs.Prelude.{◌≡◌, IfSome, None};
ghost use Rattle.columns_core.specs.declared.data_type.DataType.{out-DataType};
ghost use Rattle.page_decoding.specs.Queue.{IsChunkSize};
ghost use Rattle.parquet_meta.specs.declared.metadata.PhysicalType.TheVariants.{ByteArray, FixedLenByteArray};
ghost use Rattle.parquet_page.specs.Lending.{DataPagesAre};
ghost use Rattle.flat_values.specs.Pairs.{from_byte_array, from_fixed};
ghost use Rattle.flat_binary.specs.Left.{converted_left, supply_of};
ghost use Rattle.flat_binary.specs.Begun.{BeginsColumn, IsRefusedPair};
ghost use Rattle.flat_binary.specs.Layers.{array_left};

use crate::array_iter::ArrayIter;
use crate::begin::values_iter;
use crate::string_iter::{BytesIter, FixedIter};
use binary_values::binary;
use columns_core::{DataType, Error, IntervalUnit, Part, days_ms};
use flat_values::{DaysAndMillis, Decimals, FixedNumbers, FixedValues, Months};
use parquet_page::Pages;
use std::alloc::Global;

/// Of strings of `length` bytes.
pub(crate) fn fixed_iter<I: Pages>(
    alloc: Global,
    pages: I,
    length: usize,
    data_type: DataType,
    chunk_size: Option<usize>,
    num_rows: usize,
) -> Result<ArrayIter<I>, Error>
    requires typed { let physical = FixedLenByteArray length in
        DataPagesAre (λ page. page.type.physical_type ≡ physical) (I.to_come pages) }
    requires size { IsChunkSize chunk_size }
    ensures begins { IfSome (from_fixed length (out-DataType data_type)) (λ rule.
        let supply = supply_of I.to_come I.causes I.row_count I.lent_count pages in
        let left = array_left I.to_come I.causes I.row_count I.lent_count in
        BeginsColumn left (converted_left
        (FixedLenByteArray length) data_type chunk_size num_rows supply rule) result) }
    ensures refused { from_fixed length (out-DataType data_type) ≡ None → IsRefusedPair result }
{
    match &data_type {
        DataType::FixedSizeBinary(wanted) if 0 < length && length == *wanted => {
            let values = FixedValues::new(length);
            let arrays = values_iter(alloc, pages, values, data_type, chunk_size, num_rows)?;
            Ok(ArrayIter::Fixed(FixedIter::Strings(arrays)))
        }
        DataType::Decimal(_, _) if 0 < length && length <= 16 => {
            let values = FixedNumbers::<i128, Decimals>::new(Decimals::new(length));
            let arrays = values_iter(alloc, pages, values, data_type, chunk_size, num_rows)?;
            Ok(ArrayIter::Fixed(FixedIter::Decimals(arrays)))
        }
        DataType::Interval(IntervalUnit::YearMonth) if length == 12 => {
            let values = FixedNumbers::<i32, Months>::new(Months);
            let arrays = values_iter(alloc, pages, values, data_type, chunk_size, num_rows)?;
            Ok(ArrayIter::Fixed(FixedIter::Months(arrays)))
        }
        DataType::Interval(IntervalUnit::DayTime) if length == 12 => {
            let values = FixedNumbers::<days_ms, DaysAndMillis>::new(DaysAndMillis);
            let arrays = values_iter(alloc, pages, values, data_type, chunk_size, num_rows)?;
            Ok(ArrayIter::Fixed(FixedIter::DaysAndMillis(arrays)))
        }
        _ => Err(Error::NotYetImplemented(Part::Schema)),
    }
}

/// Of strings that tell their own lengths.
pub(crate) fn byte_array_iter<I: Pages>(
    alloc: Global,
    pages: I,
    data_type: DataType,
    chunk_size: Option<usize>,
    num_rows: usize,
) -> Result<ArrayIter<I>, Error>
    requires typed { DataPagesAre (λ page. page.type.physical_type ≡ ByteArray) (I.to_come pages) }
    requires size { IsChunkSize chunk_size }
    ensures begins { IfSome (from_byte_array (out-DataType data_type)) (λ rule.
        let supply = supply_of I.to_come I.causes I.row_count I.lent_count pages in
        let left = array_left I.to_come I.causes I.row_count I.lent_count in
        BeginsColumn left (converted_left ByteArray data_type chunk_size num_rows supply rule) result) }
    ensures refused { from_byte_array (out-DataType data_type) ≡ None → IsRefusedPair result }
{
    match &data_type {
        DataType::Utf8 | DataType::Binary => {
            let arrays = binary::Iter::<i32, I>::new(
                alloc, pages, data_type, chunk_size, num_rows,
            )?;
            Ok(ArrayIter::Bytes(BytesIter::Bytes(arrays)))
        }
        DataType::LargeUtf8 | DataType::LargeBinary => {
            let arrays = binary::Iter::<i64, I>::new(
                alloc, pages, data_type, chunk_size, num_rows,
            )?;
            Ok(ArrayIter::Bytes(BytesIter::LargeBytes(arrays)))
        }
        _ => Err(Error::NotYetImplemented(Part::Schema)),
    }
}
