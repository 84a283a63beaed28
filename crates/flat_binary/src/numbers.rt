//! Columns of truth values and of numbers, by the type that is asked for.
ghost use Rattle.std.specs.Prelude.{◌≡◌, true, IfSome, None, Some, option_map};
ghost use Rattle.std.specs.Option.{option_copied};
ghost use Rattle.columns_core.specs.declared.data_type.DataType.{out-DataType};
ghost use Rattle.page_decoding.specs.Queue.{IsChunkSize};
ghost use Rattle.parquet_meta.specs.declared.metadata.PhysicalType.TheVariants.{Boolean, Int32, Int64, Int96};
ghost use Rattle.parquet_page.specs.Lending.{DataPagesAre};
ghost use Rattle.flat_values.specs.Pairs.{from_boolean, from_int32, from_int64, from_int96};
ghost use Rattle.flat_values.specs.Units.{unit_factor};
ghost use Rattle.flat_binary.specs.Left.{converted_left, supply_of};
ghost use Rattle.flat_binary.specs.Begun.{BeginsColumn, IsRefusedPair};
ghost use Rattle.flat_binary.specs.Layers.{array_left};
ghost use Rattle.flat_binary.specs.LowBits.{takes_low_bits};

use crate::array_iter::ArrayIter;
use crate::begin::values_iter;
use crate::number_iter::{Int32Iter, Int64Iter};
use columns_core::{DataType, Error, Part, TimeUnit};
use flat_values::{
    DaysToMillis, Int96Time, Keep, Narrow, NumberValues, Scale, TruthValues, Widen,
    unifiy_timestmap_unit,
};
use parquet_meta::PrimitiveLogicalType;
use parquet_page::Pages;
use std::alloc::Global;

pub(crate) fn boolean_iter<I: Pages>(
    alloc: Global,
    pages: I,
    data_type: DataType,
    chunk_size: Option<usize>,
    num_rows: usize,
) -> Result<ArrayIter<I>, Error>
    requires typed { DataPagesAre (λ page. page.type.physical_type ≡ Boolean) (I.to_come pages) }
    requires size { IsChunkSize chunk_size }
    ensures begins { IfSome (from_boolean (out-DataType data_type)) (λ rule.
        let supply = supply_of I.to_come I.causes I.row_count I.lent_count pages in
        let left = array_left I.to_come I.causes I.row_count I.lent_count in
        BeginsColumn left (converted_left Boolean data_type chunk_size num_rows supply rule) result) }
    ensures refused { from_boolean (out-DataType data_type) ≡ None → IsRefusedPair result }
{
    match &data_type {
        DataType::Boolean => {
            let values = TruthValues;
            let arrays = values_iter(alloc, pages, values, data_type, chunk_size, num_rows)?;
            Ok(ArrayIter::Boolean(arrays))
        }
        _ => Err(Error::NotYetImplemented(Part::Schema)),
    }
}

/// The low bits of numbers of 32 bits.
fn low_int32_iter<I: Pages>(
    alloc: Global,
    pages: I,
    data_type: DataType,
    chunk_size: Option<usize>,
    num_rows: usize,
) -> Result<ArrayIter<I>, Error>
    requires typed { DataPagesAre (λ page. page.type.physical_type ≡ Int32) (I.to_come pages) }
    requires size { IsChunkSize chunk_size }
    requires low { option_map takes_low_bits (from_int32 (out-DataType data_type)) ≡ Some true }
    ensures begins { IfSome (from_int32 (out-DataType data_type)) (λ rule.
        let supply = supply_of I.to_come I.causes I.row_count I.lent_count pages in
        let left = array_left I.to_come I.causes I.row_count I.lent_count in
        BeginsColumn left (converted_left Int32 data_type chunk_size num_rows supply rule) result) }
{
    match &data_type {
        DataType::UInt8 => {
            let values = NumberValues::<i32, u8, Narrow>::new(Narrow);
            let arrays = values_iter(alloc, pages, values, data_type, chunk_size, num_rows)?;
            Ok(ArrayIter::Int32(Int32Iter::UInt8(arrays)))
        }
        DataType::UInt16 => {
            let values = NumberValues::<i32, u16, Narrow>::new(Narrow);
            let arrays = values_iter(alloc, pages, values, data_type, chunk_size, num_rows)?;
            Ok(ArrayIter::Int32(Int32Iter::UInt16(arrays)))
        }
        DataType::UInt32 => {
            let values = NumberValues::<i32, u32, Narrow>::new(Narrow);
            let arrays = values_iter(alloc, pages, values, data_type, chunk_size, num_rows)?;
            Ok(ArrayIter::Int32(Int32Iter::UInt32(arrays)))
        }
        DataType::Int8 => {
            let values = NumberValues::<i32, i8, Narrow>::new(Narrow);
            let arrays = values_iter(alloc, pages, values, data_type, chunk_size, num_rows)?;
            Ok(ArrayIter::Int32(Int32Iter::Int8(arrays)))
        }
        DataType::Int16 => {
            let values = NumberValues::<i32, i16, Narrow>::new(Narrow);
            let arrays = values_iter(alloc, pages, values, data_type, chunk_size, num_rows)?;
            Ok(ArrayIter::Int32(Int32Iter::Int16(arrays)))
        }
        _ => unreachable!(),
    }
}

pub(crate) fn int32_iter<I: Pages>(
    alloc: Global,
    pages: I,
    data_type: DataType,
    chunk_size: Option<usize>,
    num_rows: usize,
) -> Result<ArrayIter<I>, Error>
    requires typed { DataPagesAre (λ page. page.type.physical_type ≡ Int32) (I.to_come pages) }
    requires size { IsChunkSize chunk_size }
    ensures begins { IfSome (from_int32 (out-DataType data_type)) (λ rule.
        let supply = supply_of I.to_come I.causes I.row_count I.lent_count pages in
        let left = array_left I.to_come I.causes I.row_count I.lent_count in
        BeginsColumn left (converted_left Int32 data_type chunk_size num_rows supply rule) result) }
    ensures refused { from_int32 (out-DataType data_type) ≡ None → IsRefusedPair result }
{
    match &data_type {
        DataType::Int32 | DataType::Date32 | DataType::Time32(_) => {
            let values = NumberValues::<i32, i32, Keep>::new(Keep);
            let arrays = values_iter(alloc, pages, values, data_type, chunk_size, num_rows)?;
            Ok(ArrayIter::Int32(Int32Iter::Int32(arrays)))
        }
        DataType::UInt8 | DataType::UInt16 | DataType::UInt32 | DataType::Int8 | DataType::Int16 =>
            low_int32_iter(alloc, pages, data_type, chunk_size, num_rows),
        DataType::Date64 => {
            let values = NumberValues::<i32, i64, DaysToMillis>::new(DaysToMillis);
            let arrays = values_iter(alloc, pages, values, data_type, chunk_size, num_rows)?;
            Ok(ArrayIter::Int32(Int32Iter::Millis(arrays)))
        }
        DataType::Decimal(_, _) => {
            let values = NumberValues::<i32, i128, Widen>::new(Widen);
            let arrays = values_iter(alloc, pages, values, data_type, chunk_size, num_rows)?;
            Ok(ArrayIter::Int32(Int32Iter::Decimal(arrays)))
        }
        _ => Err(Error::NotYetImplemented(Part::Schema)),
    }
}

/// The low bits of numbers of 64 bits.
fn low_int64_iter<I: Pages>(
    alloc: Global,
    pages: I,
    data_type: DataType,
    chunk_size: Option<usize>,
    num_rows: usize,
) -> Result<ArrayIter<I>, Error>
    requires typed { DataPagesAre (λ page. page.type.physical_type ≡ Int64) (I.to_come pages) }
    requires size { IsChunkSize chunk_size }
    requires low { option_map takes_low_bits (from_int64 None (out-DataType data_type)) ≡ Some true }
    ensures begins { IfSome (from_int64 None (out-DataType data_type)) (λ rule.
        let supply = supply_of I.to_come I.causes I.row_count I.lent_count pages in
        let left = array_left I.to_come I.causes I.row_count I.lent_count in
        BeginsColumn left (converted_left Int64 data_type chunk_size num_rows supply rule) result) }
{
    match &data_type {
        DataType::UInt32 => {
            let values = NumberValues::<i64, u32, Narrow>::new(Narrow);
            let arrays = values_iter(alloc, pages, values, data_type, chunk_size, num_rows)?;
            Ok(ArrayIter::Int64(Int64Iter::UInt32(arrays)))
        }
        DataType::UInt64 => {
            let values = NumberValues::<i64, u64, Narrow>::new(Narrow);
            let arrays = values_iter(alloc, pages, values, data_type, chunk_size, num_rows)?;
            Ok(ArrayIter::Int64(Int64Iter::UInt64(arrays)))
        }
        _ => unreachable!(),
    }
}

pub(crate) fn int64_iter<I: Pages>(
    alloc: Global,
    pages: I,
    logical: Option<&PrimitiveLogicalType>,
    data_type: DataType,
    chunk_size: Option<usize>,
    num_rows: usize,
) -> Result<ArrayIter<I>, Error>
    requires typed { DataPagesAre (λ page. page.type.physical_type ≡ Int64) (I.to_come pages) }
    requires size { IsChunkSize chunk_size }
    ensures begins { let unit = option_copied logical.entry in
        IfSome (from_int64 unit (out-DataType data_type)) (λ rule.
        let supply = supply_of I.to_come I.causes I.row_count I.lent_count pages in
        let left = array_left I.to_come I.causes I.row_count I.lent_count in
        BeginsColumn left (converted_left Int64 data_type chunk_size num_rows supply rule) result) }
    ensures refused { let unit = option_copied logical.entry in
        from_int64 unit (out-DataType data_type) ≡ None → IsRefusedPair result }
{
    match &data_type {
        DataType::Int64 | DataType::Date64 | DataType::Time64(_) | DataType::Duration(_) => {
            let values = NumberValues::<i64, i64, Keep>::new(Keep);
            let arrays = values_iter(alloc, pages, values, data_type, chunk_size, num_rows)?;
            Ok(ArrayIter::Int64(Int64Iter::Int64(arrays)))
        }
        DataType::Timestamp(unit, _) => {
            let values = NumberValues::<i64, i64, Scale>::new(rescaled(logical, *unit));
            let arrays = values_iter(alloc, pages, values, data_type, chunk_size, num_rows)?;
            Ok(ArrayIter::Int64(Int64Iter::Timestamp(arrays)))
        }
        DataType::UInt32 | DataType::UInt64 => {
            low_int64_iter(alloc, pages, data_type, chunk_size, num_rows)
        }
        DataType::Decimal(_, _) => {
            let values = NumberValues::<i64, i128, Widen>::new(Widen);
            let arrays = values_iter(alloc, pages, values, data_type, chunk_size, num_rows)?;
            Ok(ArrayIter::Int64(Int64Iter::Decimal(arrays)))
        }
        _ => Err(Error::NotYetImplemented(Part::Schema)),
    }
}

/// From the unit of a column to that which is asked for.
pub(crate) fn rescaled(logical: Option<&PrimitiveLogicalType>, unit: TimeUnit) -> Scale
    ensures { result ≡ unit_factor (option_copied logical.entry) unit }
{
    let (factor, multiply) = unifiy_timestmap_unit(logical, unit);
    Scale::new(factor, multiply)
}

pub(crate) fn int96_iter<I: Pages>(
    alloc: Global,
    pages: I,
    data_type: DataType,
    chunk_size: Option<usize>,
    num_rows: usize,
) -> Result<ArrayIter<I>, Error>
    requires typed { DataPagesAre (λ page. page.type.physical_type ≡ Int96) (I.to_come pages) }
    requires size { IsChunkSize chunk_size }
    ensures begins { IfSome (from_int96 (out-DataType data_type)) (λ rule.
        let supply = supply_of I.to_come I.causes I.row_count I.lent_count pages in
        let left = array_left I.to_come I.causes I.row_count I.lent_count in
        BeginsColumn left (converted_left Int96 data_type chunk_size num_rows supply rule) result) }
    ensures refused { from_int96 (out-DataType data_type) ≡ None → IsRefusedPair result }
{
    match &data_type {
        DataType::Timestamp(unit, _) => {
            let rule = Int96Time { unit: *unit };
            let values = NumberValues::<[u32; 3], i64, Int96Time>::new(rule);
            let arrays = values_iter(alloc, pages, values, data_type, chunk_size, num_rows)?;
            Ok(ArrayIter::Int96(arrays))
        }
        _ => Err(Error::NotYetImplemented(Part::Schema)),
    }
}
