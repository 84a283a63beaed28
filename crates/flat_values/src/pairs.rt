//! Which pairs of a column's type and a type that is asked for are carried.
ghost use Rattle.std.specs.Prelude.{◌≡◌, Option, is_some};
ghost use Rattle.columns_core.specs.declared.data_type.DataType.{out-DataType};
ghost use Rattle.parquet_meta.specs.declared.metadata.PrimitiveLogicalType.{PrimitiveLogicalType};
ghost use Rattle.flat_values.specs.Pairs.{conversion, from_physical, from_int32, from_int64, from_fixed, from_byte_array};
ghost use Rattle.flat_values.specs.Pairs.{entry_from_physical, entry_from_int32, entry_from_int64, entry_from_fixed};
ghost use Rattle.flat_values.specs.Pairs.{leaf_conversion, page_conversion, page_from_physical, page_from_int96, page_from_fixed};

use columns_core::{DataType, IntervalUnit};
use parquet_meta::{PhysicalType, PrimitiveType, Repetition};

/// Whether a column of this type may be read as that type. Any column that is not repeated may be read as nulls.
pub fn carries(type_: &PrimitiveType, data_type: &DataType) -> bool
    ensures { result ≡ is_some (conversion type_.now data_type.now) }
{
    match (type_.repetition, data_type) {
        (Repetition::Repeated, _) => false,
        (_, DataType::Null) => true,
        (_, DataType::Dictionary(_, entries, _)) => carries_entries(type_, entries.get()),
        _ => carries_values(type_, data_type),
    }
}

/// Whether the ends that statistics tell of a column of this type may be read as that type, whatever the column's repetition is.
#[tactic(auto, using(crate::proofs::PairLemmas::leaf_out))]
pub fn carries_leaf(type_: &PrimitiveType, data_type: &DataType) -> bool
    ensures { result ≡ is_some (leaf_conversion type_.now.physical_type type_.now.logical_type
        data_type.now) }
{
    match data_type {
        DataType::Null => true,
        DataType::Dictionary(_, values, _) => carries_leaf(type_, values.get()),
        _ => carries_values(type_, data_type),
    }
}

/// Whether the ends that a page index tells of a column of this type may be read as that type, whatever the column's repetition is.
#[tactic(auto, using(crate::proofs::PairLemmas::page_out))]
pub fn carries_page(type_: &PrimitiveType, data_type: &DataType) -> bool
    ensures { result ≡ is_some (page_conversion type_.now.physical_type type_.now.logical_type
        data_type.now) }
{
    match data_type {
        DataType::Dictionary(_, values, _) => carries_page(type_, values.get()),
        _ => carries_page_values(type_, data_type),
    }
}

fn carries_values(type_: &PrimitiveType, data_type: &DataType) -> bool
    ensures { result ≡ is_some (from_physical type_.now.physical_type type_.now.logical_type
        (out-DataType data_type.now)) }
{
    match type_.physical_type {
        PhysicalType::Boolean => matches!(data_type, DataType::Boolean),
        PhysicalType::Int32 => takes_int32(data_type),
        PhysicalType::Int64 => takes_int64(data_type),
        PhysicalType::Int96 => matches!(data_type, DataType::Timestamp(_, _)),
        PhysicalType::Float | PhysicalType::Double => false,
        PhysicalType::ByteArray => takes_byte_array(data_type),
        PhysicalType::FixedLenByteArray(size) => takes_fixed(size, data_type),
    }
}

fn carries_page_values(type_: &PrimitiveType, data_type: &DataType) -> bool
    ensures { result ≡ is_some (page_from_physical type_.now.physical_type type_.now.logical_type
        (out-DataType data_type.now)) }
{
    match type_.physical_type {
        PhysicalType::Boolean => matches!(data_type, DataType::Boolean),
        PhysicalType::Int32 => takes_int32(data_type),
        PhysicalType::Int64 => takes_int64(data_type),
        PhysicalType::Int96 => takes_page_int96(data_type),
        PhysicalType::Float | PhysicalType::Double => false,
        PhysicalType::ByteArray => takes_byte_array(data_type),
        PhysicalType::FixedLenByteArray(size) => takes_page_fixed(size, data_type),
    }
}

fn carries_entries(type_: &PrimitiveType, data_type: &DataType) -> bool
    ensures { result ≡ is_some (entry_from_physical type_.now.physical_type type_.now.logical_type
        (out-DataType data_type.now)) }
{
    match type_.physical_type {
        PhysicalType::Int32 => takes_int32_entries(data_type),
        PhysicalType::Int64 => takes_int64_entries(data_type),
        PhysicalType::ByteArray => takes_byte_array(data_type),
        PhysicalType::FixedLenByteArray(size) => takes_fixed_entries(size, data_type),
        PhysicalType::Boolean | PhysicalType::Int96 | PhysicalType::Float | PhysicalType::Double =>
            false,
    }
}

fn takes_int32(data_type: &DataType) -> bool
    ensures { result ≡ is_some (from_int32 (out-DataType data_type.now)) }
{
    matches!(
        data_type,
        DataType::UInt8
            | DataType::UInt16
            | DataType::UInt32
            | DataType::Int8
            | DataType::Int16
            | DataType::Int32
            | DataType::Date32
            | DataType::Date64
            | DataType::Time32(_)
            | DataType::Decimal(_, _)
    )
}

fn takes_int64(data_type: &DataType) -> bool
    ensures { (logical : Option PrimitiveLogicalType)
        → result ≡ is_some (from_int64 logical (out-DataType data_type.now)) }
{
    matches!(
        data_type,
        DataType::UInt32
            | DataType::UInt64
            | DataType::Int64
            | DataType::Date64
            | DataType::Time64(_)
            | DataType::Duration(_)
            | DataType::Timestamp(_, _)
            | DataType::Decimal(_, _)
    )
}

fn takes_byte_array(data_type: &DataType) -> bool
    ensures { result ≡ is_some (from_byte_array (out-DataType data_type.now)) }
{
    matches!(
        data_type,
        DataType::Utf8 | DataType::LargeUtf8 | DataType::Binary | DataType::LargeBinary
    )
}

fn takes_fixed(size: usize, data_type: &DataType) -> bool
    ensures { result ≡ is_some (from_fixed size (out-DataType data_type.now)) }
{
    match data_type {
        DataType::FixedSizeBinary(wanted) => 0 < size && size == *wanted,
        DataType::Decimal(_, _) => 0 < size && size <= 16,
        DataType::Interval(_) => size == 12,
        _ => false,
    }
}

fn takes_page_int96(data_type: &DataType) -> bool
    ensures { result ≡ is_some (page_from_int96 (out-DataType data_type.now)) }
{
    matches!(
        data_type,
        DataType::UInt64
            | DataType::Int64
            | DataType::Date64
            | DataType::Time64(_)
            | DataType::Duration(_)
            | DataType::Timestamp(_, _)
    )
}

fn takes_page_fixed(size: usize, data_type: &DataType) -> bool
    ensures { result ≡ is_some (page_from_fixed size (out-DataType data_type.now)) }
{
    match data_type {
        DataType::Interval(_) => false,
        _ => takes_fixed(size, data_type),
    }
}

fn takes_int32_entries(data_type: &DataType) -> bool
    ensures { result ≡ is_some (entry_from_int32 (out-DataType data_type.now)) }
{
    matches!(
        data_type,
        DataType::UInt8
            | DataType::UInt16
            | DataType::UInt32
            | DataType::Int8
            | DataType::Int16
            | DataType::Int32
            | DataType::Date32
            | DataType::Time32(_)
            | DataType::Interval(IntervalUnit::YearMonth)
    )
}

fn takes_int64_entries(data_type: &DataType) -> bool
    ensures { (logical : Option PrimitiveLogicalType)
        → result ≡ is_some (entry_from_int64 logical (out-DataType data_type.now)) }
{
    matches!(
        data_type,
        DataType::UInt64
            | DataType::Int64
            | DataType::Date64
            | DataType::Time64(_)
            | DataType::Duration(_)
            | DataType::Timestamp(_, _)
    )
}

fn takes_fixed_entries(size: usize, data_type: &DataType) -> bool
    ensures { result ≡ is_some (entry_from_fixed size (out-DataType data_type.now)) }
{
    match data_type {
        DataType::FixedSizeBinary(wanted) => 0 < size && size == *wanted,
        _ => false,
    }
}
