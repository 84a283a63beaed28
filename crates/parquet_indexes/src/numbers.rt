//! Ends of pages that are stored as numbers.
ghost use Rattle.std.specs.Prelude.{◌≡◌, [], None, IfOk, OnOk};
ghost use Rattle.columns_core.specs.Causes.{ComesOf};
ghost use Rattle.parquet_indexes.specs.Told.{AreTold, required_type, statistics_causes};

use crate::ColumnPageStatistics;
use crate::copied::copy_of_pages;
use crate::told::{required_type as required, told_statistics};
use columns_core::{DataType, Error};
use parquet_meta::{Index, PageIndex, PhysicalType, PrimitiveType};
use std::alloc::Global;

/// The statistics of pages of an INT32 column, in a type.
///
/// `NotYetImplemented` where the type is not carried; `ExternalFormat` where a count is negative.
pub fn deserialize_i32(
    alloc: Global,
    indexes: &[PageIndex<i32>],
    data_type: DataType,
) -> Result<ColumnPageStatistics, Error>
    ensures told { IfOk result
        (AreTold (required_type PhysicalType.Int32 None) data_type (Index.Int32 indexes.now)) }
    ensures ok { OnOk result
        (statistics_causes (required_type PhysicalType.Int32 None) data_type
        (Index.Int32 indexes.now) ≡ []) }
    ensures cause { ComesOf result
        (statistics_causes (required_type PhysicalType.Int32 None) data_type (Index.Int32 indexes.now)) }
{
    let index = Index::Int32(copy_of_pages(alloc, indexes)?);
    told_statistics(
        alloc,
        &required(PhysicalType::Int32, None),
        &index,
        &data_type,
    )
}

/// The statistics of pages of an INT64 column, in a type. Times are of the unit that the column's logical type says.
///
/// `NotYetImplemented` where the type is not carried; `ExternalFormat` where a count is negative; `Overflow` where a time is out of range.
pub fn deserialize_i64(
    alloc: Global,
    indexes: &[PageIndex<i64>],
    primitive_type: &PrimitiveType,
    data_type: DataType,
) -> Result<ColumnPageStatistics, Error>
    ensures told { let stored = required_type PhysicalType.Int64 primitive_type.now.logical_type in
        IfOk result (AreTold stored data_type (Index.Int64 indexes.now)) }
    ensures ok { let stored = required_type PhysicalType.Int64 primitive_type.now.logical_type in
        OnOk result (statistics_causes stored data_type (Index.Int64 indexes.now) ≡ []) }
    ensures cause { let stored = required_type PhysicalType.Int64 primitive_type.now.logical_type in
        ComesOf result (statistics_causes stored data_type (Index.Int64 indexes.now)) }
{
    let index = Index::Int64(copy_of_pages(alloc, indexes)?);
    let stored = required(PhysicalType::Int64, primitive_type.logical_type);
    told_statistics(alloc, &stored, &index, &data_type)
}

/// The statistics of pages of an INT96 column, in a type: in the unit of a timestamp, and in nanoseconds otherwise.
///
/// `NotYetImplemented` where the type is not carried; `ExternalFormat` where a count is negative; `Overflow` where a time is out of range.
pub fn deserialize_i96(
    alloc: Global,
    indexes: &[PageIndex<[u32; 3]>],
    data_type: DataType,
) -> Result<ColumnPageStatistics, Error>
    ensures told { IfOk result
        (AreTold (required_type PhysicalType.Int96 None) data_type (Index.Int96 indexes.now)) }
    ensures ok { OnOk result
        (statistics_causes (required_type PhysicalType.Int96 None) data_type
        (Index.Int96 indexes.now) ≡ []) }
    ensures cause { ComesOf result
        (statistics_causes (required_type PhysicalType.Int96 None) data_type (Index.Int96 indexes.now)) }
{
    let index = Index::Int96(copy_of_pages(alloc, indexes)?);
    told_statistics(
        alloc,
        &required(PhysicalType::Int96, None),
        &index,
        &data_type,
    )
}
