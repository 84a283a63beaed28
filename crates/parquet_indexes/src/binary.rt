//! Ends of pages of texts and byte strings.
ghost use Rattle.std.specs.Prelude.{◌≡◌, [], None, IfOk, OnOk};
ghost use Rattle.columns_core.specs.Causes.{ComesOf};
ghost use Rattle.parquet_indexes.specs.Told.{AreTold, required_type, statistics_causes};

use crate::ColumnPageStatistics;
use crate::copied::copy_of_byte_pages;
use crate::told::{required_type as required, told_statistics};
use columns_core::{DataType, Error, Seq};
use parquet_meta::{Index, PageIndex, PhysicalType};
use std::alloc::Global;

/// The statistics of pages of a BYTE_ARRAY column, in a type.
///
/// `NotYetImplemented` where the type is none of texts or byte strings; `ExternalFormat` where a count is negative; `OutOfSpec` where a text is not
/// UTF-8; `Overflow` where the bytes of all least or of all greatest values are more than an array of the type has at most.
pub fn deserialize(
    alloc: Global,
    indexes: &[PageIndex<Seq<u8>>],
    data_type: &DataType,
) -> Result<ColumnPageStatistics, Error>
    ensures told { IfOk result
        (AreTold (required_type PhysicalType.ByteArray None) data_type.now (Index.ByteArray indexes.now)) }
    ensures ok { OnOk result
        (statistics_causes (required_type PhysicalType.ByteArray None) data_type.now
        (Index.ByteArray indexes.now) ≡ []) }
    ensures cause { ComesOf result
        (statistics_causes (required_type PhysicalType.ByteArray None) data_type.now
        (Index.ByteArray indexes.now)) }
{
    let index = Index::ByteArray(copy_of_byte_pages(alloc, indexes)?);
    told_statistics(
        alloc,
        &required(PhysicalType::ByteArray, None),
        &index,
        data_type,
    )
}
