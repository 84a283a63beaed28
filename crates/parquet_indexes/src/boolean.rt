//! Ends of pages of truth values.
ghost use Rattle.std.specs.Prelude.{◌≡◌, [], None, IfOk, OnOk};
ghost use Rattle.columns_core.specs.Causes.{ComesOf};
ghost use Rattle.columns_core.specs.declared.data_type.DataType.{Boolean};
ghost use Rattle.parquet_indexes.specs.Told.{AreTold, required_type, statistics_causes};

use crate::ColumnPageStatistics;
use crate::copied::copy_of_pages;
use crate::told::{required_type as required, told_statistics};
use columns_core::{DataType, Error};
use parquet_meta::{Index, PageIndex, PhysicalType};
use std::alloc::Global;

/// The statistics of pages of a BOOLEAN column.
///
/// `ExternalFormat` where a count is negative.
pub fn deserialize(
    alloc: Global,
    indexes: &[PageIndex<bool>],
) -> Result<ColumnPageStatistics, Error>
    ensures told { IfOk result
        (AreTold (required_type PhysicalType.Boolean None) Boolean (Index.Boolean indexes.now)) }
    ensures ok { OnOk result
        (statistics_causes (required_type PhysicalType.Boolean None) Boolean (Index.Boolean indexes.now)
        ≡ []) }
    ensures cause { ComesOf result
        (statistics_causes (required_type PhysicalType.Boolean None) Boolean (Index.Boolean indexes.now)) }
{
    let index = Index::Boolean(copy_of_pages(alloc, indexes)?);
    told_statistics(
        alloc,
        &required(PhysicalType::Boolean, None),
        &index,
        &DataType::Boolean,
    )
}
