//! What the index of a column tells of its pages, as arrays of a type.
ghost use Rattle.std.specs.Prelude.{◌≡◌, [], is_some, IfOk, OnOk};
ghost use Rattle.columns_core.specs.Causes.{ComesOf};
ghost use Rattle.columns_core.specs.DictionaryType.{entry_type};
ghost use Rattle.parquet_indexes.specs.Told.{AreTold, required_type as required_type_by, statistics_causes};

use crate::ColumnPageStatistics;
use crate::page_arrays::statistics_of_pages;
use column_ends::index_ends;
use columns_core::{DataType, Error, Part};
use parquet_meta::{Index, PhysicalType, PrimitiveLogicalType, PrimitiveType, Repetition};
use std::alloc::Global;

/// What an index tells of the pages of a column of this type, as arrays of a type that is no dictionary's.
pub(crate) fn told_statistics(
    alloc: Global,
    stored: &PrimitiveType,
    index: &Index,
    data_type: &DataType,
) -> Result<ColumnPageStatistics, Error>
    ensures told { IfOk result (AreTold stored.now data_type.now index.now) }
    ensures ok { OnOk result (statistics_causes stored.now data_type.now index.now ≡ []) }
    ensures cause { ComesOf result (statistics_causes stored.now data_type.now index.now) }
{
    if is_dictionary(data_type) {
        return Err(Error::NotYetImplemented(Part::Index));
    }
    let pages = index_ends(alloc, stored, index, data_type)?;
    statistics_of_pages(alloc, data_type, &pages)
}

fn is_dictionary(data_type: &DataType) -> bool
    ensures { result ≡ is_some (entry_type data_type.now) }
{
    matches!(data_type, DataType::Dictionary(_, _, _))
}

/// Columns of a stored type. Whether they are repeated is not asked.
pub(crate) fn required_type(
    physical_type: PhysicalType,
    logical_type: Option<PrimitiveLogicalType>,
) -> PrimitiveType
    ensures { result ≡ required_type_by physical_type logical_type }
{
    PrimitiveType {
        physical_type,
        logical_type,
        repetition: Repetition::Required,
    }
}
