//! Pairs of a column's type and a type that is asked for: those that are not carried are refused, and nulls are told.
ghost use Rattle.std.specs.Prelude.{◌≡◌, [], OnOk};
ghost use Rattle.columns_core.specs.Causes.{ComesOf};
ghost use Rattle.flat_binary.specs.NullType as nulls;
ghost use Rattle.parquet_scan.specs.Causes.{pair_causes};

use columns_core::{DataType, Error, Part};
use flat_values::carries;
use parquet_meta::{ColumnChunkMetaData, PageLocation, PrimitiveType};

/// A column chunk, the type that it is read as, and where its pages stand, if rows are pruned by them.
#[derive(Clone, Copy)]
pub(crate) struct TypedColumn<'a> {
    pub(crate) column: &'a ColumnChunkMetaData,
    pub(crate) data_type: &'a DataType,
    pub(crate) locations: &'a [PageLocation],
}

/// Refuses a pair of types that is not carried.
pub(crate) fn check_pair(stored: &PrimitiveType, data_type: &DataType) -> Result<(), Error>
    ensures ok { OnOk result (pair_causes stored.now data_type.now ≡ []) }
    ensures cause { ComesOf result (pair_causes stored.now data_type.now) }
{
    if carries(stored, data_type) {
        return Ok(());
    }
    Err(Error::NotYetImplemented(Part::Schema))
}

pub(crate) fn is_null_type(data_type: &DataType) -> bool
    ensures { result ≡ nulls.is_null_type data_type.now }
{
    matches!(data_type, DataType::Null)
}
