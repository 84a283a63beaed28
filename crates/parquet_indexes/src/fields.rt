//! The columns of fields: those whose path begins with the field's name.
ghost use Rattle.std.specs.Prelude.{◌≡◌};
ghost use Rattle.std.specs.List.{list_all};
ghost use Rattle.parquet_statistics.specs.LeafTypes as spec;

use columns_core::Field;
use parquet_meta::ColumnChunkMetaData;
use parquet_statistics::has_column;

/// Whether each field has a column.
pub(crate) fn have_columns(columns: &[ColumnChunkMetaData], fields: &[Field]) -> bool
    ensures { result ≡ list_all (spec.has_column columns.now) fields.now }
{
    fields.iter().all(|field| has_column(columns, field))
}
