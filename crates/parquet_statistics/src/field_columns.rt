//! The columns of a field: those whose path begins with the field's name.
ghost use Rattle.std.specs.Prelude.{◌≡◌};
ghost use Rattle.parquet_statistics.specs.LeafTypes as spec;

use columns_core::Field;
use parquet_meta::{ColumnChunkMetaData, begins_with};

/// Whether a field has a column.
pub fn has_column(columns: &[ColumnChunkMetaData], field: &Field) -> bool
    ensures { result ≡ spec.has_column columns.now field.now }
{
    columns
        .iter()
        .any(|column| begins_with(column, field.name.as_str()))
}
