//! The columns of a field.

ghost use Rattle.std.specs.Prelude.{◌≡◌, IfOk, IfErr, map};
ghost use Rattle.columns_core.specs.Causes.{IsWantOfMemory};
ghost use Rattle.parquet_meta.specs.Indexes.{begins_with, field_columns, field_items};

use crate::metadata::ColumnChunkMetaData;
use columns_core::Error;
use std::alloc::Global;

/// Whether the column's path begins with this name.
pub fn begins_with(column: &ColumnChunkMetaData, name: &str) -> bool
    ensures { result ≡ begins_with name.now column.now }
{
    match column.descriptor.path_in_schema.as_slice() {
        [first, ..] => first.as_str() == name,
        [] => false,
    }
}

/// The columns whose path begins with the name of a field, in order.
pub fn get_field_columns<'a>(
    alloc: Global,
    columns: &'a [ColumnChunkMetaData],
    field_name: &str,
) -> Result<Vec<&'a ColumnChunkMetaData>, Error>
    ensures memory { IfErr result IsWantOfMemory }
    ensures found { IfOk result (λ found.
        map (λ column. column.now) found.items ≡ field_columns field_name.now columns.now) }
{
    let mut found = Vec::new(alloc);
    for column in columns {
        if begins_with(column, field_name) {
            found.push(column)?;
        }
    }
    Ok(found)
}

/// What stands beside those columns in another list. The longer list is cut.
pub fn get_field_pages<'a, T>(
    alloc: Global,
    columns: &'a [ColumnChunkMetaData],
    items: &'a [T],
    field_name: &str,
) -> Result<Vec<&'a T>, Error>
    ensures memory { IfErr result IsWantOfMemory }
    ensures found { IfOk result (λ found.
        map (λ item. item.now) found.items ≡ field_items field_name.now columns.now items.now) }
{
    let mut found = Vec::new(alloc);
    for (column, item) in columns.iter().zip(items) {
        if begins_with(column, field_name) {
            found.push(item)?;
        }
    }
    Ok(found)
}
