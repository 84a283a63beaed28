//! What row groups tell of the columns of a field.
ghost use Rattle.std.specs.Prelude.{◌≡◌, ◌<◌, [], ◌∷◌, drop, flat_map, length, map, take, IfOk, OnOk};
ghost use Rattle.std.specs.List.{AllByRecursion};
ghost use Rattle.columns_core.specs.Causes.{ComesOf};
ghost use Rattle.column_ends.specs.Converted.{group_array_causes, group_causes};
ghost use Rattle.parquet_statistics.specs.Deserialized.{columns_in, side_causes_of_columns, told_columns, told_in};
ghost use Rattle.parquet_statistics.specs.Parts.{causes_by_column, columns_in_place, uneven_causes};

use column_ends::{EndBytes, statistics_ends};
use columns_core::{Cell, DataType, Error, Field, Part};
use parquet_meta::{ColumnChunkMetaData, Ends, RowGroupMetaData, get_field_columns};
use std::alloc::Global;

/// The columns of a field in each group, of which there have to be so many.
pub(crate) fn columns_of_groups<'a>(
    alloc: Global,
    field: &Field,
    count: usize,
    row_groups: &'a [RowGroupMetaData],
) -> Result<Vec<Vec<&'a ColumnChunkMetaData>>, Error>
    ensures columns { IfOk result (λ groups.
        map (λ columns. map (λ column. column.now) columns.items) groups.items
        ≡ map (columns_in field.now) row_groups.now) }
    ensures ok { OnOk result (flat_map (uneven_causes count field.now) row_groups.now ≡ []) }
    ensures cause { ComesOf result (flat_map (uneven_causes count field.now) row_groups.now) }
{
    let mut groups = Vec::with_capacity(alloc, row_groups.len())?;
    for group in row_groups {
        groups.push(columns_of_group(alloc, field, count, group)?)?;
    }
    Ok(groups)
}

fn columns_of_group<'a>(
    alloc: Global,
    field: &Field,
    count: usize,
    group: &'a RowGroupMetaData,
) -> Result<Vec<&'a ColumnChunkMetaData>, Error>
    ensures columns { IfOk result (λ columns.
        map (λ column. column.now) columns.items ≡ columns_in field.now group.now) }
    ensures ok { OnOk result (uneven_causes count field.now group.now ≡ []) }
    ensures cause { ComesOf result (uneven_causes count field.now group.now) }
{
    let columns = get_field_columns(alloc, group.columns.as_slice(), field.name.as_str())?;
    if columns.len() == count {
        Ok(columns)
    } else {
        Err(Error::NotYetImplemented(Part::Schema))
    }
}

/// What each column tells in each group, in the type beside it.
pub(crate) fn told_of_columns(
    alloc: Global,
    types: &[&DataType],
    groups: &[Vec<&ColumnChunkMetaData>],
) -> Result<Vec<Vec<Ends<Cell>>>, Error>
    requires even { AllByRecursion (λ columns. length columns ≡ length types.now)
        (map (λ columns. map (λ column. column.now) columns.items) groups.now) }
    ensures told { IfOk result (λ told. map (λ column. column.items) told.items
        ≡ told_columns (map (λ t. t.now) types.now)
        (map (λ columns. map (λ column. column.now) columns.items) groups.now)) }
    ensures ok { OnOk result (causes_by_column (map (λ t. t.now) types.now)
        (map (λ columns. map (λ column. column.now) columns.items) groups.now) ≡ []) }
    ensures cause { ComesOf result (causes_by_column (map (λ t. t.now) types.now)
        (map (λ columns. map (λ column. column.now) columns.items) groups.now)) }
{
    let mut told = Vec::with_capacity(alloc, types.len())?;
    for place in 0..types.len() {
        told.push(told_of_column(alloc, types[place], place, groups)?)?;
    }
    Ok(told)
}

fn told_of_column(
    alloc: Global,
    data_type: &DataType,
    place: usize,
    groups: &[Vec<&ColumnChunkMetaData>],
) -> Result<Vec<Ends<Cell>>, Error>
    requires wide { AllByRecursion (λ columns. place < length columns)
        (map (λ columns. map (λ column. column.now) columns.items) groups.now) }
    ensures told { IfOk result (λ told. told.items ≡ map (told_in data_type.now)
        (columns_in_place place (map (λ columns. map (λ column. column.now) columns.items) groups.now))) }
    ensures ok { OnOk result (flat_map (group_causes data_type.now)
        (columns_in_place place (map (λ columns. map (λ column. column.now) columns.items) groups.now))
        ≡ []) }
    ensures cause { ComesOf result (flat_map (group_causes data_type.now)
        (columns_in_place place (map (λ columns. map (λ column. column.now) columns.items) groups.now))) }
{
    let mut told = Vec::with_capacity(alloc, groups.len())?;
    for columns in groups {
        told.push(told_in_place(alloc, data_type, place, columns)?)?;
    }
    Ok(told)
}

/// What the column at a place tells of a group.
fn told_in_place(
    alloc: Global,
    data_type: &DataType,
    place: usize,
    columns: &[&ColumnChunkMetaData],
) -> Result<Ends<Cell>, Error>
    requires within { place < length columns.now }
    ensures told { IfOk result (λ ends. map (told_in data_type.now)
        (take 1 (drop place (map (λ column. column.now) columns.now))) ≡ ends ∷ []) }
    ensures ok { OnOk result (flat_map (group_causes data_type.now)
        (take 1 (drop place (map (λ column. column.now) columns.now))) ≡ []) }
    ensures cause { ComesOf result (flat_map (group_causes data_type.now)
        (take 1 (drop place (map (λ column. column.now) columns.now)))) }
{
    statistics_ends(alloc, columns[place], data_type)
}

/// The least values of each column have to fit an array of the type beside it, and the greatest another.
pub(crate) fn check_bytes(types: &[&DataType], told: &[Vec<Ends<Cell>>]) -> Result<(), Error>
    requires even { length types.now ≡ length told.now }
    ensures ok { OnOk result (side_causes_of_columns (map (λ t. t.now) types.now)
        (map (λ column. column.items) told.now) ≡ []) }
    ensures cause { ComesOf result (side_causes_of_columns (map (λ t. t.now) types.now)
        (map (λ column. column.items) told.now)) }
{
    for i in 0..types.len() {
        check_column(types[i], &told[i])?;
    }
    Ok(())
}

fn check_column(data_type: &DataType, column: &[Ends<Cell>]) -> Result<(), Error>
    ensures ok { OnOk result (group_array_causes data_type.now column.now ≡ []) }
    ensures cause { ComesOf result (group_array_causes data_type.now column.now) }
{
    let mut bytes = EndBytes::new();
    for ends in column {
        bytes.add(ends.min_value.as_ref(), ends.max_value.as_ref());
    }
    if bytes.fit(data_type) {
        Ok(())
    } else {
        Err(Error::Overflow)
    }
}
